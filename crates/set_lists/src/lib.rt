//! The texts that are written for the outcomes of a book besides its pages: the reports of the tunes with a fault,
//! the systems, the listing and the line of a trial.
#![tactic(auto)]

pub mod laws;
pub mod listing;
pub mod reports;
pub mod systems;
pub mod trials;
mod words;

pub use laws::{
    book_rises, breakings_of_listing, lists_the_book, lists_the_set, no_way_is_exact,
    outcomes_are_listable,
};
pub use listing::put_listing;
pub use reports::{has_fault, put_reports};
pub use set_book::Outcome;
pub use systems::put_systems;
pub use trials::{Trial, fault_count, put_trial, set_count, system_count, total_of};
