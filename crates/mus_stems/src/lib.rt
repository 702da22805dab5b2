//! Stems: their direction and their ends, which events share a beam, which heads and accidentals are displaced, and
//! the ledger lines and dots.
#![tactic(auto)]

pub mod beams;
mod distances;
pub mod dots;
pub mod ends;
pub mod groups;
pub mod heads;
pub mod ledgers;
pub mod plans;
pub mod signs;
pub mod slopes;
pub mod stills;

pub use dots::Spot;
pub use ends::{highest_head, lowest_head};
pub use groups::{beams_by_groups, no_other_plans, slopes_by_beams};
pub use heads::{HeadPosition, stands};
pub use ledgers::ledgers_for;
pub use plans::{StemPlan, stems};
pub use signs::signs_for;
pub use slopes::{SlopeInput, ends_for, slope};
