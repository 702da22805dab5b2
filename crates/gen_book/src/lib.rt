//! The generated book: tunes that are made from their numbers alone, for trials of the engraver at any size.
#![tactic(auto)]

pub mod making;

pub use making::make;
