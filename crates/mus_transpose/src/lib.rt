//! Transposition: a score with each head moved by a number of semitones, along the circle of fifths.
//!
//! The key of a tune's header moves to the nearest key that many semitones away, and each key and each head of the
//! score moves by the same number of fifths. An accidental before a head becomes the one with which the head sounds
//! that many semitones higher.
#![tactic(auto)]

pub mod heads;
pub mod keys;
pub mod moves;
pub mod reach;
pub mod scores;
pub mod trees;

pub use moves::Move;
pub use scores::moved_or_same;
