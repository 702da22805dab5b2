//! Determines what pages sound from their marks alone: the heads of each staff of a tune, each with its pitch and its
//! alteration.
//!
//! A staff is heard column by column from the left, in time n log n, where n is the number of marks of its systems
//! over all staves.
#![tactic(auto)]

pub mod anchors;
pub mod column;
pub mod columns;
pub mod ear;
pub mod heads;
pub mod keys;
pub mod pitches;
pub mod roles;
pub mod sheets;
pub mod telling;
pub mod tunes;

pub use column::Heard;
pub use sheets::hear;
pub use telling::{put_heads, put_heard};
