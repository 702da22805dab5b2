//! The syllables of a staff, the texts above and below it, and its arcs, without the positions of their columns.
#![tactic(auto)]

pub mod arcs;
pub mod syllables;
pub mod texts;
mod words;

pub use arcs::{ArcEnd, PlacedPiece, put_arc};
pub use syllables::put_syllables;
pub use texts::{TextPlace, put_texts};
