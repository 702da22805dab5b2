//! Arcs: the slurs and ties of a voice, and their pieces in a system.
//!
//! A slur goes from a start to the end that it pairs with, a tie from a head to one of the same pitch in the very
//! next event. An arc that is cut by the end of a system is drawn in a piece on each side.
#![tactic(auto)]

pub mod cutting;
pub mod events;
pub mod pairing;

pub use cutting::{Piece, pieces};
pub use events::ArcEvent;
pub use pairing::{Arc, SlurEnd, arcs};
