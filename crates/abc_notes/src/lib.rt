//! Notes of a music line, alone, in chords and in grace groups: how each is spelled, what it means, and a reader of
//! the longest one at the start of a line.
#![tactic(auto)]

pub mod bytes;
pub mod chord;
pub mod decoration;
pub mod grace;
pub mod item;
pub mod length;
pub mod note;
pub mod part;

pub use part::{Flaw, GraceChord, Len};
