//! The body of a tune as items: steps, ends of music lines, voices and words, or the first fault of the body. Also
//! the voices of a tune in order of first mention.
#![tactic(auto)]

pub mod body;
mod token;
pub mod voices;

pub use abc_steps::{BodyItem, PlacedStep, Step, WrittenSound};
pub use body::read_body;
pub use voices::{VoiceStart, unnamed_of, voices_of};
