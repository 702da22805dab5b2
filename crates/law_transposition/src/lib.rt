//! The law of transposition: a moved score sounds as the score does, head by head, higher by the number of semitones
//! of the move.
//!
//! Letters alone don't determine this: a head without an accidental sounds by the accidentals before it, by the head
//! that is tied to it or by its key, and each of them is moved with it.
#![tactic(auto)]

pub mod law;

pub use law::moved_sounds_higher;
