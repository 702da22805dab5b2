//! Lyrics: the syllables of a line of words, and the notes on which they are sung.
//!
//! A line of words is read as characters; runs of printed ones are syllables. Each syllable takes the next note, and
//! a bar sign moves on to the notes of the next measure.
#![tactic(auto)]

pub mod character;
pub mod singing;
pub mod syllable;

pub use character::Character;
pub use singing::{NoteAt, Sung, align};
pub use syllable::{Syl, syllables};
