//! The words of a voice: the `w:` lines that belong to its music lines, the number of its verses, and the words of
//! each of its events.
#![tactic(auto)]

pub mod music;
pub mod rows;
pub mod verses;
pub mod words;

pub use music::SungNote;
pub use verses::{Verses, verse_count, verse_fault, verses_of_voice};
pub use words::words_of_events;
