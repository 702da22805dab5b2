//! Reads texts line by line, each line judged by what the lines before it have said.
//!
//! A `Grammar` defines which line may follow which, and a `LineReader` decides it. `read_lines` returns what a whole
//! text says, or the first line that isn't good.
#![tactic(auto)]

mod reading;

pub use reading::{LineError, LineReader, read_lines};
