//! Runs the calls that read a book up to its tokens, fields, headers and paper, and those on the values, pitches and
//! keys that they build on; then those that make a score and those that ask about one: its events with their
//! durations and onsets, the keys of columns, slurs and ties, syllables on notes, the transposed score. The cases
//! are in the tables of its folder; the input of one that makes a score is mostly a book of one tune.
#![tactic(auto)]

mod arcs;
mod asked;
mod books;
mod calls;
mod events;
mod fields;
mod headers;
mod music;
mod papers;
mod pitches;
mod scores;
mod songs;
mod times;
mod tokens;
mod tunes;
mod units;

use crate::calls::ReadingCalls;
use case_texts::{Tally, check_tables};
use std::io;
use std::rt::Files;

/// The tables, in the order in which they are checked.
const TABLES: [&str; 14] = [
    "reading/books",
    "reading/music",
    "reading/spellings",
    "reading/fields",
    "reading/headers",
    "reading/papers",
    "reading/pitches",
    "reading/scores",
    "reading/faults",
    "reading/durations",
    "reading/columns",
    "reading/arcs",
    "reading/songs",
    "reading/moves",
];

/// Checks each case of the tables.
pub fn check_reading<R: Files + Print + AllocGlobal>(rt: &R) -> io::Result<Tally> {
    check_tables(rt, &ReadingCalls, &TABLES)
}
