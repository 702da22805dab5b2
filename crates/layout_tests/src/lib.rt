//! Makes the calls that the cases of layout name: springs, breakings, pages, their text, streams and words. `calls` has
//! the names.
#![tactic(auto)]

mod blocks;
mod calls;
mod commands;
mod documents;
mod glyphs;
mod hearing;
mod laws;
mod listings;
mod meetings;
mod ops;
mod plain;
mod stopped;
mod streams;
mod table;

use crate::calls::LayoutCalls;
use crate::laws::state_laws;
use case_texts::{Tally, check_tables};
use std::io;
use std::rt::Files;
use std::thread::Threads;

/// The tables, in the order in which they are checked.
const TABLES: [&str; 6] = [
    "layout/springs",
    "layout/breakings",
    "layout/pages",
    "layout/marks",
    "layout/documents",
    "layout/streams",
];

/// Checks each case of the tables.
pub fn check_layout<R: Files + Print + AllocGlobal + Threads + Sync>(rt: &R) -> io::Result<Tally> {
    state_laws();
    check_tables(rt, &LayoutCalls { rt }, &TABLES)
}
