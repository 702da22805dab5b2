//! Runs each command of the top call over streams in memory, and checks the status and the written bytes. `calls` has
//! the calls that cases name.
#![tactic(auto)]

mod books;
mod calls;
mod case;
mod failing;
mod files;
mod gates;
mod made;
mod painting;
mod running;

use crate::calls::CommandCalls;
use crate::files::read_named;
use case_texts::{Tally, check_tables};
use std::io;
use std::rt::Files;
use std::thread::Threads;

/// The tables, in the order in which they are checked.
const TABLES: [&str; 7] = [
    "commands/cases",
    "commands/failing",
    "commands/gates",
    "commands/meetings",
    "commands/books",
    "commands/hostile",
    "commands/programs",
];

/// Checks each case of the tables.
pub fn check_commands<R: Files + Print + AllocGlobal + Threads + Sync>(
    rt: &R,
) -> io::Result<Tally> {
    let files = read_named(rt, &TABLES)?;
    check_tables(rt, &CommandCalls { rt, files }, &TABLES)
}
