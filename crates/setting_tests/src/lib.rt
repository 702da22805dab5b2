//! Makes the calls that the cases of setting name: stems, marks, columns, sounds and layouts of tunes, books set by
//! jobs, and work done by jobs. `calls` has the names.
#![tactic(auto)]

mod books;
mod boxes;
mod calls;
mod columns;
mod jobs;
mod layouts;
mod marks;
mod meetings;
mod plans;
mod scores;
mod slopes;
mod sounds;
mod voices;

use crate::calls::SettingCalls;
use case_texts::{Tally, check_tables};
use lay_columns::measures_join;
use mus_bridges::beams_by_levels;
use mus_stems::{beams_by_groups, no_other_plans, slopes_by_beams};
use set_lists::{book_rises, breakings_of_listing, lists_the_set};
use std::io;
use std::rt::Files;
use std::thread::Threads;

/// The tables, in the order in which they are checked.
const TABLES: [&str; 7] = [
    "setting/stems",
    "setting/marks",
    "setting/columns",
    "setting/sounds",
    "setting/layouts",
    "setting/books",
    "setting/jobs",
];

/// Makes the calls that do nothing: the contract of each is a law.
fn state_laws() {
    beams_by_groups();
    beams_by_levels();
    slopes_by_beams();
    no_other_plans();
    measures_join();
    book_rises();
    lists_the_set();
    breakings_of_listing();
}

/// Checks each case of the tables.
pub fn check_setting<R: Files + Print + AllocGlobal + Threads + Sync>(rt: &R) -> io::Result<Tally> {
    state_laws();
    check_tables(rt, &SettingCalls { rt }, &TABLES)
}
