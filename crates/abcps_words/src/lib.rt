//! The words of a command line: the command that they ask for, with its options.
//!
//! `command_of` reads the words and takes no memory; `usage` returns the line that lists the forms.
#![tactic(auto)]

pub mod command;
pub mod options;
mod words;

pub use command::{BOOK_LIMIT, Command, PAGES_LIMIT, asked_is_good, asks_one, command_of, usage};
