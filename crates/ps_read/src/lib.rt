//! Reads pages. Returns the one sheet that spells a document, or the first line that isn't good given the lines
//! before it.
//!
//! A document is read line by line, in time linear in its length. `ps_heard` determines what the pages sound.
#![tactic(auto)]

mod lines;
mod pages;
mod prolog;
mod reading;
mod state;
mod systems;

pub use ps_heard::{Heard, hear, put_heads, put_heard};
pub use reading::{PagesError, good_by_lines, no_prefix_is_a_document, one_sheet, read_document};
