//! The tree items of a voice: what its steps mean, in the order of the text, before a tree is built from it. A tree
//! item is a written event, with what was pending for it since the previous event, or a tuplet that begins.
#![tactic(auto)]

pub mod reading;
pub mod waits;
pub mod written;

pub use reading::{put_signs, signs, with_ties};
pub use waits::{no_changes, nothing_pending};
pub use written::{Pending, StoredPending, TreeItem, WrittenEvent};
