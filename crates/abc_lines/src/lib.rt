//! A tune book as lines: the file header, and the lines of each tune.
//!
//! Bytes are split into lines once. Comments are removed, and each line is a list of Latin-1 bytes with its number.
//! The faults of tunes, which every later stage returns, are named here too.
#![tactic(auto)]

pub mod book;
pub mod cut;
pub mod fault;
pub mod kind;
pub mod reading;

pub use book::{Book, Line, TuneText};
pub use cut::cut_book;
pub use fault::{Fault, FaultKind, TuneError};
pub use kind::{LineKind, field_text, kind_of};
