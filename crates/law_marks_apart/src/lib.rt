//! Laws of a system that is set: its columns rise within the width, and the boxes of marks in one
//! lane of a staff stay apart if their columns differ.
//!
//! The crate has no code: its laws are in `proofs`, and their statements in `specs`.
#![tactic(auto)]
