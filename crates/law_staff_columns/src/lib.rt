//! Laws of what marks say: the marks of a voice that has a staff of its own, read by the ranks of their columns, give
//! a listener the columns of its score.
//!
//! The crate has no code: its laws are in `proofs`, their statements in `specs`.
#![tactic(auto)]
