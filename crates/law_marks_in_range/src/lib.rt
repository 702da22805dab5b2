//! Laws of the marks that a score calls for in a system, by which they can be shown on a page. Each
//! mark is in a column of the system, each column holds a mark that is in it alone, beams and arcs
//! go from left to right, and each text has 1 to 60 characters that can be printed.
//!
//! The crate has no code: its laws are in `proofs`, and their statements in `specs`.
#![tactic(auto)]
