//! The law that every tune has exactly one outcome: it is set in one way, or reported with its one fault. Each stage of
//! a tune has one result, from its header to its layout; and what is read of a line is what it says.
//!
//! No call can promise that a result exists, since a call may run out of memory before it has its answer.
#![tactic(auto)]

pub mod law;

pub use law::{each_stage_has_one_result, every_tune_has_one_outcome, lines_are_read_as_said};
