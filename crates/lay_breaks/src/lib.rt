//! Breaks a row of bars into spans at the least cost.
//!
//! A type that knows the cost of the span from each bar to each later one implements `Costs`.
//! `least` then returns the one legal breaking that is least in sum and, among equals, last.
#![tactic(auto)]

pub mod breaking;
pub mod costs;
mod table;

pub use breaking::{BreakError, Breaking, least, one_is_chosen};
pub use costs::{Costs, Span};
