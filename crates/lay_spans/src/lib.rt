//! Finds the spans of measures that fit a system, with their badness.
//!
//! The input is the columns of each measure, where it begins a system and where it doesn't. The
//! output is the spans that fit within a width, the force and the cost of each, and the costs by which
//! a breaking is chosen.
#![tactic(auto)]

pub mod borrowed;
pub mod breaks;
pub mod costs;
mod maker;
mod marks;
pub mod measures;
pub mod rows;
pub mod seen;
pub mod spans;

pub use borrowed::BorrowedColumns;
pub use breaks::break_of;
pub use costs::FittingSpans;
pub use measures::Measures;
pub use seen::BorrowedColumn;
pub use spans::{SpanInput, columns_in, spans_of};
