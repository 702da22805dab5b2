//! Makes rows of forces in parallel: for each bar the forces of the spans from it.
//!
//! A type that knows the row of each bar implements `RowMaker`. `make_rows` makes the rows with any
//! number of jobs. From its result follow the costs by which a breaking is chosen.
#![tactic(auto)]

pub mod forces;
pub mod maker;
mod parts;
mod ranges;
pub mod rows;

pub use forces::badness;
pub use maker::{RowMaker, make_rows};
pub use rows::Rows;
