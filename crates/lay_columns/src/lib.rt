//! Builds the columns of one measure at a time. Put one after the other, they are the columns of a
//! system, so that spans of measures can be tried by adding one measure at a time. Re-exports the
//! columns of a system of `lay_reaches`. The only error of its calls is out of memory.
#![tactic(auto)]

pub mod further;
pub mod law;
pub mod measures;
pub mod staves;

pub use further::{further_columns, further_of};
pub use law::measures_join;
pub use lay_reaches::{Column, Reach, columns, gaps_of};
pub use measures::measure_columns;
pub use staves::staff_verses;
