//! Builds the columns of a system from its marks: the reach of each column in each lane, and the
//! natural length of the spring after it.
//!
//! All staves share a column. Marks of one lane in different columns are kept apart.
#![tactic(auto)]

pub mod column;
pub mod distances;
pub mod lanes;
pub mod reaches;
pub mod springs;
pub mod stands;
pub mod system;

pub use column::Column;
pub use lanes::gaps_of;
pub use lay_springs::Reach;
pub use stands::Reaches;
pub use system::{columns, columns_in};
