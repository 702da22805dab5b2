//! Builds pages: stacks the staves of a system into a block, lays out the title block of a tune,
//! and fills blocks into pages.
#![tactic(auto)]

pub mod distances;
pub mod even;
pub mod filling;
pub mod stacking;
pub mod titles;

pub use even::{PageCosts, fill_even};
pub use filling::{Block, PageError, PlacedBlock, Placement, Spot, fill, fill_after, first_tall};
pub use mus_laid::{StaffMarks, SystemMarks};
pub use stacking::{Heights, stack};
pub use titles::{TitleBlock, TitleRow, title_block};
