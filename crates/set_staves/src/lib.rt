//! A system of marks set on a page: each mark where its columns are, each staff at its base, so that the ranks read
//! off the page are the ranks called for.
#![tactic(auto)]

pub mod marks;
pub mod staves;
pub mod systems;

pub use mus_laid::{Laid, Lane, Mark, StaffMarks, SystemMarks};
pub use mus_units::Memory;
pub use ps_text::{Item, PageMark, Staff};
pub use systems::system_item;
