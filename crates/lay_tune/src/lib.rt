//! Lays out a score in systems: the spans of measures that fit the width, the breaking of least
//! badness, and for each system its marks, the abscissas of its columns and how its staves are
//! stacked.
#![tactic(auto)]

mod gaps;
pub mod layout;
mod measures;
mod systems;

pub use lay_breaks::{Breaking, Span};
pub use lay_pages::Heights;
pub use lay_springs::Placed;
pub use layout::{Layout, LayoutError, lay_out};
pub use mus_laid::SystemMarks;
