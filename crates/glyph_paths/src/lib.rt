//! The glyphs: their names, their outlines, their bounds and the lines that define them in a page's prolog, all from
//! one table.
#![tactic(auto)]

pub mod bounds;
pub mod numbers;
pub mod paths;
pub mod procedures;
pub mod rows;

pub use bounds::{Bounds, bounds_of};
pub use mus_units::Glyph;
pub use paths::PathOp;
pub use procedures::procedure;
pub use rows::{all_glyphs, name_of, outline};
