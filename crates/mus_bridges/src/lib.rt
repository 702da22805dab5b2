//! What the voices of a score have between the columns of a system: the beams of notes, level by level, those of
//! graces, and the pieces of slurs and ties.
#![tactic(auto)]

pub mod arcs;
pub mod beams;
pub mod bridges;
pub mod ends;
pub mod levels;
pub mod stems;

pub use bridges::put_bridges_of;
pub use ends::{EndedEvent, EndedEvents, end_at, ends_at};
pub use levels::beams_by_levels;
