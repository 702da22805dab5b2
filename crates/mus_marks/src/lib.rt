//! The marks that a score calls for in a system: for each staff those of its columns, its beams and its arcs, each
//! with the rank of its column, and how low and how high they reach. It re-exports the types of marks of `mus_laid`.
#![tactic(auto)]

pub mod events;
pub mod measures;
pub mod silence;
pub mod staves;
pub mod systems;
pub mod tilting;
pub mod words;

pub use events::{WordsAt, changes_nothing};
pub use measures::put_own_voice;
pub use mus_drawn::{Sound, sounding};
pub use mus_laid::{Laid, Lane, Mark, Size, StaffMarks, SystemMarks, Way};
pub use mus_time::{DrawnScore, draw_voices};
pub use staves::{lower_count, verses_on};
pub use systems::{marks, marks_of};
pub use tilting::{tilt, tilt_of};
