//! A drawn voice: its measures with their events, each with what is in force there and its stem plan, and its arcs.
//! It is made once for a tune and serves each of its systems.
#![tactic(auto)]

pub mod drawing;
pub mod drawn;
pub mod sounds;
pub mod standing;

pub use drawing::{draw_voice, raise_of};
pub use drawn::{DrawnEvent, DrawnMeasure, DrawnVoice, Style, SystemOpening};
pub use sounds::{Sound, sounding};
pub use standing::StaffState;
