//! The steps of a voice: the items of a body in sequence, and what comes before and after a place among the steps of
//! one voice.
#![tactic(auto)]

pub mod context;
pub mod copies;
pub mod counts;
pub mod force;
pub mod kinds;
pub mod laws;
pub mod lengths;
pub mod looks;
pub mod state;
pub mod step;
pub mod stored;
pub mod tuplets;

pub use abc_music::Boxed;
pub use context::StepContext;
pub use counts::{Counts, Nearest};
pub use force::InForce;
pub use laws::states_are_as_written;
pub use state::VoiceState;
pub use step::{BodyItem, PlacedStep, Step, WrittenSound};
pub use stored::StoredSound;
pub use tuplets::OpenTuplets;
