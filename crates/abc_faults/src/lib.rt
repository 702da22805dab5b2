//! The faults of a voice as a score, each at its place, and the first of them.
#![tactic(auto)]

pub mod crowd;
pub mod first;
pub mod voice;
pub mod weights;

pub use crowd::crowding;
pub use first::earlier;
pub use voice::judge_step;
pub use weights::Weight;
