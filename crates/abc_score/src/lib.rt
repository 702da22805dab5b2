//! The score of a tune: its body read into voices, and each voice into measures, or the first fault of the body or of
//! the score.
#![tactic(auto)]

pub mod building;
pub mod faults;
pub mod keeping;
pub mod scores;
pub mod steps;
pub mod sung;
pub mod voices;

pub use building::build;
pub use voices::ReadVoice;
