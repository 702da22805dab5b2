//! The columns of a system and of a single measure: their keys, read from the drawn voices of a score. It re-exports
//! the onsets of `mus_onsets`.
#![tactic(auto)]

pub mod frame;
pub mod keys;
pub mod voices;

pub use frame::SystemFrame;
pub use keys::{keys_of, measure_keys, note_key, system_keys};
pub use mus_onsets::{Class, ColumnKey, Onset, Timeline, onsets};
pub use voices::{DrawnScore, draw_voices};
