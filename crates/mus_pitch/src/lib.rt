//! Keys by the circle of fifths, and the alteration of a note.
//!
//! A tonic and its mode have a number of sharps, and that number has a signature, which further accidentals may
//! change. A note's alteration comes from its own accidental, one written before it, or its key. A pitch is found
//! from its steps above C0.
#![tactic(auto)]

pub mod alteration;
pub mod circle;
pub mod signs;
pub mod steps;

pub use alteration::in_force;
pub use circle::{Mode, signature};
pub use signs::{key_of, with_signs};
pub use steps::pitch_of_steps;
