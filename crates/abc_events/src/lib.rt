//! The events of a voice: from its tree items, which are its written events and the tuplets that begin in it, to
//! their parts, the measures with their trees, and the bars.
#![tactic(auto)]

pub mod bars;
pub mod leaves;
pub mod measures;
pub mod nesting;

pub use bars::{VoiceBars, bars_of, forced_bars, own_measures};
pub use measures::measures_of;
