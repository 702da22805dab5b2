//! Places columns that rods hold apart and springs push apart.
//!
//! The crate computes the pointwise least list of abscissas at a force, the greatest force at which
//! columns end within a width, and the abscissas set to the width. It works for every type that has
//! reaches and a spring length.
#![tactic(auto)]

pub mod columns;
pub mod forces;
mod guesses;
pub mod halves;
pub mod least;
pub mod margin;
pub mod placing;
pub mod progress;
pub mod traits;

pub use columns::{Gaps, SpacedColumns};
pub use forces::{longer_fits_less, most_columns, one_force};
pub use halves::fit;
pub use least::place;
pub use margin::{Placed, justify, justify_columns};
pub use placing::{Found, Placing};
pub use progress::Progress;
pub use traits::{
    LaneReach, LinearSpring, MOST_REACH, Reach, ReachView, Spaced, Spring, cut_reach, reach_in,
};
