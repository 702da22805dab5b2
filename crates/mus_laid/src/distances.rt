//! The distances of what is drawn, in u, with the names that the definitions give them.

pub use mus_units::distances::{BEAM_THICKNESS, TOP_LINE};

/// The width of a character of small text.
pub const SMALL_WIDTH: u32 = 540;
/// The width of a character of big text.
pub const BIG_WIDTH: u32 = 960;
/// How far small text goes below its base line.
pub const SMALL_BELOW: i64 = 270;
/// How far big text goes below its base line.
pub const BIG_BELOW: i64 = 480;
/// How far small text goes above its base line.
pub const SMALL_ABOVE: i64 = 720;
/// How far big text goes above its base line.
pub const BIG_ABOVE: i64 = 1280;
