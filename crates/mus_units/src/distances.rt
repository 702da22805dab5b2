//! The distances that are known both to the drawing of a score and to those who read pages, in u, with the names that
//! the definitions give them.

/// From a line of a staff to the space above it.
pub const STEP: i32 = 250;

/// The height of the second line of a staff above the bottom line.
pub const SECOND_LINE: i32 = 500;
/// The height of the third line of a staff above the bottom line.
pub const THIRD_LINE: i32 = 1000;
/// The height of the fourth line of a staff above the bottom line.
pub const FOURTH_LINE: i32 = 1500;
/// The height of the top line of a staff above the bottom line.
pub const TOP_LINE: i32 = 2000;

/// The thickness of a beam.
pub const BEAM_THICKNESS: i64 = 250;
/// A stem, from its column.
pub const STEM_SIDE: i32 = 280;
/// The stem of a grace, from its column.
pub const GRACE_STEM_SIDE: i32 = 190;
/// From a head to its tie, which bulges as far.
pub const TIE_GAP: i32 = 400;
