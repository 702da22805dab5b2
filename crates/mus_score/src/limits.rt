//! The limits of a score, and the gaps of its staves.

/// The most notes, rests and note heads of a score, each head of a chord counted.
pub const HEAD_LIMIT: u32 = 50_000;

/// The most measures of a score.
pub const MEASURE_LIMIT: u32 = 2000;

/// The lowest height of a note head: steps above the bottom line.
pub const LOWEST_HEAD: i32 = -14;

/// The highest height of a note head.
pub const HIGHEST_HEAD: i32 = 22;

/// The gap in u of the first staff of an outermost group from what is above it.
pub const WIDE_GAP: u32 = 1000;

/// The gap in u of any other staff.
pub const USUAL_GAP: u32 = 500;
