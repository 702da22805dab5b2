//! The distances of pages, in u, with the names that the definitions give them.

/// The greatest height of a block.
pub const TALLEST_BLOCK: u64 = 1_099_511_627_776;

/// What a page leaves free counts by this.
pub const FREE_STEP: u64 = 100;

/// Between two blocks of a page.
pub const BLOCK_GAP: u64 = 1500;

/// The height of a row of big text.
pub const BIG_ROW: u64 = 2400;
/// The height of a row of small text.
pub const SMALL_ROW: u64 = 1400;
/// How far the base line of a row of big text is below its top.
pub const BIG_BASE: u64 = 1800;
/// How far the base line of a row of small text is below its top.
pub const SMALL_BASE: u64 = 1000;
