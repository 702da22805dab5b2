//! Distances in u, to the right of a column or above the bottom line.

/// The middle line.
pub const MIDDLE_LINE: i32 = 1000;

/// How far a stem goes past its last head.
pub const STEM_LENGTH: i32 = 1750;

/// The dx of a displaced head whose stem goes up.
pub const RIGHT_OF_STEM: i32 = 560;

/// The dx of a displaced head whose stem goes down.
pub const LEFT_OF_STEM: i32 = -560;

/// The first column of accidentals.
pub const SIGN_COLUMN: i32 = -750;

/// The first column of accidentals past a head left of the stem.
pub const OUTER_SIGN_COLUMN: i32 = -1310;

/// The distance between columns of accidentals.
pub const BETWEEN_COLUMNS: i32 = 500;

/// The first dot.
pub const DOT_COLUMN: i32 = 600;

/// The first dot past a head right of the stem.
pub const OUTER_DOT_COLUMN: i32 = 1160;

/// The distance between dots.
pub const BETWEEN_DOTS: i32 = 250;

/// The first ledger line below the staff.
pub const FIRST_BELOW: i32 = -500;

/// The first ledger line above the staff.
pub const FIRST_ABOVE: i32 = 2500;

/// The distance between ledger lines.
pub const BETWEEN_LINES: i32 = 500;

/// The most that a beam climbs.
pub const STEEPEST: i64 = 500;

/// The number of levels of heads.
pub const LEVEL_COUNT: u8 = 45;
