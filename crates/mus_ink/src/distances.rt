//! Distances and heights in u, with the names that the definitions give them.

pub use mus_units::distances::{GRACE_STEM_SIDE, STEM_SIDE, TIE_GAP};

/// The greatest distance of a height from the bottom line.
pub const FURTHEST: i64 = 1_073_741_824;

/// The length of the stem of a grace above its highest head.
pub const GRACE_STEM_LENGTH: i64 = 1250;
/// The first accidental before a grace, to the left of its column.
pub const GRACE_SIGN_SIDE: i32 = 600;
/// From a flag, or a level of a beam, to the next one.
pub const LEVEL_STEP: i64 = 375;

/// The lowest height of a decoration.
pub const DECO_LINE: i64 = 2250;
/// From the top of an event to its first decoration.
pub const DECO_GAP: i64 = 500;
/// From a decoration to the next.
pub const DECO_STEP: i64 = 750;

/// From a part of a short rest down to the next.
pub const REST_STEP: i64 = 500;
/// The first dot after a rest.
pub const DOT_SIDE: i32 = 600;
/// From a dot after a rest to the next.
pub const DOT_STEP: i32 = 250;
/// The height of the dots after a rest.
pub const REST_DOT_LINE: i32 = 1250;

/// The clef in the head of a staff.
pub const CLEF_SIDE: u32 = 200;
/// The first entry, or the meter, in the head of a staff.
pub const SIGNATURE_SIDE: u32 = 1800;
/// From an entry of a signature to the next.
pub const ENTRY_STEP: u32 = 500;
/// How far a change of clef moves what follows it.
pub const CLEF_WIDTH: u32 = 1300;
/// The first entry of a change of key, after the clef.
pub const ENTRY_GAP: u32 = 250;
/// The upper number of a meter.
pub const UPPER_NUMBER_LINE: i32 = 1000;
/// The lower number of a meter.
pub const LOWER_NUMBER_LINE: i32 = 0;
/// The sign of a meter.
pub const METER_SIGN_LINE: i32 = 500;

/// Half the width of a small character: how far a text begins to the left of its column.
pub const HALF_CHARACTER: i32 = 270;
/// From a verse to the next.
pub const VERSE_STEP: i64 = 1000;
/// From a text to the next.
pub const TEXT_STEP: i64 = 1000;
/// From the highest mark to the first text above.
pub const TEXT_GAP: i64 = 400;

/// From the top of an event to a slur.
pub const SLUR_GAP: i64 = 400;
/// How far a slur bulges.
pub const SLUR_BULGE: i32 = 700;
/// The height of an arc whose ends are both cut.
pub const CUT_ARC_LINE: i32 = 2750;
