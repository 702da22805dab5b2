//! The distances of columns, in u, with the names that the definitions give them.

/// The natural length of the spring after a note of two whole notes or more.
pub const BREVE_LENGTH: u32 = 4000;
/// The natural length of the spring after a note of at least a whole note.
pub const WHOLE_LENGTH: u32 = 2900;
/// The natural length of the spring after a note of at least a half.
pub const HALF_LENGTH: u32 = 2100;
/// The natural length of the spring after a note of at least a quarter.
pub const QUARTER_LENGTH: u32 = 1500;
/// The natural length of the spring after a note of at least an eighth.
pub const EIGHTH_LENGTH: u32 = 1100;
/// The natural length of the spring after a note of at least a 16th.
pub const LENGTH_OF_16TH: u32 = 850;
/// The natural length of the spring after a note of at least a 32nd.
pub const LENGTH_OF_32ND: u32 = 700;
/// The natural length of the spring after a note of at least a 64th.
pub const LENGTH_OF_64TH: u32 = 600;
/// The natural length of the spring after a shorter note.
pub const LEAST_LENGTH: u32 = 500;
/// The greatest natural length.
pub const MOST_LENGTH: u32 = BREVE_LENGTH;

/// The gap that columns keep in the main lane of a staff.
pub const MAIN_GAP: u32 = 100;
/// The gap that columns keep in each other lane.
pub const OTHER_GAP: u32 = 300;
