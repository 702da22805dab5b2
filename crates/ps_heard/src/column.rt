//! What a listener takes from a page.

use mus_units::{Alter, Clef, Head, Key, Pitch, Row};

/// What a glyph means to a listener.
#[derive(Clone, Copy, PartialEq, Eq)]
pub enum Role {
    Clef(Clef),
    Sign(Alter),
    Head,
    Grace,
    Bar,
    Quiet,
}

/// A glyph with a meaning to listeners, and its height in u.
#[derive(Clone, Copy, PartialEq, Eq)]
pub struct HeardGlyph {
    pub role: Role,
    pub dy: i32,
}

/// The marks of a staff at one anchor: whether the anchor is the first of its system, the meanings of its glyphs in
/// the staff's order, and the heights of the heads at which a tie ends.
#[derive(Drop)]
pub struct HeardColumn {
    pub leads: bool,
    pub notes: Row<HeardGlyph>,
    pub ties: Row<i64>,
}

/// A head as it sounds.
#[derive(Clone, Copy, PartialEq, Eq)]
pub struct Heard {
    pub pitch: Pitch,
    pub alter: Alter,
}

/// What a listener remembers: the clef and the key, the heads so far in the measure, the heads of the last column
/// that has any, those so far in this column, and all heads of the columns before it.
#[derive(Drop)]
pub struct Listener {
    pub clef: Clef,
    pub key: Key,
    pub said: Row<Head>,
    pub before: Row<Heard>,
    pub here: Row<Heard>,
    pub heard: Row<Heard>,
}
