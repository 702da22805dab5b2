use crate::laid::Lane;
use mus_onsets::ColumnKey;
use mus_units::{Glyph, Size, Text, Way};

/// A mark of one column, `dx` in u from it; `dy`, `from` and `to` are heights in u above the staff's bottom line. A
/// stem goes from `from` to `to`.
#[derive(Drop)]
pub enum Ink {
    Glyph {
        glyph: Glyph,
        dx: i32,
        dy: i32,
    },
    Words {
        size: Size,
        dx: i32,
        dy: i32,
        text: Text,
    },
    Stem {
        dx: i32,
        from: i32,
        to: i32,
    },
}

/// Ink and the lane that keeps it apart: a mark whose column is not known yet.
#[derive(Drop)]
pub struct LaneInk {
    pub ink: Ink,
    pub lane: Lane,
}

/// The shape of a mark between two columns: a beam by its lower edges at both, 250 u thick, or an arc by its two ends
/// and how far it bulges. Heights are in u above the staff's bottom line.
#[derive(Clone, Copy, PartialEq, Eq)]
pub enum BridgeShape {
    Beam { way: Way, from: i32, to: i32 },
    Arc { from: i32, to: i32, bulge: i32 },
}

/// A beam or an arc from the column of one key to that of another. No lane keeps it apart.
#[derive(Clone, Copy, PartialEq, Eq)]
pub struct Bridge {
    pub first: ColumnKey,
    pub last: ColumnKey,
    pub span: BridgeShape,
}
