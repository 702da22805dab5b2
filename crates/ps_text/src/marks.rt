use mus_units::{Glyph, Size, Text, Way};

/// A mark of a staff, as it is on a page. Abscissas `x`, `x1`, `x2` are absolute; `dx` is from `x`,
/// and `dy`, `from` and `to` are above the base of the staff. All are in u.
#[derive(Drop)]
pub enum PageMark {
    /// A glyph, drawn `dx`, `dy` from its anchor.
    Glyph {
        glyph: Glyph,
        x: i64,
        dx: i32,
        dy: i32,
    },
    /// Words of 1 to 60 bytes.
    Words {
        size: Size,
        x: i64,
        dx: i32,
        dy: i32,
        text: Text,
    },
    /// A stem between two heights.
    Stem {
        x: i64,
        dx: i32,
        from: i32,
        to: i32,
    },
    /// A beam with its lower edge at `from` on the left and `to` on the right.
    Beam {
        way: Way,
        x1: i64,
        x2: i64,
        from: i32,
        to: i32,
    },
    /// A slur or a tie from one height to another, whose inner points are `bulge` above those.
    Arc {
        x1: i64,
        x2: i64,
        from: i32,
        to: i32,
        bulge: i32,
    },
}
