ghost use Rattle.std.specs.Prelude.{◌≡◌};
ghost use Rattle.glyph_paths.specs.{Rows.outline_of, Bounds.{bounds_in, AreBounds, AreClose}};

use crate::rows::row_of;
use mus_units::Glyph;

/// The least and greatest abscissa and ordinate of a glyph's points, in u from the point at which it is drawn. All 0
/// for a glyph without a point.
#[derive(Clone, Copy, PartialEq, Eq)]
pub struct Bounds {
    pub left: i32,
    pub low: i32,
    pub right: i32,
    pub high: i32,
}

/// Returns the least and greatest abscissa and ordinate over all points of a glyph's outline, control points
/// included; all 0 without a point. Takes no memory.
pub fn bounds_of(g: Glyph) -> Bounds
    ensures value { result ≡ bounds_in g }
    ensures bounds { AreBounds (outline_of g) result }
    ensures close { AreClose result }
{
    row_of(g).bounds
}
