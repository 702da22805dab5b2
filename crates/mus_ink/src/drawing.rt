ghost use Rattle.std.specs.Prelude.{◌≡◌, ◌++◌, ◌∷◌, [], OnOk};
ghost use Rattle.mus_ink.specs.Drawing.{cut_dy, steps_dy, glyph, loose_glyph, big_text, stem, beam};
ghost use Rattle.mus_laid.specs.Ranked.{inked};

use crate::distances::FURTHEST;
use mus_laid::{Bridge, BridgeShape, Ink, Lane, LaneInk, MarkPen};
use mus_onsets::ColumnKey;
use mus_units::distances::STEP;
use mus_units::{Glyph, Memory, Row, Size, Text, Way};

/// Returns a height clamped to ±2^30 u.
#[tactic(auto, unfolding(crate::specs::Drawing::cut_dy))]
pub fn cut_dy(dy: i64) -> i32
    ensures { result ≡ cut_dy dy }
{
    dy.min(FURTHEST).max(-FURTHEST) as i32
}

/// Returns the dy of a height in steps.
#[tactic(auto, unfolding(crate::specs::Drawing::steps_dy))]
pub fn steps_dy(steps: i32) -> i32
    ensures { result ≡ steps_dy steps }
{
    cut_dy(i64::from(STEP) * i64::from(steps))
}

/// Draws a glyph in the lane of glyphs.
pub fn put_glyph(pen: &mut MarkPen, sort: Glyph, dx: i32, dy: i32) -> Result<(), Memory>
    ensures { OnOk result (pen.new ≡ inked pen.old (glyph sort dx dy ∷ [])) }
{
    let ink = Ink::Glyph {
        glyph: sort,
        dx,
        dy,
    };
    let lane = Lane::Main;
    pen.put(LaneInk { ink, lane })
}

/// Draws a glyph in no lane.
pub fn put_loose_glyph(pen: &mut MarkPen, sort: Glyph, dx: i32, dy: i32) -> Result<(), Memory>
    ensures { OnOk result (pen.new ≡ inked pen.old (loose_glyph sort dx dy ∷ [])) }
{
    let ink = Ink::Glyph {
        glyph: sort,
        dx,
        dy,
    };
    let lane = Lane::Loose;
    pen.put(LaneInk { ink, lane })
}

/// Draws a text of big characters, as used for meters.
pub fn put_big_text(pen: &mut MarkPen, dx: i32, dy: i32, text: Text) -> Result<(), Memory>
    ensures { OnOk result (pen.new ≡ inked pen.old (big_text dx dy text ∷ [])) }
{
    let ink = Ink::Words {
        size: Size::Big,
        dx,
        dy,
        text,
    };
    let lane = Lane::Main;
    pen.put(LaneInk { ink, lane })
}

/// Draws a stem.
pub fn put_stem(pen: &mut MarkPen, dx: i32, from: i32, to: i32) -> Result<(), Memory>
    ensures { OnOk result (pen.new ≡ inked pen.old (stem dx from to ∷ [])) }
{
    let ink = Ink::Stem { dx, from, to };
    let lane = Lane::Loose;
    pen.put(LaneInk { ink, lane })
}

/// Draws a beam.
pub fn put_beam(
    out: &mut Row<Bridge>,
    way: Way,
    first: ColumnKey,
    last: ColumnKey,
    from: i32,
    to: i32,
) -> Result<(), Memory>
    ensures { OnOk result (out.new ≡ out.old ++ beam way first last from to ∷ []) }
{
    out.push(Bridge {
        first,
        last,
        span: BridgeShape::Beam { way, from, to },
    })
}
