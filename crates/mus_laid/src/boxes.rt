ghost use Rattle.std.specs.{Prelude.◌≡◌, Prelude.pos, Prelude.◌+ℤ◌, Prelude.◌≤◌, Prelude.length};
ghost use Rattle.std.specs.Int.{int_min, int_max};
ghost use Rattle.mus_laid.specs.Distances.{big_width, top_line};
ghost use Rattle.mus_laid.specs.Boxes.{IsGoodMark, character_width, text_low, text_high, glyph_heights, text_heights};
ghost use Rattle.mus_laid.specs.Boxes.{stem_heights, beam_heights, over_four, arc_heights, heights_of, glyph_sides};
ghost use Rattle.mus_laid.specs.Boxes.{text_sides, sides_of, union_of_heights, heights, over_marks};
ghost use Rattle.mus_laid.specs.Boxes.{staff_heights};

use crate::distances::{
    BEAM_THICKNESS, BIG_ABOVE, BIG_BELOW, BIG_WIDTH, SMALL_ABOVE, SMALL_BELOW, SMALL_WIDTH,
    TOP_LINE,
};
use crate::laid::{Laid, Mark};
use glyph_paths::bounds_of;
use mus_units::{Glyph, Size};

/// The range from the least to the greatest height, in u above the staff's bottom line.
#[derive(Clone, Copy, PartialEq, Eq)]
pub struct HeightRange {
    pub low: i64,
    pub high: i64,
}

/// How far a mark reaches from its column, in u; distances to the left are negative.
#[derive(Clone, Copy, PartialEq, Eq)]
pub struct Sides {
    pub left: i64,
    pub right: i64,
}

fn sum(a: i32, b: i32) -> i64
    ensures { result ≡ a +ℤ b }
{
    i64::from(a) + i64::from(b)
}

#[tactic(auto, unfolding(crate::specs::Boxes::glyph_heights))]
fn glyph_heights(glyph: Glyph, dy: i32) -> HeightRange
    ensures { result ≡ glyph_heights glyph dy }
{
    let bounds = bounds_of(glyph);
    HeightRange {
        low: sum(dy, bounds.low),
        high: sum(dy, bounds.high),
    }
}

#[tactic(auto, unfolding(crate::specs::Boxes::text_heights))]
fn text_heights(size: Size, dy: i32) -> HeightRange
    ensures { result ≡ text_heights size dy }
{
    let dy = i64::from(dy);
    match size {
        Size::Small => HeightRange {
            low: dy - SMALL_BELOW,
            high: dy + SMALL_ABOVE,
        },
        Size::Big => HeightRange {
            low: dy - BIG_BELOW,
            high: dy + BIG_ABOVE,
        },
    }
}

fn least(a: i64, b: i64) -> i64
    ensures { result ≡ int_min a b }
{
    a.min(b)
}

fn greatest(a: i64, b: i64) -> i64
    ensures { result ≡ int_max a b }
{
    a.max(b)
}

#[tactic(auto, unfolding(crate::specs::Boxes::stem_heights))]
fn stem_heights(from: i32, to: i32) -> HeightRange
    ensures { result ≡ stem_heights from to }
{
    let (from, to) = (i64::from(from), i64::from(to));
    HeightRange {
        low: least(from, to),
        high: greatest(from, to),
    }
}

#[tactic(auto, unfolding(crate::specs::Boxes::beam_heights))]
fn beam_heights(from: i32, to: i32) -> HeightRange
    ensures { result ≡ beam_heights from to }
{
    let (from, to) = (i64::from(from), i64::from(to));
    HeightRange {
        low: least(from, to),
        high: greatest(from, to) + BEAM_THICKNESS,
    }
}

#[tactic(auto, unfolding(crate::specs::Boxes::arc_heights))]
fn arc_heights(from: i32, to: i32, bulge: i32) -> HeightRange
    ensures { result ≡ arc_heights from to bulge }
{
    over_four(
        i64::from(from),
        i64::from(to),
        sum(from, bulge),
        sum(to, bulge),
    )
}

fn over_four(a: i64, b: i64, c: i64, d: i64) -> HeightRange
    ensures { result ≡ over_four a b c d }
{
    let (low, other_low) = (least(a, b), least(c, d));
    let (high, other_high) = (greatest(a, b), greatest(c, d));
    HeightRange {
        low: least(low, other_low),
        high: greatest(high, other_high),
    }
}

/// Returns the heights that a mark covers: the points of a glyph, the line of a text, the ends of a stem, the edges
/// of a beam, the ends of an arc and how far it bulges.
pub fn heights_of(mark: &Mark) -> HeightRange
    ensures { result ≡ heights_of mark.now }
{
    match mark {
        Mark::Glyph { glyph, dy, .. } => glyph_heights(*glyph, *dy),
        Mark::Words { size, dy, .. } => text_heights(*size, *dy),
        Mark::Stem { from, to, .. } => stem_heights(*from, *to),
        Mark::Beam { from, to, .. } => beam_heights(*from, *to),
        Mark::Arc {
            from,
            to,
            bulge,
            ..
        } => arc_heights(*from, *to, *bulge),
    }
}

#[tactic(auto, unfolding(crate::specs::Boxes::glyph_sides))]
fn glyph_sides(glyph: Glyph, dx: i32) -> Sides
    ensures { result ≡ glyph_sides glyph dx }
{
    let bounds = bounds_of(glyph);
    Sides {
        left: sum(dx, bounds.left),
        right: sum(dx, bounds.right),
    }
}

/// Returns the width of a character of text, in u.
pub fn character_width(size: Size) -> u32
    ensures value { result ≡ character_width size }
    ensures most { result ≤ big_width }
{
    match size {
        Size::Small => SMALL_WIDTH,
        Size::Big => BIG_WIDTH,
    }
}

#[tactic(auto, unfolding(crate::specs::Boxes::text_sides))]
fn text_sides(size: Size, dx: i32, count: usize) -> Sides
    requires { count ≤ 60 }
    ensures { result ≡ text_sides size dx count }
{
    let width = character_width(size) * count as u32;
    Sides {
        left: i64::from(dx),
        right: i64::from(dx) + i64::from(width),
    }
}

/// Returns how far a glyph or a text reaches from its column. `None` for stems, beams and arcs, which no lane keeps
/// apart.
pub fn sides_of(mark: &Mark) -> Option<Sides>
    requires { IsGoodMark mark.now }
    ensures { result ≡ sides_of mark.now }
{
    match mark {
        Mark::Glyph { glyph, dx, .. } => Some(glyph_sides(*glyph, *dx)),
        Mark::Words { size, dx, text, .. } => Some(text_sides(*size, *dx, text.len())),
        _ => None,
    }
}

fn widened(a: HeightRange, b: HeightRange) -> HeightRange
    ensures { result ≡ union_of_heights a b }
{
    HeightRange {
        low: least(a.low, b.low),
        high: greatest(a.high, b.high),
    }
}

/// Returns the heights of the lines of a staff.
pub fn lines_heights() -> HeightRange
    ensures { result ≡ heights (pos 0) (pos top_line) }
{
    HeightRange {
        low: 0,
        high: i64::from(TOP_LINE),
    }
}

/// Returns a range of heights, widened to the boxes of all marks.
pub fn heights_over(range: HeightRange, marks: &[Laid]) -> HeightRange
    ensures { result ≡ over_marks range marks.now }
{
    let mut range = range;
    for laid in marks {
        range = widened(range, heights_of(&laid.mark));
    }
    range
}

/// Returns the least and the greatest height of the boxes of all marks, covering at least the lines of the staff.
pub fn staff_heights(marks: &[Laid]) -> HeightRange
    ensures { result ≡ staff_heights marks.now }
{
    heights_over(lines_heights(), marks)
}
