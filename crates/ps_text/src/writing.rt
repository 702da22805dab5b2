ghost use Rattle.std.specs.Prelude.{◌≡◌, ◌++◌, ◌↔◌, ◌≤ℤ◌, ◌+ℤ◌, ◌-ℤ◌, pos, IfOk, OnOk, IsTrue, MatchOption};
ghost use Rattle.std.specs.Prelude.{codes, length};
ghost use Rattle.ps_text.specs.Line.{mark_line, points, ends_of, quarter};
ghost use Rattle.ps_text.specs.Names.{way_name};
ghost use Rattle.ps_text.specs.Range.{IsPageMark, IsSpan, IsStretch};

use crate::fields::{LineEnd, put_line, put_words};
use crate::marks::PageMark;
use crate::names::{size_name_of, way_name_of};
use crate::range::{is_placed, is_span, is_stem, is_words_mark, moved};
use glyph_paths::name_of;
use mus_units::distances::BEAM_THICKNESS;
use mus_units::{Memory, Text, Way};
use std::alloc::Global;

/// The points at the two ends of a beam or an arc, and those above them.
#[derive(Clone, Copy, PartialEq, Eq)]
pub struct Ends {
    pub x1: i64,
    pub x2: i64,
    pub left: i64,
    pub left_above: i64,
    pub right: i64,
    pub right_above: i64,
}

#[tactic(auto, using(crate::proofs::Signs::as_passed), unfolding(crate::specs::Line::ends_of))]
fn ends_of(y: i64, x1: i64, x2: i64, from: i64, to: i64, rise: i64) -> Ends
    requires { IsSpan y x1 x2 from to rise }
    ensures { result ≡ ends_of y x1 x2 from to rise }
{
    let left = moved(y, from);
    let right = moved(y, to);
    Ends {
        x1,
        x2,
        left,
        left_above: moved(left, rise),
        right,
        right_above: moved(right, rise),
    }
}

/// Adds the four points of a beam or an arc: the one above the left end, at `p`, the one above the
/// right end, at `q`, the right end and the left one; and a name of two letters.
#[tactic(auto, using(crate::proofs::Signs::as_passed), unfolding(crate::specs::Line::points))]
fn put_points(out: &mut Text, p: i64, q: i64, e: &Ends, name: &[u8]) -> Result<(), Memory>
    requires { length name.now ≡ 2 }
    ensures { OnOk result (out.new ≡ out.old ++ points p q e.now ++ name.now) }
{
    put_line(
        out,
        &[
            p,
            e.left_above,
            q,
            e.right_above,
            e.x2,
            e.right,
            e.x1,
            e.left,
        ],
        name,
    )
}

/// Adds the line of a beam: its corners are its ends and the points right above them.
#[tactic(auto, using(crate::proofs::Signs::as_passed))]
fn put_beam(out: &mut Text, way: Way, e: &Ends) -> Result<(), Memory>
    ensures { OnOk result (out.new ≡ out.old ++ points e.now.x1 e.now.x2 e.now ++ way_name way) }
{
    put_points(out, e.x1, e.x2, e, way_name_of(way))
}

/// Returns the abscissa a quarter of the way from one to another.
fn quarter(x1: i64, x2: i64) -> i64
    requires { IsStretch x1 x2 }
    ensures value { result ≡ quarter x1 x2 }
    ensures low { pos 0 ≤ℤ result }
    ensures high { result ≤ℤ pos 2199023255552 }
{
    (x2 - x1) / 4
}

fn after_start(x1: i64, x2: i64) -> i64
    requires { IsStretch x1 x2 }
    ensures { result ≡ x1 +ℤ quarter x1 x2 }
{
    x1 + quarter(x1, x2)
}

fn before_end(x1: i64, x2: i64) -> i64
    requires { IsStretch x1 x2 }
    ensures { result ≡ x2 -ℤ quarter x1 x2 }
{
    x2 - quarter(x1, x2)
}

/// Adds the line of an arc: its inner points are a quarter of the way from its ends.
#[tactic(auto, using(crate::proofs::Signs::as_passed))]
fn put_arc(out: &mut Text, e: &Ends) -> Result<(), Memory>
    requires { IsStretch e.now.x1 e.now.x2 }
    ensures { OnOk result (out.new ≡ out.old
        ++ points (e.now.x1 +ℤ quarter e.now.x1 e.now.x2) (e.now.x2 -ℤ quarter e.now.x1 e.now.x2) e.now
        ++ codes "ac") }
{
    let p = after_start(e.x1, e.x2);
    let q = before_end(e.x1, e.x2);
    put_points(out, p, q, e, b"ac")
}

/// Adds the line of a mark on a staff, without the LF that ends it.
#[tactic(auto, using(crate::proofs::Signs::as_passed, crate::proofs::Letters::letters_of_glyph), //
unfolding(crate::specs::Line::glyph_line, crate::specs::Line::words_line, crate::specs::Line::stem_line, //
crate::specs::Line::ends_of))]
pub fn put_op(out: &mut Text, end: &LineEnd, m: &PageMark) -> Result<(), Memory>
    requires { IsPageMark end.now.y m.now }
    ensures { OnOk result (out.new ≡ out.old ++ mark_line end.now.y m.now) }
{
    match m {
        PageMark::Glyph { glyph, x, dx, dy } => {
            end.put(out, &[i64::from(*dx), i64::from(*dy), *x], name_of(*glyph))
        }
        PageMark::Words {
            size,
            x,
            dx,
            dy,
            text,
        } => {
            put_words(out, text.as_slice())?;
            end.put(
                out,
                &[i64::from(*dx), i64::from(*dy), *x],
                size_name_of(*size),
            )
        }
        PageMark::Stem { x, dx, from, to } => {
            let dx = i64::from(*dx);
            end.put(out, &[dx, i64::from(*to), dx, i64::from(*from), *x], b"st")
        }
        PageMark::Beam {
            way,
            x1,
            x2,
            from,
            to,
        } => {
            let from = i64::from(*from);
            let ends = ends_of(end.y, *x1, *x2, from, i64::from(*to), BEAM_THICKNESS);
            put_beam(out, *way, &ends)
        }
        PageMark::Arc {
            x1,
            x2,
            from,
            to,
            bulge,
        } => {
            let from = i64::from(*from);
            let ends = ends_of(end.y, *x1, *x2, from, i64::from(*to), i64::from(*bulge));
            put_arc(out, &ends)
        }
    }
}

/// Returns whether a mark may be on a staff at `y`.
#[tactic(auto, using(crate::proofs::Signs::as_passed))]
pub fn is_page_mark(y: i64, m: &PageMark) -> bool
    ensures { IsTrue result ↔ IsPageMark y m.now }
{
    match m {
        PageMark::Glyph { x, dx, dy, .. } => is_placed(y, *x, i64::from(*dx), i64::from(*dy)),
        PageMark::Words {
            x,
            dx,
            dy,
            text,
            ..
        } => is_words_mark(y, *x, i64::from(*dx), i64::from(*dy), text.as_slice()),
        PageMark::Stem { x, dx, from, to } => is_stem(
            y,
            *x,
            i64::from(*dx),
            i64::from(*from),
            i64::from(*to),
        ),
        PageMark::Beam {
            x1,
            x2,
            from,
            to,
            ..
        } => is_span(
            y,
            *x1,
            *x2,
            i64::from(*from),
            i64::from(*to),
            BEAM_THICKNESS,
        ),
        PageMark::Arc {
            x1,
            x2,
            from,
            to,
            bulge,
        } => is_span(
            y,
            *x1,
            *x2,
            i64::from(*from),
            i64::from(*to),
            i64::from(*bulge),
        ),
    }
}

/// Returns the line of a mark on a staff at `y`, without the LF that ends it, or `None` exactly
/// when the mark may not be on that staff.
pub fn write_op(alloc: Global, m: &PageMark, y: i64) -> Result<Option<Text>, Memory>
    ensures { IfOk result
        (λ op. MatchOption op (¬ IsPageMark y m.now) (λ line. IsPageMark y m.now × (line ≡ mark_line y m.now))) }
{
    if !is_page_mark(y, m) {
        return Ok(None);
    }
    let mut text = Text::new(alloc);
    put_op(&mut text, &LineEnd::new(y), m)?;
    Ok(Some(text))
}
