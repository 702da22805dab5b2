ghost use Rattle.std.specs.Prelude.{◌≡◌, ◌+◌, ◌*◌, ◌∷◌, pos, OnOk};
ghost use Rattle.mus_units.specs.declared.glyph.Glyph.TheVariants.{Dt};
ghost use Rattle.mus_ink.specs.Distances.{dot_side, dot_step, rest_dot_line};
ghost use Rattle.mus_ink.specs.Drawing.{glyph};
ghost use Rattle.mus_ink.specs.Rests.{raised, rest_dots, rest_glyphs, rest_marks, short_dy, short_rests};
ghost use Rattle.mus_laid.specs.Ranked.{inked};

use crate::distances::{DOT_SIDE, DOT_STEP, REST_DOT_LINE, REST_STEP};
use crate::drawing::{cut_dy, put_glyph, steps_dy};
use crate::kinds::rest_row;
use mus_laid::MarkPen;
use mus_score::Look;
use mus_units::{Base, Glyph, Memory, Value};

/// Returns the height of a rest that is raised.
#[tactic(auto, unfolding(crate::specs::Rests::raised))]
fn raised(raise: i32, dy: i32) -> i32
    ensures { result ≡ raised raise dy }
{
    cut_dy(i64::from(dy) + i64::from(raise))
}

/// Returns the dy of a part of a short rest by its number.
#[tactic(auto, unfolding(crate::specs::Rests::short_dy))]
fn short_dy(top: i32, k: u8) -> i32
    ensures { result ≡ short_dy top k }
{
    cut_dy(i64::from(top) - REST_STEP * i64::from(k))
}

/// Draws a rest shorter than a quarter, with a part for each flag.
#[tactic(auto, using(crate::proofs::Counting::rests_step, std::proofs::lemmas::Grind::common_steps))]
fn put_short_rests(pen: &mut MarkPen, sort: Glyph, top: i32, flags: u8) -> Result<(), Memory>
    ensures { OnOk result (pen.new ≡ inked pen.old (short_rests sort top 0 flags)) }
{
    for k in 0..flags {
        put_glyph(pen, sort, 0, short_dy(top, k))?;
    }
    Ok(())
}

/// Draws a rest without its dots.
fn put_rest_glyphs(pen: &mut MarkPen, raise: i32, base: Base, flags: u8) -> Result<(), Memory>
    ensures { OnOk result (pen.new ≡ inked pen.old (rest_glyphs raise base flags)) }
{
    let row = rest_row(base);
    let dy = raised(raise, steps_dy(row.line));
    match base {
        Base::Breve | Base::Whole | Base::Half | Base::Quarter => put_glyph(pen, row.glyph, 0, dy),
        _ => put_short_rests(pen, row.glyph, dy, flags),
    }
}

#[tactic(auto, using(crate::proofs::Counting::dots_step, std::proofs::lemmas::Grind::common_steps))]
fn put_rest_dots(pen: &mut MarkPen, raise: i32, dots: u8) -> Result<(), Memory>
    ensures { OnOk result (pen.new ≡ inked pen.old (rest_dots raise 0 dots)) }
{
    for k in 0..dots {
        let dx = DOT_SIDE + DOT_STEP * i32::from(k);
        put_glyph(pen, Glyph::Dt, dx, raised(raise, REST_DOT_LINE))?;
    }
    Ok(())
}

/// Draws a rest, `raise` higher than alone on its staff; a rest shorter than a quarter has `flags` parts.
pub fn put_rest(
    pen: &mut MarkPen,
    raise: i32,
    look: Look,
    value: Value,
    flags: u8,
) -> Result<(), Memory>
    ensures { OnOk result (pen.new ≡ inked pen.old (rest_marks raise look value.base value.dots flags)) }
{
    match look {
        Look::Unseen => put_glyph(pen, Glyph::Nn, 0, raised(raise, 0)),
        Look::Whole => put_rest_glyphs(pen, raise, Base::Whole, 0),
        Look::Seen => {
            put_rest_glyphs(pen, raise, value.base, flags)?;
            put_rest_dots(pen, raise, value.dots)
        }
    }
}
