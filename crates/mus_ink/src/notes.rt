ghost use Rattle.std.specs.{Prelude.{◌≡◌, ◌∷◌, [], OnOk}, List.list_all, Option.is_none};
ghost use Rattle.mus_ink.specs.Notes.{dy_of, highest_dy, lowest_dy, sign_mark, sign_marks, ledger_marks, note_heads};
ghost use Rattle.mus_ink.specs.Notes.{dot_marks, heads_marks};
ghost use Rattle.mus_laid.specs.Ranked.{inked};

use crate::drawing::{cut_dy, put_glyph, steps_dy};
use crate::kinds::{head_glyph, sign_glyph};
use mus_laid::MarkPen;
use mus_stems::{Spot, StemPlan};
use mus_units::{Base, Clef, Glyph, Head, Memory, height};

/// Returns the dy of a head, clamped to ±2^30.
pub fn head_dy(clef: Clef, head: Head) -> i32
    ensures { result ≡ dy_of clef head }
{
    steps_dy(cut_dy(height(head.pitch, clef)))
}

/// Returns the greatest of a dy and those of heads.
pub fn highest_dy(clef: Clef, first: i32, heads: &[Head]) -> i32
    ensures { result ≡ highest_dy clef first heads.now }
{
    let mut high = first;
    for head in heads {
        high = high.max(head_dy(clef, *head));
    }
    high
}

/// Returns the least of a dy and those of heads.
pub fn lowest_dy(clef: Clef, first: i32, heads: &[Head]) -> i32
    ensures { result ≡ lowest_dy clef first heads.now }
{
    let mut low = first;
    for head in heads {
        low = low.min(head_dy(clef, *head));
    }
    low
}

/// Draws the accidental before a head, if there is one.
fn put_sign_of(pen: &mut MarkPen, clef: Clef, head: Head, dx: Option<i32>) -> Result<(), Memory>
    ensures { OnOk result (pen.new ≡ inked pen.old (sign_mark (dy_of clef head) head.sign dx)) }
{
    match (head.sign, dx) {
        (Some(alter), Some(dx)) => put_glyph(pen, sign_glyph(alter), dx, head_dy(clef, head)),
        _ => Ok(()),
    }
}

/// Draws the accidentals before heads, in the order of the heads; `places` has the dx of each.
pub fn put_signs(
    pen: &mut MarkPen,
    clef: Clef,
    heads: &[Head],
    places: &[Option<i32>],
) -> Result<(), Memory>
    ensures { OnOk result (pen.new ≡ inked pen.old (sign_marks clef heads.now places.now)) }
{
    let (mut rest, mut places) = (heads, places);
    while let Some((head, more)) = rest.split_first() {
        let Some((dx, others)) = places.split_first() else {
            return Ok(());
        };
        put_sign_of(pen, clef, *head, *dx)?;
        rest = more;
        places = others;
    }
    Ok(())
}

fn have_no_sign(heads: &[Head]) -> bool
    ensures { result ≡ list_all (λ h. is_none h.sign) heads.now }
{
    heads.iter().all(|head| head.sign.is_none())
}

/// Draws the accidentals before heads. Usually there are none, so this is checked first.
fn put_signs_if(
    pen: &mut MarkPen,
    clef: Clef,
    heads: &[Head],
    places: &[Option<i32>],
) -> Result<(), Memory>
    ensures { OnOk result (pen.new ≡ inked pen.old (sign_marks clef heads.now places.now)) }
{
    if have_no_sign(heads) {
        return Ok(());
    }
    put_signs(pen, clef, heads, places)
}

/// Draws ledger lines.
pub fn put_ledgers(pen: &mut MarkPen, ledgers: &[i32]) -> Result<(), Memory>
    ensures { OnOk result (pen.new ≡ inked pen.old (ledger_marks ledgers.now)) }
{
    for dy in ledgers {
        put_glyph(pen, Glyph::Lg, 0, *dy)?;
    }
    Ok(())
}

/// Draws heads, each with its shift.
fn put_heads(
    pen: &mut MarkPen,
    clef: Clef,
    sort: Glyph,
    heads: &[Head],
    shifts: &[i32],
) -> Result<(), Memory>
    ensures { OnOk result (pen.new ≡ inked pen.old (note_heads clef sort heads.now shifts.now)) }
{
    let (mut rest, mut shifts) = (heads, shifts);
    while let Some((head, more)) = rest.split_first() {
        let Some((dx, others)) = shifts.split_first() else {
            return Ok(());
        };
        put_glyph(pen, sort, *dx, head_dy(clef, *head))?;
        rest = more;
        shifts = others;
    }
    Ok(())
}

fn put_dots(pen: &mut MarkPen, dots: &[Spot]) -> Result<(), Memory>
    ensures { OnOk result (pen.new ≡ inked pen.old (dot_marks dots.now)) }
{
    for dot in dots {
        put_glyph(pen, Glyph::Dt, dot.dx, dot.dy)?;
    }
    Ok(())
}

/// Draws the heads of an event: accidentals, ledger lines, heads and dots.
#[tactic(auto, unfolding(crate::specs::Notes::heads_marks))]
pub fn put_heads_of(
    pen: &mut MarkPen,
    clef: Clef,
    base: Base,
    heads: &[Head],
    plan: &StemPlan,
) -> Result<(), Memory>
    ensures { OnOk result (pen.new ≡ inked pen.old (heads_marks clef base heads.now plan.now)) }
{
    put_signs_if(pen, clef, heads, plan.signs.as_slice())?;
    put_ledgers(pen, plan.ledgers.as_slice())?;
    put_heads(pen, clef, head_glyph(base), heads, plan.shifts.as_slice())?;
    put_dots(pen, plan.dots.as_slice())
}
