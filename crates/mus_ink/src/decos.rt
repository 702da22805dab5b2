ghost use Rattle.std.specs.Prelude.{◌≡◌, OnOk};
ghost use Rattle.mus_ink.specs.Decos.{deco_marks, first_deco, next_deco, note_marks, top_of};
ghost use Rattle.{mus_stems.specs.Slope.{with_end}, mus_laid.specs.Ranked.{inked}};

use crate::distances::{DECO_GAP, DECO_LINE, DECO_STEP};
use crate::drawing::{cut_dy, put_glyph};
use crate::kinds::deco_glyph;
use crate::notes::{head_dy, highest_dy, put_heads_of};
use crate::rests::put_rest;
use crate::stems::{StemEnd, put_stem_of};
use mus_laid::{MarkPen, TOP_LINE};
use mus_score::Event;
use mus_stems::StemPlan;
use mus_units::{Clef, Deco, Head, Memory};

/// Returns the top of an event whose stem ends at `to`: the greater of its highest head's dy and, if it has a stem,
/// that end; the top line for a rest.
pub fn top_of(clef: Clef, heads: &[Head], plan: &StemPlan, to: i32) -> i32
    ensures { result ≡ top_of clef heads.now (with_end plan.now to) }
{
    match heads {
        [] => TOP_LINE,
        [head, more @ ..] => {
            let high = highest_dy(clef, head_dy(clef, *head), more);
            if plan.has { high.max(to) } else { high }
        }
    }
}

/// Returns the dy of the first decoration of an event.
#[tactic(auto, unfolding(crate::specs::Decos::first_deco))]
fn first_deco(top: i32) -> i32
    ensures { result ≡ first_deco top }
{
    let above = i64::from(top) + DECO_GAP;
    cut_dy(above.max(DECO_LINE))
}

/// Draws the decorations that have a glyph: the first at `first`, each next one higher.
#[tactic(auto, unfolding(crate::specs::Decos::next_deco))]
fn put_decos(pen: &mut MarkPen, first: i32, decos: &[Deco]) -> Result<(), Memory>
    ensures { OnOk result (pen.new ≡ inked pen.old (deco_marks first decos.now)) }
{
    let mut dy = first;
    for deco in decos {
        if let Some(glyph) = deco_glyph(deco) {
            put_glyph(pen, glyph, 0, dy)?;
            dy = cut_dy(i64::from(dy) + DECO_STEP);
        }
    }
    Ok(())
}

/// Draws an event in `clef`: accidentals, ledger lines, heads, dots, a stem, flags or stubs, and the decorations that
/// have a glyph; or a rest, `raise` higher than alone on its staff. Its syllables and texts are drawn later.
#[tactic(auto, unfolding(crate::specs::Decos::note_marks, crate::specs::Notes::heads_marks))]
pub fn put_note(
    pen: &mut MarkPen,
    clef: Clef,
    raise: i32,
    event: &Event,
    plan: &StemPlan,
    end: StemEnd,
) -> Result<(), Memory>
    ensures { OnOk result
        (pen.new ≡ inked pen.old (note_marks clef raise event.now (with_end plan.now end.to) end.before end.after)) }
{
    let heads = event.heads.as_slice();
    match heads {
        [] => put_rest(pen, raise, event.look, event.value, plan.flags)?,
        heads => {
            put_heads_of(pen, clef, event.value.base, heads, plan)?;
            put_stem_of(pen, plan, end)?;
        }
    }
    match event.decos.as_slice() {
        [] => Ok(()),
        decos => {
            let top = top_of(clef, heads, plan, end.to);
            put_decos(pen, first_deco(top), decos)
        }
    }
}
