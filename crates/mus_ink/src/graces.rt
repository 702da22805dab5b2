ghost use Rattle.mus_score.specs.Limits.{head_limit};
ghost use Rattle.std.specs.Prelude.{◌≡◌, ◌≤◌, ◌++◌, length, map, OnOk};
ghost use Rattle.mus_stems.specs.Heads.{AllNear, stand_of};
ghost use Rattle.mus_ink.specs.Graces.{at_end, ends, grace_beam, grace_body, grace_head_ink, grace_marks};
ghost use Rattle.mus_ink.specs.Graces.{grace_own_end, grace_stem_from, greatest_end, group_of};
ghost use Rattle.mus_laid.specs.Ranked.{inked};

use crate::distances::{GRACE_SIGN_SIDE, GRACE_STEM_LENGTH, GRACE_STEM_SIDE};
use crate::drawing::{cut_dy, put_beam, put_glyph, put_stem};
use crate::notes::{head_dy, highest_dy, lowest_dy, put_ledgers, put_signs};
use mus_laid::{BEAM_THICKNESS, Bridge, MarkPen};
use mus_onsets::ColumnKey;
use mus_score::Event;
use mus_stems::{highest_head, ledgers_for, lowest_head, signs_for, stands};
use mus_units::{Clef, Glyph, Head, Memory, Row, Way};

/// What the graces before an event share: the dy at which their stems end, whether there is exactly one grace, and
/// whether the first has a slash.
#[derive(Clone, Copy, PartialEq, Eq)]
pub struct Group {
    pub end: i32,
    pub alone: bool,
    pub slash: bool,
}

/// Returns the dy at which the stem of a grace would end alone, by its highest head.
#[tactic(auto, unfolding(crate::specs::Graces::above_head))]
fn own_end(clef: Clef, heads: &[Head]) -> i32
    ensures { result ≡ grace_own_end clef heads.now }
{
    match heads {
        [] => 0,
        [head, more @ ..] => {
            let high = highest_dy(clef, head_dy(clef, *head), more);
            cut_dy(i64::from(high) + GRACE_STEM_LENGTH)
        }
    }
}

fn greatest_end(clef: Clef, first: i32, graces: &[Event]) -> i32
    ensures { result ≡ greatest_end clef first graces.now }
{
    let mut end = first;
    for grace in graces {
        end = end.max(own_end(clef, grace.heads.as_slice()));
    }
    end
}

/// Returns what the graces before an event share, in the event's clef.
#[tactic(auto, unfolding(crate::specs::Graces::group_of))]
pub fn group_of(clef: Clef, graces: &[Event], slash: bool) -> Group
    ensures { result ≡ group_of clef graces.now slash }
{
    let end = match graces {
        [] => 0,
        [grace, more @ ..] => greatest_end(clef, own_end(clef, grace.heads.as_slice()), more),
    };
    Group {
        end,
        alone: graces.len() == 1,
        slash,
    }
}

fn put_grace_heads(pen: &mut MarkPen, clef: Clef, heads: &[Head]) -> Result<(), Memory>
    ensures { OnOk result (pen.new ≡ inked pen.old (grace_head_ink clef heads.now)) }
{
    for head in heads {
        put_glyph(pen, Glyph::Gh, 0, head_dy(clef, *head))?;
    }
    Ok(())
}

/// Draws the accidentals, ledger lines and heads of a grace.
#[tactic(auto, unfolding(crate::specs::Graces::grace_body))]
fn put_grace_body(pen: &mut MarkPen, clef: Clef, heads: &[Head]) -> Result<(), Memory>
    requires near { AllNear (map (stand_of clef) heads.now) }
    requires few { length heads.now ≤ head_limit }
    ensures { OnOk result (pen.new ≡ inked pen.old (grace_body clef heads.now)) }
{
    let positions = stands(pen.alloc, clef, heads)?;
    let stands = positions.as_slice();
    let signs = signs_for(pen.alloc, -GRACE_SIGN_SIDE, stands)?;
    put_signs(pen, clef, heads, signs.as_slice())?;
    let ledgers = ledgers_for(pen.alloc, lowest_head(stands), highest_head(stands))?;
    put_ledgers(pen, ledgers.as_slice())?;
    put_grace_heads(pen, clef, heads)
}

/// Returns the dy at which the stem of a grace begins.
fn grace_stem_from(clef: Clef, heads: &[Head]) -> i32
    ensures { result ≡ grace_stem_from clef heads.now }
{
    match heads {
        [] => 0,
        [head, more @ ..] => lowest_dy(clef, head_dy(clef, *head), more),
    }
}

fn put_at_end(pen: &mut MarkPen, yes: bool, glyph: Glyph, end: i32) -> Result<(), Memory>
    ensures { OnOk result (pen.new ≡ inked pen.old (at_end yes glyph end)) }
{
    if yes {
        put_glyph(pen, glyph, GRACE_STEM_SIDE, end)?;
    }
    Ok(())
}

/// Draws the flag of a single grace, and the slash at the first.
fn put_ends(pen: &mut MarkPen, group: Group, first: bool) -> Result<(), Memory>
    ensures { OnOk result (pen.new ≡ inked pen.old (ends group first)) }
{
    put_at_end(pen, group.alone, Glyph::Gf, group.end)?;
    put_at_end(pen, first && group.slash, Glyph::Gs, group.end)
}

/// Draws a grace note or chord of a group: accidentals, ledger lines, heads, a stem, the flag of a single grace, and
/// the slash at the first.
#[tactic(auto, unfolding(crate::specs::Graces::grace_marks))]
pub fn put_grace(
    pen: &mut MarkPen,
    clef: Clef,
    group: Group,
    first: bool,
    grace: &Event,
) -> Result<(), Memory>
    requires near { AllNear (map (stand_of clef) grace.now.heads) }
    requires few { length grace.now.heads ≤ head_limit }
    ensures { OnOk result (pen.new ≡ inked pen.old (grace_marks clef group first grace.now)) }
{
    let heads = grace.heads.as_slice();
    let low = grace_stem_from(clef, heads);
    put_grace_body(pen, clef, heads)?;
    put_stem(pen, GRACE_STEM_SIDE, low, group.end)?;
    put_ends(pen, group, first)
}

/// Draws the beam of a group of two or more graces, from the column of the first to that of the last; draws nothing
/// for a single grace.
#[tactic(auto, unfolding(crate::specs::Graces::grace_beam, crate::specs::Graces::beam_edge))]
pub fn put_grace_beam(
    out: &mut Row<Bridge>,
    first: ColumnKey,
    last: ColumnKey,
    group: Group,
) -> Result<(), Memory>
    ensures { OnOk result (out.new ≡ out.old ++ grace_beam first last group) }
{
    if group.alone {
        return Ok(());
    }
    let edge = cut_dy(i64::from(group.end) - BEAM_THICKNESS);
    put_beam(out, Way::Grace, first, last, edge, edge)
}
