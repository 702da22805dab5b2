ghost use Rattle.std.specs.Prelude.{◌≡◌, ◌-◌, ◌∷◌, [], OnOk};
ghost use Rattle.mus_ink.specs.Stems.{flag_dy, flag_marks, lower_edge, stem_dx, stem_marks, stub_marks};
ghost use Rattle.mus_stems.specs.Slope.{with_end};
ghost use Rattle.mus_laid.specs.Ranked.{inked};

use crate::distances::{LEVEL_STEP, STEM_SIDE};
use crate::drawing::{cut_dy, put_glyph, put_loose_glyph, put_stem};
use mus_laid::{BEAM_THICKNESS, MarkPen};
use mus_stems::StemPlan;
use mus_units::{Glyph, Memory};

/// Returns the dx of a stem: right of the heads if it goes up, left if it goes down.
fn stem_dx(up: bool) -> i32
    ensures { result ≡ stem_dx up }
{
    if up { STEM_SIDE } else { -STEM_SIDE }
}

/// Returns the dy of a flag by its number.
fn flag_dy(up: bool, to: i32, k: u8) -> i32
    ensures { result ≡ flag_dy up to k }
{
    let step = LEVEL_STEP * i64::from(k);
    if up {
        cut_dy(i64::from(to) - step)
    } else {
        cut_dy(i64::from(to) + step)
    }
}

/// Draws the flags of an event without a beam, from the end of its stem towards its heads.
#[tactic(auto, using(crate::proofs::Counting::flags_step, std::proofs::lemmas::Grind::common_steps))]
fn put_flags(pen: &mut MarkPen, up: bool, to: i32, flags: u8) -> Result<(), Memory>
    ensures { OnOk result (pen.new ≡ inked pen.old (flag_marks up to 0 flags)) }
{
    for k in 0..flags {
        let glyph = if up { Glyph::Fu } else { Glyph::Fd };
        put_glyph(pen, glyph, stem_dx(up), flag_dy(up, to, k))?;
    }
    Ok(())
}

/// Returns the lower edge of a beam over an event at a level, from 0, if the event's stem ends at `to`.
pub fn lower_edge(up: bool, to: i32, level: u8) -> i32
    ensures { result ≡ lower_edge up to level }
{
    let step = LEVEL_STEP * i64::from(level);
    if up {
        cut_dy(i64::from(to) - (step + BEAM_THICKNESS))
    } else {
        cut_dy(i64::from(to) + step)
    }
}

/// Draws the stubs of an event in a beam, from a level on: to the right at the first event of the beam, to the left at
/// others.
#[tactic(auto, using(crate::proofs::Counting::stubs_step, std::proofs::lemmas::Grind::common_steps))]
fn put_stubs(
    pen: &mut MarkPen,
    first: bool,
    up: bool,
    to: i32,
    level: u8,
    flags: u8,
) -> Result<(), Memory>
    ensures { OnOk result (pen.new ≡ inked pen.old (stub_marks first up to level (flags - level))) }
{
    for k in level..flags {
        let glyph = if first { Glyph::Sr } else { Glyph::Sl };
        put_loose_glyph(pen, glyph, stem_dx(up), lower_edge(up, to, k))?;
    }
    Ok(())
}

/// Where the stem of an event ends, and the levels of the events before and after it in its beam, 0 if there is none.
#[derive(Clone, Copy, PartialEq, Eq)]
pub struct StemEnd {
    pub to: i32,
    pub before: u8,
    pub after: u8,
}

/// Draws the stem of an event, which ends there, and its flags or its stubs.
#[tactic(auto, unfolding(crate::specs::Stems::stem_marks, crate::specs::Stems::flags_or_stubs))]
pub fn put_stem_of(pen: &mut MarkPen, plan: &StemPlan, end: StemEnd) -> Result<(), Memory>
    ensures { OnOk result (pen.new ≡ inked pen.old (stem_marks (with_end plan.now end.to) end.before end.after)) }
{
    let StemEnd { to, before, after } = end;
    if plan.has {
        put_stem(pen, stem_dx(plan.up), plan.from, to)?;
    }
    if before == 0 && after == 0 {
        put_flags(pen, plan.up, to, plan.flags)
    } else {
        let level = before.max(after);
        put_stubs(pen, before == 0, plan.up, to, level, plan.flags)
    }
}
