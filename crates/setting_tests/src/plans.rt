//! How events are drawn, apart from their heads.

ghost use Rattle.std.specs.Prelude.{◌≡◌, IsTrue, All, length, map};
ghost use Rattle.mus_score.specs.Good.{IsGoodBody};
ghost use Rattle.mus_score.specs.GoodScore.{IsGoodScore, IsGoodVoice};
ghost use Rattle.mus_stems.specs.Heads.{AllNear, IsNearStaff, stand_of};
ghost use Rattle.mus_stems.specs.Stills.{AllCanStand, CanDrawEvent, clefs_from};

use case_texts::{CaseError, Report};
use mus_score::{Flat, Measure, Score, Voice, flatten};
use mus_stems::{Spot, StemPlan, stems};
use mus_units::{Clef, Head, Wish, height};

fn put_sign_places(out: &mut Report, signs: &[Option<i32>]) -> Result<(), CaseError> {
    out.next(b"signs")?;
    for sign in signs {
        match sign {
            Some(dx) => out.tell(dx)?,
            None => out.next(b"-")?,
        }
    }
    Ok(())
}

fn put_spots(out: &mut Report, spots: &[Spot]) -> Result<(), CaseError> {
    out.next(b"dots")?;
    for spot in spots {
        out.tell_all(&[spot.dx, spot.dy])?;
    }
    Ok(())
}

fn put_stem(out: &mut Report, plan: &StemPlan) -> Result<(), CaseError> {
    out.tell(if plan.up { "up" } else { "down" })?;
    out.tell(if plan.has { "stem" } else { "none" })?;
    out.tell_all(&[plan.from, plan.to, plan.own])?;
    out.next_number(b"group ", plan.group)?;
    out.next_number(b"flags ", plan.flags)
}

/// Adds a line for each plan: the direction of its stem, whether it has one, where the stem begins and ends and where
/// it would end by itself, its group and its flags; then the places of its heads, signs, ledger lines and dots.
pub(crate) fn put_plans(out: &mut Report, plans: &[StemPlan]) -> Result<(), CaseError> {
    for plan in plans {
        put_stem(out, plan)?;
        out.next(b"shifts")?;
        out.tell_all(plan.shifts.as_slice())?;
        put_sign_places(out, plan.signs.as_slice())?;
        out.next(b"ledgers")?;
        out.tell_all(plan.ledgers.as_slice())?;
        put_spots(out, plan.dots.as_slice())?;
        out.end_line()?;
    }
    Ok(())
}

#[tactic(auto, unfolding(mus_stems::specs::Heads::stand_of))]
fn is_near(head: &Head, clef: Clef) -> bool
    ensures { IsTrue result → IsNearStaff (stand_of clef head.now) }
{
    let at = height(head.pitch, clef);
    -14 <= at && at <= 22
}

fn are_near(heads: &[Head], clef: Clef) -> bool
    ensures { IsTrue result → AllNear (map (stand_of clef) heads.now) }
{
    for head in heads {
        if !is_near(head, clef) {
            return false;
        }
    }
    true
}

fn can_stand(flat: &Flat<'_>, clef: Clef) -> bool
    ensures { IsTrue result → CanDrawEvent flat.now clef }
{
    let heads = flat.event().heads.as_slice();
    heads.len() <= 50000 && flat.event().value.dots <= 3 && are_near(heads, clef)
}

/// Returns whether each event can be drawn in its clef, if `first` is in force before them.
pub(crate) fn can_all_stand(events: &[Flat<'_>], first: Clef) -> bool
    ensures { IsTrue result → AllCanStand events.now (clefs_from first events.now) }
{
    let mut clef = first;
    for flat in events {
        clef = flat.event().changes.clef.unwrap_or(clef);
        if !can_stand(flat, clef) {
            return false;
        }
    }
    true
}

/// Adds the plans of a measure that begins in a clef.
fn put_measure_plans(
    out: &mut Report,
    measure: &Measure,
    clef: Clef,
    wish: Wish,
) -> Result<(), CaseError>
    requires { IsGoodBody measure.now.body }
{
    let alloc = out.alloc;
    let events = flatten(alloc, measure.body.as_slice())?;
    if !can_all_stand(events.as_slice(), clef) {
        return out.next(b"another clef\n");
    }
    let plans = stems(alloc, events.as_slice(), clef, wish)?;
    put_plans(out, plans.as_slice())
}

fn put_voice_plans(out: &mut Report, voice: &Voice) -> Result<(), CaseError>
    requires { IsGoodVoice voice.now }
{
    for measure in voice.measures.as_slice() {
        out.next(b"measure\n")?;
        put_measure_plans(out, measure, voice.clef, voice.stem)?;
    }
    Ok(())
}

fn put_all_plans(out: &mut Report, voices: &[Voice]) -> Result<(), CaseError>
    requires { All IsGoodVoice voices.now }
{
    for voice in voices {
        put_voice_plans(out, voice)?;
    }
    Ok(())
}

/// Adds the plans of each measure of each voice, in the voice's first clef.
pub(crate) fn put_score_plans(out: &mut Report, score: &Score) -> Result<(), CaseError>
    requires { IsGoodScore score.now }
{
    put_all_plans(out, score.voices.as_slice())
}
