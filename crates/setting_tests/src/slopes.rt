//! Sloped beams.

ghost use Rattle.std.specs.Prelude.{IsTrue};
ghost use Rattle.mus_score.specs.Good.{IsGoodBody};
ghost use Rattle.mus_score.specs.GoodScore.{IsGoodScore, IsGoodVoice};
ghost use Rattle.mus_stems.specs.Plans.{AllEndsNear};
ghost use Rattle.mus_stems.specs.Slope.{ArePlaces};
ghost use Rattle.setting_tests.specs.Rising.{AreRisingNumbers, AreNumbersRisingFrom};

use crate::marks::put_system;
use crate::plans::{can_all_stand, put_plans};
use case_texts::{CaseError, Report};
use mus_marks::{marks, tilt};
use mus_onsets::onsets;
use mus_score::{Measure, Score, Voice, flatten};
use mus_stems::{StemPlan, slope, stems};

/// Returns whether each number can be an abscissa.
fn are_places(at: &[i64]) -> bool
    ensures { IsTrue result → ArePlaces at.now }
{
    for x in at {
        if *x < 0 || *x > 1 << 40 {
            return false;
        }
    }
    true
}

/// Returns whether numbers rise from a first one.
fn rise_from(first: i64, rest: &[i64]) -> bool
    ensures { IsTrue result → AreNumbersRisingFrom first rest.now }
{
    let mut before = first;
    for x in rest {
        if *x <= before {
            return false;
        }
        before = *x;
    }
    true
}

/// Returns whether numbers rise.
fn are_rising(at: &[i64]) -> bool
    ensures { IsTrue result → AreRisingNumbers at.now }
{
    match at {
        [] => true,
        [first, rest @ ..] => rise_from(*first, rest),
    }
}

#[tactic(auto, using(crate::proofs::Rises::rises_in_beams))]
fn put_sloped(out: &mut Report, plans: &[StemPlan], at: &[i64]) -> Result<(), CaseError>
    requires { AllEndsNear plans.now }
{
    if at.len() != plans.len() || !are_places(at) || !are_rising(at) {
        return out.next(b"no places\n");
    }
    let sloped = slope(out.alloc, plans, at)?;
    put_plans(out, sloped.as_slice())
}

fn put_measure_slopes(
    out: &mut Report,
    voice: &Voice,
    measure: &Measure,
    at: &[i64],
) -> Result<(), CaseError>
    requires { IsGoodBody measure.now.body }
{
    let alloc = out.alloc;
    let events = flatten(alloc, measure.body.as_slice())?;
    if !can_all_stand(events.as_slice(), voice.clef) {
        return out.next(b"another clef\n");
    }
    let plans = stems(alloc, events.as_slice(), voice.clef, voice.stem)?;
    put_sloped(out, plans.as_slice(), at)
}

fn put_voice_slopes(out: &mut Report, voice: &Voice, at: &[i64]) -> Result<(), CaseError>
    requires { IsGoodVoice voice.now }
{
    match voice.measures.as_slice() {
        [measure, ..] => put_measure_slopes(out, voice, measure, at),
        [] => out.next(b"no measure\n"),
    }
}

/// Adds the plans of the first measure of the first voice on sloped beams, with its events at these abscissas.
pub(crate) fn put_slopes(out: &mut Report, score: &Score, at: &[i64]) -> Result<(), CaseError>
    requires { IsGoodScore score.now }
{
    match score.voices.as_slice() {
        [voice, ..] => put_voice_slopes(out, voice, at),
        [] => out.next(b"no voice\n"),
    }
}

/// Adds what the system of the measures `a` to `b` - 1 draws with its columns at the given abscissas.
#[tactic(auto, using(crate::proofs::Rises::are_abscissas))]
pub(crate) fn put_tilted(
    out: &mut Report,
    score: &Score,
    a: u32,
    b: u32,
    at: &[i64],
) -> Result<(), CaseError>
    requires { IsGoodScore score.now }
{
    if a >= b || b > score.measures {
        return out.next(b"no such measures\n");
    }
    let alloc = out.alloc;
    let times = onsets(alloc, score)?;
    let flat = marks(alloc, score, &times, a, b)?;
    if at.len() != flat.keys.len() || !are_places(at) || !are_rising(at) {
        return out.next(b"no places\n");
    }
    put_system(out, &tilt(alloc, score, &times, a, b, at)?)
}
