ghost use Rattle.std.specs.Prelude.{◌≡◌, ◌++◌, ◌∷◌, [], length, map, reverse, nat_lt, IfOk, OnOk};
ghost use Rattle.std.specs.List.{All};
ghost use Rattle.abc_steps.specs.{declared.step.Step.Step, Looks.since_event, Lengths.parts_at};
ghost use Rattle.abc_faults.specs.First.{first_of};
ghost use Rattle.abc_faults.specs.Faults.{step_fault, fault_if, ends_tuplets, sounds_after, misfit_of, tuplet_faults};
ghost use Rattle.abc_faults.specs.Faults.{is_off, any_off, any_grace_off, grace_faults_of, grace_faults, is_past};
ghost use Rattle.abc_faults.specs.Faults.{is_free, sound_faults_if, sound_faults, rest_faults, faults_of};
ghost use Rattle.abc_faults.specs.Weights.{weight_at, capped, sound_count, grace_weights, weights_of};

use crate::first::earlier;
use crate::weights::{Weight, count_parts, put_graces, sound_count, weight_at};
use abc_lines::{Fault, FaultKind};
use abc_music::GraceChord;
use abc_steps::kinds::is_sound;
use abc_steps::looks::{has_left, has_right, since_event};
use abc_steps::state::measure_of;
use abc_steps::tuplets::{fits, or_default};
use abc_steps::{OpenTuplets, PlacedStep, Step, StepContext, StoredSound};
use mus_score::{HIGHEST_HEAD, LOWEST_HEAD, MEASURE_LIMIT};
use mus_units::{Clef, Few, Head, Memory, Meter, Row, Value, height};

fn step_fault(kind: FaultKind, at: &PlacedStep) -> Fault
    ensures { result ≡ step_fault kind at.now }
{
    Fault {
        kind,
        line: at.line,
        column: at.column,
    }
}

fn fault_if(holds: bool, kind: FaultKind, at: &PlacedStep) -> Option<Fault>
    ensures { result ≡ first_of (fault_if holds kind at.now) }
{
    if holds {
        Some(step_fault(kind, at))
    } else {
        None
    }
}

#[tactic(auto, unfolding(crate::specs::Faults::ends_tuplets))]
fn ends_tuplets(s: &Step) -> bool
    ensures { result ≡ ends_tuplets s.now }
{
    matches!(s, Step::Bar(_) | Step::Measures { .. })
}

/// Returns whether fewer than `r` events with a length come before the end of the measure.
#[tactic(auto, unfolding(crate::specs::Faults::sounds_after))]
fn is_short(r: u8, following: &[PlacedStep]) -> bool
    ensures { result ≡ nat_lt (sounds_after following.now) r }
{
    let mut left = r;
    for s in following {
        if left == 0 || ends_tuplets(&s.step) {
            break;
        }
        if is_sound(&s.step) {
            left -= 1;
        }
    }
    left > 0
}

fn misfit_of(taking: OpenTuplets) -> FaultKind
    ensures { result ≡ misfit_of taking }
{
    match taking {
        OpenTuplets::Nested { inner: _, outer: _ } => FaultKind::TooDeep,
        _ => FaultKind::TupletCrosses,
    }
}

#[inline(never)]
fn tuplet_fault(
    r: u8,
    taking: OpenTuplets,
    at: &PlacedStep,
    following: &[PlacedStep],
) -> Option<Fault>
    ensures { result ≡ first_of (tuplet_faults r taking at.now following.now) }
{
    if fits(r, taking) {
        fault_if(is_short(r, following), FaultKind::TupletShort, at)
    } else {
        Some(step_fault(misfit_of(taking), at))
    }
}

/// Returns whether a head is too far from the staff.
fn is_off(clef: Clef, head: Head) -> bool
    ensures { result ≡ is_off clef head }
{
    let height = height(head.pitch, clef);
    height < i64::from(LOWEST_HEAD) || i64::from(HIGHEST_HEAD) < height
}

fn any_off(clef: Clef, heads: &[Head]) -> bool
    ensures { result ≡ any_off clef heads.now }
{
    heads.iter().any(|head| is_off(clef, *head))
}

fn any_grace_off(clef: Clef, body: &[GraceChord]) -> bool
    ensures { result ≡ any_grace_off clef body.now }
{
    body.iter()
        .any(|chord| any_off(clef, chord.heads.as_slice()))
}

#[tactic(auto, unfolding(crate::specs::Faults::grace_faults_of))]
fn grace_fault_of(clef: Clef, at: &PlacedStep) -> Option<Fault>
    ensures { result ≡ first_of (grace_faults_of clef at.now at.now.step) }
{
    match &at.step {
        Step::Grace { slash: _, body } => fault_if(
            any_grace_off(clef, body.as_slice()),
            FaultKind::StepRange,
            at,
        ),
        _ => None,
    }
}

/// Returns the first fault of the graces pending for an event, in the clef of the event.
#[inline(always)]
fn grace_fault(clef: Clef, waits: &[PlacedStep]) -> Option<Fault>
    ensures { result ≡ first_of (grace_faults clef waits.now) }
{
    let mut found = None;
    for s in waits {
        found = earlier(found, grace_fault_of(clef, s));
    }
    found
}

fn is_past(measure: u64) -> bool
    ensures { result ≡ is_past measure }
{
    measure >= u64::from(MEASURE_LIMIT)
}

fn is_free(meter: Meter) -> bool
    ensures { result ≡ is_free meter }
{
    matches!(meter, Meter::Free)
}

/// Returns the first fault of a note, a chord or a rest, without its graces. `undrawable` is true if its length has
/// no parts.
#[tactic(auto, using(crate::proofs::Firsts::first_append))]
fn sound_fault(step: &StepContext<'_>, s: &StoredSound, undrawable: bool) -> Option<Fault>
    ensures { result ≡ first_of (sound_faults_if undrawable step.now.state.now step.now.at.now s.now) }
{
    let (state, at) = (step.state, step.at);
    let undrawn = fault_if(undrawable, FaultKind::Undrawable, at);
    let off = any_off(state.force.clef, s.heads());
    let found = earlier(undrawn, fault_if(off, FaultKind::StepRange, at));
    let past = fault_if(is_past(measure_of(state)), FaultKind::TooManyMeasures, at);
    earlier(found, past)
}

/// Returns the first fault of a note, a chord or a rest with these parts. Adds its weight after those of its graces.
#[tactic(auto, using(crate::proofs::Firsts::first_append, crate::proofs::Caps::capped_append), //
unfolding(crate::specs::Faults::sound_faults, crate::specs::Weights::sound_count, //
abc_steps::specs::Lengths::parts_at))]
fn judge_sound(
    weights: &mut Row<Weight>,
    step: &StepContext<'_>,
    s: &StoredSound,
    parts: &Option<Few<Value>>,
) -> Result<Option<Fault>, Memory>
    requires parts { parts.now
        ≡ parts_at step.now.state.now.force.unit (reverse step.now.before.now) (Step.Sound s.now)
        step.now.following.now }
    ensures fault { IfOk result (λ f.
        f
        ≡ first_of
        (sound_faults step.now.state.now (reverse step.now.before.now) step.now.at.now s.now step.now.following.now
        ++ grace_faults step.now.state.now.force.clef (since_event (reverse step.now.before.now)))) }
    ensures weights { OnOk result
        (weights.new
        ≡ weights.old
        ++ map capped
        (grace_weights (since_event (reverse step.now.before.now))
        ++ weight_at (sound_count step.now.state.now (reverse step.now.before.now) s.now step.now.following.now)
        step.now.at.now
        ∷ [])) }
{
    let waits = since_event(step.before);
    put_graces(weights, waits)?;
    weights.push(weight_at(sound_count(s, count_parts(parts)), step.at))?;
    let own = sound_fault(step, s, parts.is_none());
    Ok(earlier(own, grace_fault(step.state.force.clef, waits)))
}

/// Returns the first fault of whole measure rests, without their graces.
#[tactic(auto, using(crate::proofs::Firsts::first_append))]
fn rest_fault(step: &StepContext<'_>, count: u16) -> Option<Fault>
    ensures { result ≡ first_of (rest_faults step.now.state.now step.now.at.now count) }
{
    let free = is_free(step.state.force.meter);
    let last = measure_of(step.state) + u64::from(count.saturating_sub(1));
    earlier(
        fault_if(free, FaultKind::RestWithoutMeter, step.at),
        fault_if(is_past(last), FaultKind::TooManyMeasures, step.at),
    )
}

/// Returns the first fault of whole measure rests. Adds their weight after those of their graces.
#[inline(never)]
#[tactic(auto, using(crate::proofs::Firsts::first_append, crate::proofs::Caps::capped_append))]
fn judge_rests(
    weights: &mut Row<Weight>,
    step: &StepContext<'_>,
    count: u16,
) -> Result<Option<Fault>, Memory>
    ensures fault { IfOk result (λ f.
        f
        ≡ first_of
        (rest_faults step.now.state.now step.now.at.now count
        ++ grace_faults step.now.state.now.force.clef (since_event (reverse step.now.before.now)))) }
    ensures weights { OnOk result
        (weights.new
        ≡ weights.old
        ++ map capped
        (grace_weights (since_event (reverse step.now.before.now)) ++ weight_at count step.now.at.now ∷ [])) }
{
    let waits = since_event(step.before);
    put_graces(weights, waits)?;
    weights.push(weight_at(u128::from(count), step.at))?;
    Ok(earlier(
        rest_fault(step, count),
        grace_fault(step.state.force.clef, waits),
    ))
}

/// Returns the first fault of a step among those that can be seen in a single voice: tuplets that are too deep, cross
/// or are short, broken rhythms that lack a side, lengths without parts, heads too far from the staff, whole measure
/// rests in free meter, and measures past the two thousandth. `parts` are the parts of the step. Adds the weight of
/// an event, after one for each group of graces that it takes: the heads of a note or a chord times its parts, 1
/// times its parts for a rest, n for n whole measure rests, and the heads of a group of graces, each capped at
/// 50,001.
#[inline(always)]
#[tactic(auto, unfolding(crate::specs::Faults::faults_of, crate::specs::Weights::weights_of))]
pub fn judge_step(
    weights: &mut Row<Weight>,
    step: &StepContext<'_>,
    parts: &Option<Few<Value>>,
) -> Result<Option<Fault>, Memory>
    requires parts { parts.now
        ≡ parts_at step.now.state.now.force.unit (reverse step.now.before.now) step.now.at.now.step
        step.now.following.now }
    ensures fault { IfOk result (λ f.
        f
        ≡ first_of
        (faults_of step.now.state.now (reverse step.now.before.now) step.now.at.now step.now.following.now
        step.now.at.now.step)) }
    ensures weights { OnOk result
        (weights.new
        ≡ weights.old
        ++ map capped
        (weights_of step.now.state.now (reverse step.now.before.now) step.now.at.now step.now.following.now
        step.now.at.now.step)) }
{
    match &step.at.step {
        Step::Sound(s) => judge_sound(weights, step, s, parts),
        Step::Measures { seen: _, count } => judge_rests(weights, step, *count),
        Step::Tuplet { p, q: _, r } => Ok(tuplet_fault(
            or_default(*p, *r),
            step.state.taking,
            step.at,
            step.following,
        )),
        Step::Broken { right: _, dots: _ } => {
            let alone = !(has_left(step.before) && has_right(step.following));
            Ok(fault_if(alone, FaultKind::BrokenAlone, step.at))
        }
        _ => Ok(None),
    }
}
