ghost use Rattle.std.specs.Prelude.{◌≡◌, ◌≤◌, ◌<◌, ◌^◌, ◌+◌, ◌-◌, ◌++◌, ◌∷◌, [], map, length, reverse, unwrap_or, true};
ghost use Rattle.std.specs.Prelude.{false, IfOk, OnOk};
ghost use Rattle.std.specs.List.{All};
ghost use Rattle.mus_units.specs.Good.{IsGoodMeter};
ghost use Rattle.abc_steps.specs.Looks.{since_event, slurs_begun, slurs_ended};
ghost use Rattle.abc_steps.specs.Lengths.{parts_at};
ghost use Rattle.abc_steps.specs.declared.step.Step.{Step};
ghost use Rattle.abc_steps.specs.Good.{IsGoodForce, IsGoodPlacedStep, IsGoodStep};
ghost use Rattle.abc_signs.specs.Signs.{with_tie, tied_heads, for_note, look_of, whole_look, parted_at, sound_written};
ghost use Rattle.abc_signs.specs.Signs.{whole_value, rest_written, further_rests, rests_of, tuplet_of, tree_items_of};
ghost use Rattle.abc_signs.specs.Signs.{signs, HasDrawableValues};

use crate::waits::waiting_of;
use crate::written::{StoredPending, TreeItem, WrittenEvent};
use abc_steps::force::meter_ticks;
use abc_steps::kinds::is_event;
use abc_steps::lengths::parts_at;
use abc_steps::looks::{has_parting, is_sound_tied, since_event, slurs_begun, slurs_ended};
use abc_steps::state::{VoiceState, beginning, measure_of, step_over};
use abc_steps::tuplets::{fits, or_default, usual_q};
use abc_steps::{InForce, PlacedStep, Step, StepContext, StoredSound};
use mus_score::Look;
use mus_units::{Base, Few, Head, Memory, Row, Value};
use std::alloc::Global;

fn with_tie(tie: bool, head: Head) -> Head
    ensures { result ≡ with_tie tie head }
{
    Head {
        pitch: head.pitch,
        sign: head.sign,
        tied: head.tied || tie,
    }
}

/// Returns heads as they are, or all tied.
#[inline(always)]
pub fn with_ties(alloc: Global, heads: &[Head], tie: bool) -> Result<Few<Head>, Memory>
    ensures { IfOk result (λ r. r ≡ map (with_tie tie) heads.now) }
{
    if let [head] = heads {
        return Ok(Few::one(with_tie(tie, *head)));
    }
    let mut tied = Row::with_room(alloc, heads.len())?;
    for head in heads {
        tied.push(with_tie(tie, *head))?;
    }
    Ok(Few::from(tied))
}

#[inline(always)]
fn tied_heads(alloc: Global, heads: &[Head], following: &[PlacedStep]) -> Result<Few<Head>, Memory>
    ensures { IfOk result (λ r. r ≡ tied_heads heads.now following.now) }
{
    if heads.is_empty() {
        return Ok(Few::from(Row::new(alloc)));
    }
    with_ties(alloc, heads, is_sound_tied(following))
}

#[inline(always)]
fn begins(heads: &[Head], before: &[PlacedStep]) -> u32
    requires { length before.now ≤ 2 ^ 30 }
    ensures { result ≡ for_note heads.now (slurs_begun (reverse before.now)) }
{
    if heads.is_empty() {
        return 0;
    }
    slurs_begun(before)
}

#[inline(always)]
fn ends(heads: &[Head], following: &[PlacedStep]) -> u32
    requires { length following.now ≤ 2 ^ 30 }
    ensures { result ≡ for_note heads.now (slurs_ended following.now) }
{
    if heads.is_empty() {
        return 0;
    }
    slurs_ended(following)
}

fn parted_at(now: &VoiceState, waits: &[PlacedStep]) -> bool
    ensures { result ≡ parted_at now.now waits.now }
{
    1 <= now.counts.begun && has_parting(waits)
}

fn look_of(seen: bool) -> Look
    ensures { result ≡ look_of seen }
{
    if seen { Look::Seen } else { Look::Unseen }
}

fn whole_look(seen: bool) -> Look
    ensures { result ≡ whole_look seen }
{
    if seen { Look::Whole } else { Look::Unseen }
}

/// Returns the parts of a step, or no parts if its length has none.
fn values_of(alloc: Global, parts: Option<Few<Value>>) -> Few<Value>
    ensures { result ≡ unwrap_or parts [] }
{
    parts.unwrap_or(Few::from(Row::new(alloc)))
}

/// Returns a note, a chord or a rest with these parts as it is written, for which `waits` is pending.
#[inline(always)]
#[tactic(auto, unfolding(crate::specs::Signs::sound_written, abc_steps::specs::Lengths::parts_at))]
fn sound_written(
    alloc: Global,
    step: &StepContext<'_>,
    s: &StoredSound,
    waits: &[PlacedStep],
    parts: Option<Few<Value>>,
) -> Result<WrittenEvent, Memory>
    requires few { length step.now.before.now ≤ 2 ^ 30 }
    requires few_after { length step.now.following.now ≤ 2 ^ 30 }
    requires parts { parts
        ≡ parts_at step.now.state.now.force.unit (reverse step.now.before.now) (Step.Sound s.now)
        step.now.following.now }
    requires waits { waits.now ≡ since_event (reverse step.now.before.now) }
    ensures { IfOk result (λ w.
        w
        ≡ sound_written step.now.state.now (reverse step.now.before.now) step.now.at.now s.now
        step.now.following.now) }
{
    let heads = tied_heads(alloc, s.heads(), step.following)?;
    Ok(WrittenEvent {
        line: step.at.line,
        column: step.at.column,
        measure: measure_of(step.state),
        heads,
        look: look_of(s.seen()),
        values: values_of(alloc, parts),
        whole: None,
        parted: parted_at(step.state, waits),
        begins: begins(s.heads(), step.before),
        ends: ends(s.heads(), step.following),
    })
}

/// Returns the parts of a whole measure rest.
fn whole_values() -> Few<Value>
    ensures { result ≡ whole_value ∷ [] }
{
    Few::one(Value {
        base: Base::Whole,
        dots: 0,
    })
}

/// Returns a whole measure rest as it is written.
#[tactic(auto, unfolding(crate::specs::Signs::rest_written))]
fn rest_written(
    alloc: Global,
    now: &VoiceState,
    at: &PlacedStep,
    seen: bool,
    measure: u64,
    parted: bool,
) -> WrittenEvent
    requires { IsGoodMeter now.now.force.meter }
    ensures { result ≡ rest_written now.now at.now seen measure parted }
{
    WrittenEvent {
        line: at.line,
        column: at.column,
        measure,
        heads: Few::from(Row::new(alloc)),
        look: whole_look(seen),
        values: whole_values(),
        whole: Some(meter_ticks(now.force.meter).unwrap_or(0)),
        parted,
        begins: 0,
        ends: 0,
    }
}

/// Adds `count` whole measure rests, those after the first one.
fn put_further(
    alloc: Global,
    out: &mut Row<TreeItem>,
    step: &StepContext<'_>,
    seen: bool,
    measure: u64,
    count: u16,
) -> Result<(), Memory>
    requires meter { IsGoodMeter step.now.state.now.force.meter }
    requires near { measure ≤ 2 ^ 47 }
    ensures { OnOk result
        (out.new ≡ out.old ++ further_rests step.now.state.now step.now.at.now seen measure count) }
{
    for i in 0..count {
        let written = rest_written(
            alloc,
            step.state,
            step.at,
            seen,
            measure + u64::from(i),
            false,
        );
        out.push(TreeItem::Event {
            written,
            waiting: StoredPending::nothing(),
        })?;
    }
    Ok(())
}

/// Adds whole measure rests.
#[inline(never)]
fn put_rests(
    alloc: Global,
    out: &mut Row<TreeItem>,
    step: &StepContext<'_>,
    seen: bool,
    count: u16,
) -> Result<(), Memory>
    requires force { IsGoodForce step.now.state.now.force }
    ensures { OnOk result
        (out.new
        ≡ out.old
        ++ rests_of step.now.state.now (since_event (reverse step.now.before.now)) step.now.at.now seen count) }
{
    let (state, at, waits) = (step.state, step.at, since_event(step.before));
    let measure = measure_of(state);
    let written = rest_written(alloc, state, at, seen, measure, parted_at(state, waits));
    let waiting = waiting_of(alloc, &state.force, waits, &[])?;
    out.push(TreeItem::Event { written, waiting })?;
    let further = count.saturating_sub(1);
    put_further(alloc, out, step, seen, measure + 1, further)
}

/// Adds a tuplet if it fits into the open ones.
fn put_tuplet(out: &mut Row<TreeItem>, now: &VoiceState, p: u8, q: u8, r: u8) -> Result<(), Memory>
    requires groups { now.now.counts.groups ≤ 2 ^ 30 }
    requires further { now.now.counts.further ≤ 2 ^ 46 }
    ensures { OnOk result (out.new ≡ out.old ++ tuplet_of now.now p q r) }
{
    let r = or_default(p, r);
    if !fits(r, now.taking) {
        return Ok(());
    }
    out.push(TreeItem::Opens {
        measure: measure_of(now),
        p,
        q: or_default(usual_q(p, now.force.meter), q),
        r,
    })
}

/// Adds the tree items of a step. `parts` are the parts of the step.
#[inline(always)]
#[tactic(auto, unfolding(crate::specs::Signs::tree_items_of))]
pub fn put_signs(
    alloc: Global,
    out: &mut Row<TreeItem>,
    step: &StepContext<'_>,
    parts: Option<Few<Value>>,
) -> Result<(), Memory>
    requires few { length step.now.before.now ≤ 2 ^ 30 }
    requires few_after { length step.now.following.now ≤ 2 ^ 30 }
    requires force { IsGoodForce step.now.state.now.force }
    requires parts { parts
        ≡ parts_at step.now.state.now.force.unit (reverse step.now.before.now) step.now.at.now.step
        step.now.following.now }
    ensures { OnOk result
        (out.new
        ≡ out.old
        ++ tree_items_of step.now.state.now (reverse step.now.before.now) step.now.at.now step.now.following.now
        step.now.at.now.step) }
{
    match &step.at.step {
        Step::Sound(s) => {
            let waits = since_event(step.before);
            let written = sound_written(alloc, step, s, waits, parts)?;
            let waiting = waiting_of(alloc, &step.state.force, waits, s.decos())?;
            out.push(TreeItem::Event { written, waiting })
        }
        Step::Measures { seen, count } => put_rests(alloc, out, step, *seen, *count),
        Step::Tuplet { p, q, r } => put_tuplet(out, step.state, *p, *q, *r),
        _ => Ok(()),
    }
}

/// Returns the number of events among some steps.
fn count_events(steps: &[PlacedStep]) -> usize {
    steps.iter().filter(|s| is_event(&s.step)).count()
}

/// Returns the tree items of a voice that begins with `first`, in the order of the text.
#[inline(never)]
pub fn signs(alloc: Global, first: &InForce, steps: &[PlacedStep]) -> Result<Row<TreeItem>, Memory>
    requires few { length steps.now ≤ 2 ^ 30 }
    requires first { IsGoodForce first.now }
    requires steps { All IsGoodPlacedStep steps.now }
    ensures value { IfOk result (λ r. r ≡ signs first.now [] steps.now) }
    ensures drawn { IfOk result (λ r. All HasDrawableValues r) }
{
    let mut out = Row::with_room(alloc, count_events(steps))?;
    let mut now = beginning(alloc, first)?;
    for i in 0..steps.len() {
        let (before, _) = steps.split_at(i);
        let (_, following) = steps.split_at(i + 1);
        let at = &steps[i];
        let parts = parts_at(alloc, now.force.unit, before, at, following)?;
        let step = StepContext {
            state: &now,
            before,
            at,
            following,
        };
        put_signs(alloc, &mut out, &step, parts)?;
        step_over(alloc, &mut now, at)?;
    }
    Ok(out)
}
