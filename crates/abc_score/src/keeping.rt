ghost use Rattle.std.specs.Prelude.{◌≡◌, ◌≤◌, ◌^◌, ◌++◌, [], length, reverse, true, false, nat_lt, IfOk, OnOk};
ghost use Rattle.std.specs.List.{All, list_all};
ghost use Rattle.abc_faults.specs.First.{is_below_or_tied};
ghost use Rattle.abc_faults.specs.Faults.{faults_in};
ghost use Rattle.abc_faults.specs.Weights.{crowd_up_to, stands_before, weight_at};
ghost use Rattle.abc_steps.specs.declared.step.PlacedStep.{PlacedStep};
ghost use Rattle.abc_steps.specs.Good.{IsGoodForce};
ghost use Rattle.abc_steps.specs.Lengths.{parts_at};
ghost use Rattle.abc_signs.specs.Signs.{signs, tree_items_of, HasDrawableValues};
ghost use Rattle.abc_score.specs.Faults.{voice_weights};
ghost use Rattle.abc_score.specs.Judged.{AreJudged, IsCrowdedAt, AreItemsOf, is_idle};
ghost use Rattle.abc_score.specs.Voices.{IsGoodRead};

use crate::voices::ReadVoice;
use abc_faults::{Weight, earlier, judge_step};
use abc_lines::Fault;
use abc_signs::{TreeItem, put_signs, signs};
use abc_steps::kinds::is_event;
use abc_steps::lengths::parts_at;
use abc_steps::state::{beginning, step_over};
use abc_steps::{PlacedStep, Step, StepContext};
use mus_score::HEAD_LIMIT;
use mus_units::{Few, Memory, Row, Value};
use std::alloc::Global;

/// The greatest number of tree items kept for a voice; those of a longer one are read again.
const MOST_KEPT: usize = HEAD_LIMIT as usize;

/// The greatest number of heads and rests that a tune may have.
const MOST_HEADS: usize = HEAD_LIMIT as usize;

/// The tree items of a voice and the number of its measures, if `whole` is true.
#[derive(Drop)]
pub struct VoiceItems {
    pub signs: Row<TreeItem>,
    pub measures: u64,
    pub whole: bool,
}

/// A judged voice: the voice as read, and its tree items.
#[derive(Drop)]
pub struct JudgedVoice {
    pub read: ReadVoice,
    pub kept: VoiceItems,
}

/// Keeps the tree items of a step. If there are too many before it, none are kept any more.
#[inline(always)]
fn keep(
    alloc: Global,
    kept: &mut VoiceItems,
    step: &StepContext<'_>,
    parts: Option<Few<Value>>,
) -> Result<(), Memory>
    requires few { length step.now.before.now ≤ 2 ^ 30 }
    requires few_after { length step.now.following.now ≤ 2 ^ 30 }
    requires force { IsGoodForce step.now.state.now.force }
    requires parts { parts
        ≡ parts_at step.now.state.now.force.unit (reverse step.now.before.now) step.now.at.now.step
        step.now.following.now }
    ensures { OnOk result
        (kept.new.whole ≡ true
        → (kept.old.whole ≡ true)
        × (kept.new.signs
        ≡ kept.old.signs
        ++ tree_items_of step.now.state.now (reverse step.now.before.now) step.now.at.now step.now.following.now
        step.now.at.now.step)) }
{
    if !kept.whole {
        return Ok(());
    }
    if kept.signs.len() >= MOST_KEPT {
        kept.signs = Row::new(alloc);
        kept.whole = false;
        return Ok(());
    }
    put_signs(alloc, &mut kept.signs, step, parts)
}

/// Returns no tree items, for a voice that isn't judged to its end.
fn none_kept(alloc: Global) -> VoiceItems
    ensures { result.whole ≡ false }
{
    let signs = Row::new(alloc);
    VoiceItems {
        signs,
        measures: 0,
        whole: false,
    }
}

/// Returns whether a place is after a step.
fn is_after(at: &PlacedStep, line: u32, column: u32) -> bool
    ensures { result ≡ is_below_or_tied at.now.line line (nat_lt at.now.column column) }
{
    at.line < line || (at.line == line && at.column < column)
}

/// Returns the number of heads and rests up to a step.
#[tactic(auto, unfolding(abc_faults::specs::Weights::stands_before))]
fn count_up_to(weights: &[Weight], at: &PlacedStep) -> usize
    ensures { result ≤ crowd_up_to weights.now (weight_at 0 at.now) }
{
    let mut count: usize = 0;
    for w in weights {
        if !is_after(at, w.line, w.column) {
            count = count.saturating_add(w.count as usize);
        }
    }
    count
}

/// Returns whether all these steps are after one.
#[tactic(auto, unfolding(abc_faults::specs::Weights::stands_before))]
fn all_after(at: &PlacedStep, following: &[PlacedStep]) -> bool
    ensures { result ≡ list_all (λ (s : PlacedStep). stands_before (weight_at 0 at.now) (weight_at 0 s)) following.now }
{
    following.iter().all(|s| is_after(at, s.line, s.column))
}

/// Returns whether the number of heads and rests up to an event is too large, and all steps that follow it are placed
/// after it.
fn is_end(weights: &[Weight], at: &PlacedStep, following: &[PlacedStep]) -> bool
    ensures { result ≡ true → IsCrowdedAt weights.now at.now following.now }
{
    is_event(&at.step) && count_up_to(weights, at) > MOST_HEADS && all_after(at, following)
}

/// Returns whether a step has no effect by itself: it has no fault, no weight and no tree item, and changes nothing
/// in the state. Most steps that aren't events have none.
#[tactic(auto, unfolding(crate::specs::Judged::is_idle))]
fn is_idle(s: &Step) -> bool
    ensures { result ≡ is_idle s.now }
{
    matches!(
        s,
        Step::Grace { .. }
            | Step::SlurOn
            | Step::SlurOff
            | Step::Tie
            | Step::Ending(_)
            | Step::Deco(_)
            | Step::Says(_)
            | Step::Break
            | Step::Space
            | Step::LineEnd
    )
}

/// Returns the first fault of a voice by itself, and its tree items. Adds its weights. If there are many, stops at an
/// event with which there are too many: what follows it does not have the first fault.
pub(crate) fn judge_voice(
    alloc: Global,
    weights: &mut Row<Weight>,
    v: &ReadVoice,
) -> Result<(Option<Fault>, VoiceItems), Memory>
    requires { IsGoodRead v.now }
    ensures judged { IfOk result
        (λ r. AreJudged (faults_in v.now.first [] v.now.steps) (voice_weights v.now) r.0 weights.old weights.new) }
    ensures kept { IfOk result (λ r. AreItemsOf v.now r.1) }
{
    let steps = v.steps.as_slice();
    let mut found = None;
    let mut kept = VoiceItems {
        signs: Row::with_room(alloc, steps.len().min(MOST_KEPT))?,
        measures: 0,
        whole: true,
    };
    let mut now = beginning(alloc, &v.first)?;
    let start = weights.len();
    let mut limit = start.saturating_add(MOST_HEADS);
    for i in 0..steps.len() {
        let (before, _) = steps.split_at(i);
        let (_, following) = steps.split_at(i + 1);
        let at = &steps[i];
        if is_idle(&at.step) {
            continue;
        }
        let parts = parts_at(alloc, now.force.unit, before, at, following)?;
        let step = StepContext {
            state: &now,
            before,
            at,
            following,
        };
        found = earlier(found, judge_step(weights, &step, &parts)?);
        if weights.len() > limit {
            let (_, own) = weights.as_slice().split_at(start);
            if is_end(own, at, following) {
                return Ok((found, none_kept(alloc)));
            }
            limit = limit.saturating_mul(2);
        }
        keep(alloc, &mut kept, &step, parts)?;
        step_over(alloc, &mut now, at)?;
    }
    kept.measures = now.counts.begun;
    Ok((found, kept))
}

/// Returns the tree items of a judged voice: those that were kept, if none is missing.
pub(crate) fn signs_of_voice(
    alloc: Global,
    v: &ReadVoice,
    kept: VoiceItems,
) -> Result<Row<TreeItem>, Memory>
    requires good { IsGoodRead v.now }
    requires kept { AreItemsOf v.now kept }
    ensures value { IfOk result (λ r. r ≡ signs v.now.first [] v.now.steps) }
    ensures drawn { IfOk result (λ r. All HasDrawableValues r) }
{
    if kept.whole {
        Ok(kept.signs)
    } else {
        signs(alloc, &v.first, v.steps.as_slice())
    }
}
