ghost use Rattle.std.specs.Prelude.{◌≡◌, ◌≤◌, ◌^◌, ◌+◌, ◌∷◌, [], IfOk, OnOk};
ghost use Rattle.abc_steps.specs.declared.force.InForce.{InForce};
ghost use Rattle.abc_steps.specs.Looks.{Steps};
ghost use Rattle.abc_steps.specs.Good.{IsGoodForce, IsGoodPlacedStep};
ghost use Rattle.abc_steps.specs.Places.{state_at, measure_of};

use crate::counts::{Counts, count_step, no_counts};
use crate::force::{InForce, change_force};
use crate::step::PlacedStep;
use crate::tuplets::{OpenTuplets, open_tuplets_after};
use mus_units::Memory;
use std::alloc::Global;

/// The state of a voice at a point: its measure counts, what is in force, and the open tuplets.
#[derive(Drop)]
pub struct VoiceState {
    pub counts: Counts,
    pub force: InForce,
    pub taking: OpenTuplets,
}

/// Returns the state at the beginning of a voice.
pub fn beginning(alloc: Global, first: &InForce) -> Result<VoiceState, Memory>
    ensures { IfOk result (λ p. p ≡ state_at first.now []) }
{
    Ok(VoiceState {
        counts: no_counts(),
        force: InForce {
            clef: first.clef,
            key: first.key.copy(alloc)?,
            meter: first.meter,
            unit: first.unit,
        },
        taking: OpenTuplets::Nothing,
    })
}

/// Updates a state to the one after a step.
#[inline(always)]
pub fn step_over(alloc: Global, now: &mut VoiceState, s: &PlacedStep) -> Result<(), Memory>
    requires groups { now.old.counts.groups ≤ 2 ^ 30 }
    requires further { now.old.counts.further ≤ 2 ^ 46 }
    requires force { IsGoodForce now.old.force }
    requires step { IsGoodPlacedStep s.now }
    ensures value { OnOk result
        ((first : InForce) (before : Steps)
        → now.old ≡ state_at first before → now.new ≡ state_at first (s.now ∷ before)) }
    ensures groups { OnOk result (now.new.counts.groups ≤ now.old.counts.groups + 1) }
    ensures further { OnOk result (now.new.counts.further ≤ now.old.counts.further + 65535) }
    ensures force { OnOk result (IsGoodForce now.new.force) }
{
    change_force(alloc, &mut now.force, &s.step)?;
    count_step(&mut now.counts, s);
    now.taking = open_tuplets_after(&s.step, now.taking);
    Ok(())
}

/// Returns the measure of an event at this point.
pub fn measure_of(now: &VoiceState) -> u64
    requires groups { now.now.counts.groups ≤ 2 ^ 30 }
    requires further { now.now.counts.further ≤ 2 ^ 46 }
    ensures { result ≡ measure_of now.now }
{
    now.counts.groups + now.counts.further
}
