ghost use Rattle.std.specs.Prelude.{◌≡◌, ◌≤◌, ◌^◌, IfOk, OnOk, OnErr, Option, MatchOption, length, is_some};
ghost use Rattle.std.specs.List.{list_any};
ghost use Rattle.{mus_units.specs.Good.{IsGoodKey, IsGoodMeter}, abc_field.specs.Keys.{key_over, IsGoodKeyText}};
ghost use Rattle.abc_steps.specs.declared.step.Step.{Step};
ghost use Rattle.abc_steps.specs.Force.{force_after, has_sign, names_key, names_clef, names_meter, some_if, changes_at};
ghost use Rattle.abc_steps.specs.Force.{meter_ticks};
ghost use Rattle.abc_steps.specs.Good.{IsGoodStep, IsGoodForce};

use crate::step::{PlacedStep, Step};
use abc_field::KeyText;
use mus_pitch::with_signs;
use mus_score::Changes;
use mus_units::{Clef, Frac, Key, Memory, Meter, Sign, WHOLE};
use std::alloc::Global;

/// The clef, key, meter and unit in force at a place of a voice.
#[derive(Drop)]
pub struct InForce {
    pub clef: Clef,
    pub key: Key,
    pub meter: Meter,
    pub unit: Frac,
}

/// Returns the key that a text makes of the key in force.
fn key_over(alloc: Global, key: &Key, text: &KeyText) -> Result<Key, Memory>
    requires key { IsGoodKey key.now }
    requires text { IsGoodKeyText text.now }
    ensures value { IfOk result (λ k. k.signs ≡ key_over key.now.signs text.now) }
    ensures good { IfOk result (λ k. IsGoodKey k) }
{
    match &text.key {
        Some(whole) => whole.copy(alloc),
        None => with_signs(alloc, key, text.adds.as_slice()),
    }
}

/// Updates what is in force to what holds after a key.
#[inline(never)]
#[tactic(auto, unfolding(crate::specs::Force::force_after))]
fn change_key(alloc: Global, now: &mut InForce, text: &KeyText) -> Result<(), Memory>
    requires now { IsGoodForce now.old }
    requires text { IsGoodKeyText text.now }
    ensures value { OnOk result (now.new ≡ force_after (Step.Key text.now) now.old) }
    ensures good { OnOk result (IsGoodForce now.new) }
{
    let key = key_over(alloc, &now.key, text)?;
    now.clef = text.clef.unwrap_or(now.clef);
    now.key = key;
    Ok(())
}

/// Updates what is in force to what holds after a step.
#[tactic(auto, unfolding(crate::specs::Force::force_after))]
pub fn change_force(alloc: Global, now: &mut InForce, s: &Step) -> Result<(), Memory>
    requires now { IsGoodForce now.old }
    requires step { IsGoodStep s.now }
    ensures value { OnOk result (now.new ≡ force_after s.now now.old) }
    ensures good { OnOk result (IsGoodForce now.new) }
{
    match s {
        Step::Clef(clef) => now.clef = *clef,
        Step::Key(text) => change_key(alloc, now, text.get())?,
        Step::Meter(meter) => now.meter = *meter,
        Step::Unit(unit) => now.unit = *unit,
        _ => (),
    }
    Ok(())
}

fn has_sign(adds: &[Sign]) -> bool
    ensures { result ≡ has_sign adds.now }
{
    !adds.is_empty()
}

#[tactic(auto, unfolding(crate::specs::Force::names_key))]
fn names_key(s: &Step) -> bool
    ensures { result ≡ names_key s.now }
{
    match s {
        Step::Key(text) => text.get().key.is_some() || has_sign(text.get().adds.as_slice()),
        _ => false,
    }
}

#[tactic(auto, unfolding(crate::specs::Force::names_clef))]
fn names_clef(s: &Step) -> bool
    ensures { result ≡ names_clef s.now }
{
    match s {
        Step::Clef(_) => true,
        Step::Key(text) => text.get().clef.is_some(),
        _ => false,
    }
}

#[tactic(auto, unfolding(crate::specs::Force::names_meter))]
fn names_meter(s: &Step) -> bool
    ensures { result ≡ names_meter s.now }
{
    matches!(s, Step::Meter(_))
}

fn any_key(waits: &[PlacedStep]) -> bool
    ensures { result ≡ list_any (λ s. names_key s.step) waits.now }
{
    waits.iter().any(|s| names_key(&s.step))
}

fn any_clef(waits: &[PlacedStep]) -> bool
    ensures { result ≡ list_any (λ s. names_clef s.step) waits.now }
{
    waits.iter().any(|s| names_clef(&s.step))
}

fn any_meter(waits: &[PlacedStep]) -> bool
    ensures { result ≡ list_any (λ s. names_meter s.step) waits.now }
{
    waits.iter().any(|s| names_meter(&s.step))
}

fn changed_key(alloc: Global, now: &InForce, waits: &[PlacedStep]) -> Result<Option<Key>, Memory>
    ensures { IfOk result (λ k. k ≡ some_if (list_any (λ s. names_key s.step) waits.now) now.now.key) }
{
    if any_key(waits) {
        return Ok(Some(now.key.copy(alloc)?));
    }
    Ok(None)
}

/// Returns the changes at an event, given what is in force there and the steps pending for it.
#[tactic(auto, unfolding(crate::specs::Force::changes_at))]
pub fn changes_at(alloc: Global, now: &InForce, waits: &[PlacedStep]) -> Result<Changes, Memory>
    ensures { IfOk result (λ c. c ≡ changes_at now.now waits.now) }
{
    let key = changed_key(alloc, now, waits)?;
    Ok(Changes {
        clef: if any_clef(waits) {
            Some(now.clef)
        } else {
            None
        },
        key,
        meter: if any_meter(waits) {
            Some(now.meter)
        } else {
            None
        },
    })
}

/// Returns the ticks of a measure. `None` in free meter.
pub fn meter_ticks(meter: Meter) -> Option<u64>
    requires { IsGoodMeter meter }
    ensures { result ≡ meter_ticks meter }
{
    match meter {
        Meter::Free => None,
        Meter::Common => Some(WHOLE),
        Meter::Cut => Some(WHOLE),
        Meter::Ratio { num, den } => Some(u64::from(num) * WHOLE / u64::from(den)),
    }
}
