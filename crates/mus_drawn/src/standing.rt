ghost use Rattle.std.specs.Prelude.{◌≡◌, IfOk, OnOk};
ghost use Rattle.mus_drawn.specs.Drawn.{standing_of, standing_after, old_signs, opening_at, opening_of};

use crate::drawn::SystemOpening;
use mus_score::{Changes, Flat, Voice};
use mus_units::{Clef, Key, Memory, Meter, Row, Sign};
use std::alloc::Global;

/// Clef, key and meter in force at a point of a voice.
#[derive(Drop)]
pub struct StaffState {
    pub clef: Clef,
    pub key: Key,
    pub meter: Meter,
}

/// Returns what is in force where a voice begins.
pub fn standing_of(alloc: Global, v: &Voice) -> Result<StaffState, Memory>
    ensures { IfOk result (λ s. s ≡ standing_of v.now) }
{
    Ok(StaffState {
        clef: v.clef,
        key: v.key.copy(alloc)?,
        meter: v.meter,
    })
}

/// Applies changes to what is in force.
#[inline(always)]
pub fn change(alloc: Global, now: &mut StaffState, changes: &Changes) -> Result<(), Memory>
    ensures { OnOk result (now.new ≡ standing_after now.old changes.now) }
{
    if let Some(key) = &changes.key {
        now.key = key.copy(alloc)?;
    }
    now.clef = changes.clef.unwrap_or(now.clef);
    now.meter = changes.meter.unwrap_or(now.meter);
    Ok(())
}

/// Returns the signs of the key before an event that changes it.
pub fn old_signs(alloc: Global, key: &Key, change: &Option<Key>) -> Result<Row<Sign>, Memory>
    ensures { IfOk result (λ r. r ≡ old_signs key.now change.now) }
{
    match change {
        Some(_) => Row::from_slice(alloc, key.signs.as_slice()),
        None => Ok(Row::new(alloc)),
    }
}

fn opening(now: StaffState, anew: bool) -> SystemOpening
    ensures { result ≡ opening_at now anew }
{
    SystemOpening {
        clef: now.clef,
        key: now.key,
        meter: now.meter,
        anew,
    }
}

/// Returns what the head of a system that begins with these events shows.
pub fn opening_of(
    alloc: Global,
    before: &StaffState,
    flats: &[Flat<'_>],
) -> Result<SystemOpening, Memory>
    ensures { IfOk result (λ o. o ≡ opening_of before.now flats.now) }
{
    let mut now = StaffState {
        clef: before.clef,
        key: before.key.copy(alloc)?,
        meter: before.meter,
    };
    let [flat, ..] = flats else {
        return Ok(opening(now, false));
    };
    let changes = &flat.event().changes;
    change(alloc, &mut now, changes)?;
    Ok(opening(now, changes.meter.is_some()))
}
