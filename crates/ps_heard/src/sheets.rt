//! What the tunes of a sheet sound.

ghost use Rattle.std.specs.Prelude.{◌≡◌, IfOk, OnOk, flat_map};
ghost use Rattle.ps_heard.specs.Ear.{hear_columns};
ghost use Rattle.ps_heard.specs.Tunes.{heard_staff_columns, staff_heard, staves_heard, heard_in};

use crate::anchors::places_of;
use crate::column::{Heard, Listener};
use crate::columns::fill;
use crate::ear::{fresh, hear_columns};
use crate::tunes::{BorrowedStaves, most_staves, tunes_of};
use mus_units::{Memory, Row, Spread};
use ps_text::{Sheet, Staff};
use std::alloc::Global;

/// Hears staff `k` of a system, if the system has it.
#[tactic(auto, unfolding(crate::specs::Columns::heard_columns_of))]
fn hear_system(
    alloc: Global,
    spread: Spread,
    ear: &mut Listener,
    k: usize,
    staves: &[Staff],
) -> Result<(), Memory>
    ensures { OnOk result (ear.new ≡ hear_columns spread ear.old (heard_staff_columns k staves.now)) }
{
    let Some(staff) = staves.get(k) else {
        return Ok(());
    };
    let places = places_of(alloc, staves)?;
    let columns = fill(alloc, places.as_slice(), staff.marks.as_slice())?;
    hear_columns(alloc, spread, ear, columns.as_slice())
}

/// Hears staff `k` through all systems of a tune.
fn hear_systems(
    alloc: Global,
    spread: Spread,
    ear: &mut Listener,
    k: usize,
    systems: &[BorrowedStaves<'_>],
) -> Result<(), Memory>
    ensures { OnOk result (ear.new ≡ hear_columns spread ear.old (flat_map (heard_staff_columns k) systems.now)) }
{
    for system in systems {
        hear_system(alloc, spread, ear, k, system.staves)?;
    }
    Ok(())
}

/// Returns the heads of staff `k` of a tune.
#[tactic(auto, using(crate::proofs::EarLaws::heard_law))]
fn hear_staff(
    alloc: Global,
    spread: Spread,
    systems: &[BorrowedStaves<'_>],
    k: usize,
) -> Result<Row<Heard>, Memory>
    ensures { IfOk result (λ r. r ≡ staff_heard spread systems.now k) }
{
    let mut ear = fresh(alloc);
    hear_systems(alloc, spread, &mut ear, k, systems)?;
    Ok(ear.heard)
}

/// Returns what a tune sounds, staff by staff.
pub fn hear_tune(
    alloc: Global,
    spread: Spread,
    systems: &[BorrowedStaves<'_>],
) -> Result<Row<Row<Heard>>, Memory>
    ensures { IfOk result (λ r. r ≡ staves_heard spread systems.now) }
{
    let mut out = Row::new(alloc);
    for k in 0..most_staves(systems) {
        out.push(hear_staff(alloc, spread, systems, k)?)?;
    }
    Ok(out)
}

/// Returns what a tune of a sheet sounds: a list for each staff of the tune's largest system, with the staff's heads
/// from the left, system by system, without those of grace notes. `tune` is the tune's index among those of the
/// sheet, from 0; if there is no such tune, there is no list. `spread` determines how far an accidental reaches in
/// its measure.
pub fn hear(alloc: Global, s: &Sheet, tune: u32, spread: Spread) -> Result<Row<Row<Heard>>, Memory>
    ensures value { IfOk result (λ r. r ≡ heard_in s.now tune spread) }
{
    let tunes = tunes_of(alloc, s)?;
    match tunes.get(tune as usize) {
        Some(part) => hear_tune(alloc, spread, part.systems.as_slice()),
        None => Ok(Row::new(alloc)),
    }
}
