//! The score drawn by a plan.

ghost use Rattle.std.specs.Prelude.{◌≡◌, ◌++◌, length, IfOk, OnOk, flat_map, map};
ghost use Rattle.mus_score.specs.GoodScore.{IsGoodScore};
ghost use Rattle.lay_shared.specs.Drawn.{seated_voice, drawn_of, first_bar, staff_gap, leading, lower, seated, sit};
ghost use Rattle.lay_shared.specs.Drawn.{sits_of, staff_sits};
ghost use Rattle.lay_shared.specs.Plans.{IsPlanFor};

use crate::copies::copy_measures;
use crate::plan::{Plan, PlannedStaff};
use mus_score::{Bar, Score, Seat, USUAL_GAP, Voice, WIDE_GAP};
use mus_units::{Memory, Row};
use std::alloc::Global;

/// A voice by its index in the score, its seat among the staves, and whether its staff is the first of an outermost
/// group.
#[derive(Clone, Copy)]
pub struct SeatedVoice {
    pub place: u32,
    pub seat: Seat,
    pub leads: bool,
}

/// Returns the score drawn by a plan: the voices that the plan names, in its order, each with its seat and the gap
/// above its staff, which is 1000 u before the first staff of an outermost group and 500 u before others. A lower
/// voice has no feature in its first bar.
pub fn drawn(alloc: Global, s: &Score, p: &Plan) -> Result<Score, Memory>
    requires good { IsGoodScore s.now }
    requires plan { IsPlanFor (length s.now.voices) p.now }
    ensures value { IfOk result (λ t. t ≡ drawn_of s.now p.now) }
    ensures good { IfOk result IsGoodScore }
{
    let sits = sits_of(alloc, p.staves.as_slice())?;
    Ok(Score {
        voices: drawn_voices(alloc, s.voices.as_slice(), sits.as_slice())?,
        measures: s.measures,
        forced: s.forced.copy(alloc)?,
        spread: s.spread,
    })
}

fn drawn_voices(alloc: Global, voices: &[Voice], sits: &[SeatedVoice]) -> Result<Row<Voice>, Memory>
    ensures { IfOk result (λ drawn. drawn ≡ flat_map (seated_voice voices.now) sits.now) }
{
    let mut drawn = Row::new(alloc);
    for sit in sits {
        put_voice(alloc, &mut drawn, voices, *sit)?;
    }
    Ok(drawn)
}

fn put_voice(
    alloc: Global,
    drawn: &mut Row<Voice>,
    voices: &[Voice],
    sit: SeatedVoice,
) -> Result<(), Memory>
    ensures { OnOk result (drawn.new ≡ drawn.old ++ seated_voice voices.now sit) }
{
    match voices.get(sit.place as usize) {
        Some(voice) => drawn.push(seated(alloc, sit, voice)?),
        None => Ok(()),
    }
}

fn seated(alloc: Global, sit: SeatedVoice, v: &Voice) -> Result<Voice, Memory>
    ensures { IfOk result (λ w. w ≡ seated sit v.now) }
{
    Ok(Voice {
        id: v.id.copy(alloc)?,
        seat: sit.seat,
        gap: gap_of(sit.leads),
        clef: v.clef,
        key: v.key.copy(alloc)?,
        meter: v.meter,
        stem: v.stem,
        verses: v.verses,
        first: first_bar(sit.seat, v.first),
        measures: copy_measures(alloc, v.measures.as_slice())?,
    })
}

fn first_bar(seat: Seat, bar: Bar) -> Bar
    ensures { result ≡ first_bar seat bar }
{
    match seat {
        Seat::Alone | Seat::Upper => bar,
        Seat::Lower => Bar {
            end: false,
            start: false,
            last: false,
            initial: false,
            double: false,
            dotted: false,
            unseen: false,
        },
    }
}

fn sits_of(alloc: Global, staves: &[PlannedStaff]) -> Result<Row<SeatedVoice>, Memory>
    ensures { IfOk result (λ sits. sits ≡ sits_of staves.now) }
{
    let mut sits = Row::new(alloc);
    for staff in staves {
        put_staff(&mut sits, staff.leads, staff.voices.as_slice())?;
    }
    Ok(sits)
}

fn put_staff(sits: &mut Row<SeatedVoice>, leads: bool, places: &[u32]) -> Result<(), Memory>
    ensures { OnOk result (sits.new ≡ sits.old ++ staff_sits leads places.now) }
{
    let Some((first, others)) = places.split_first() else {
        return Ok(());
    };
    sits.push(SeatedVoice {
        place: *first,
        seat: leading(others),
        leads,
    })?;
    put_lower(sits, leads, others)
}

fn put_lower(sits: &mut Row<SeatedVoice>, leads: bool, places: &[u32]) -> Result<(), Memory>
    ensures { OnOk result (sits.new ≡ sits.old ++ map (lower leads) places.now) }
{
    for place in places {
        sits.push(SeatedVoice {
            place: *place,
            seat: Seat::Lower,
            leads,
        })?;
    }
    Ok(())
}

/// Returns the seat of the first voice of a staff, given the others.
fn leading(others: &[u32]) -> Seat
    ensures { result ≡ leading others.now }
{
    if others.is_empty() {
        Seat::Alone
    } else {
        Seat::Upper
    }
}

fn gap_of(leads: bool) -> u32
    ensures { result ≡ staff_gap leads }
{
    if leads { WIDE_GAP } else { USUAL_GAP }
}
