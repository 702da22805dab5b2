ghost use Rattle.mus_score.specs.Limits.{measure_limit};
ghost use Rattle.std.specs.Prelude.{◌≡◌, ◌≤◌, ◌+◌, ◌++◌, length, flat_map, OnOk};
ghost use Rattle.mus_drawn.specs.Good.{AreGoodDrawn, AreGoodMeasures, IsGoodDrawn};
ghost use Rattle.mus_bridges.specs.Bridges.{beams_between, beam_over, event_grace_beam, grace_beams_between};
ghost use Rattle.mus_bridges.specs.Ends.{measure_ended, over};

use crate::ends::{EndedEvents, ends_at};
use crate::stems::{put_beams, set_stems};
use mus_drawn::{DrawnEvent, DrawnMeasure};
use mus_ink::{group_of, put_grace_beam};
use mus_laid::Bridge;
use mus_onsets::{Class, ColumnKey};
use mus_units::{Memory, Row};
use std::alloc::Global;

/// The number of events that is enough for most measures; room for it is reserved at once.
const EVENTS_OF_MEASURE: usize = 16;

/// Draws the beams of notes of measures from the number `a` on.
pub(crate) fn put_beams_between(
    alloc: Global,
    out: &mut Row<Bridge>,
    a: u32,
    ends: &[Row<i32>],
    measures: &[DrawnMeasure<'_>],
) -> Result<(), Memory>
    requires { a + length measures.now ≤ measure_limit }
    ensures { OnOk result (out.new ≡ out.old ++ beams_between a (over measure_ended ends.now measures.now)) }
{
    let mut stems = Row::with_room(alloc, EVENTS_OF_MEASURE)?;
    let mut measure = a;
    for (i, d) in measures.iter().enumerate() {
        let (events, ends) = (d.events.as_slice(), ends_at(ends, i));
        set_stems(&mut stems, measure, EndedEvents { events, ends })?;
        put_beams(out, stems.as_slice())?;
        measure += 1;
    }
    Ok(())
}

/// Draws the beam of the graces before an event, if there are two or more.
fn put_event_grace_beam(
    out: &mut Row<Bridge>,
    measure: u32,
    e: &DrawnEvent<'_>,
) -> Result<(), Memory>
    requires { IsGoodDrawn e.now }
    ensures { OnOk result (out.new ≡ out.old ++ event_grace_beam measure e.now) }
{
    let graces = e.flat.graces.as_slice();
    let [_, more @ ..] = graces else {
        return Ok(());
    };
    let first = ColumnKey::new(measure, e.tick, Class::Grace, 0);
    let last = ColumnKey::new(measure, e.tick, Class::Grace, more.len() as u32);
    let group = group_of(e.clef, graces, e.flat.slash);
    put_grace_beam(out, first, last, group)
}

fn put_measure_grace_beams(
    out: &mut Row<Bridge>,
    measure: u32,
    events: &[DrawnEvent<'_>],
) -> Result<(), Memory>
    requires { AreGoodDrawn events.now }
    ensures { OnOk result (out.new ≡ out.old ++ flat_map (event_grace_beam measure) events.now) }
{
    for e in events {
        put_event_grace_beam(out, measure, e)?;
    }
    Ok(())
}

/// Draws the beams of graces of measures from the number `a` on.
pub(crate) fn put_grace_beams_between(
    out: &mut Row<Bridge>,
    a: u32,
    measures: &[DrawnMeasure<'_>],
) -> Result<(), Memory>
    requires few { a + length measures.now ≤ measure_limit }
    requires good { AreGoodMeasures measures.now }
    ensures { OnOk result (out.new ≡ out.old ++ grace_beams_between a measures.now) }
{
    let mut measure = a;
    for d in measures {
        put_measure_grace_beams(out, measure, d.events.as_slice())?;
        measure += 1;
    }
    Ok(())
}
