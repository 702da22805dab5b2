ghost use Rattle.std.specs.Prelude.{◌≡◌, ◌++◌, OnOk, option_map, take, drop};
ghost use Rattle.std.specs.List.{find};
ghost use Rattle.mus_words.specs.Arcs.{arc_end_event};
ghost use Rattle.mus_bridges.specs.Arcs.{has_id, event_at, seen_of, left_key, right_key, arc_between, piece_between};
ghost use Rattle.mus_bridges.specs.Arcs.{arc_in, arcs_between};
ghost use Rattle.mus_bridges.specs.Ends.{ended_event, ended_events, ends_from, measure_ended, over};

use crate::ends::{EndedEvent, EndedEvents, end_at, ends_at};
use mus_arcs::{Arc, Piece, pieces};
use mus_drawn::{DrawnEvent, DrawnMeasure};
use mus_laid::Bridge;
use mus_onsets::{Class, ColumnKey};
use mus_time::{SystemFrame, note_key};
use mus_units::{Memory, Row};
use mus_words::{ArcEnd, PlacedPiece, put_arc};

/// Returns the event with an id.
fn event_with<'a>(id: u32, events: EndedEvents<'a>) -> Option<EndedEvent<'a>>
    ensures { option_map ended_event result ≡ find (has_id id) (ended_events events.entry) }
{
    for (i, event) in events.events.iter().enumerate() {
        if event.flat.event().id == id {
            let to = end_at(events.ends, i, event);
            return Some(EndedEvent { event, to });
        }
    }
    None
}

/// Returns the ends of the events of a measure; those of measure `a` are the first of `ends`.
fn ends_from(ends: &[Row<i32>], a: u32, measure: u32) -> &[i32]
    ensures { result.now ≡ ends_from ends.now a measure }
{
    if measure < a {
        &[]
    } else {
        ends_at(ends, (measure - a) as usize)
    }
}

/// Returns the event with an id in a measure of a voice.
fn event_at<'a>(
    measures: &'a [DrawnMeasure<'a>],
    a: u32,
    ends: &'a [Row<i32>],
    measure: u32,
    id: u32,
) -> Option<EndedEvent<'a>>
    ensures { option_map ended_event result
        ≡ event_at (take a measures.now ++ over measure_ended ends.now (drop a measures.now)) measure id }
{
    match measures.get(measure as usize) {
        Some(d) => {
            let (events, ends) = (d.events.as_slice(), ends_from(ends, a, measure));
            event_with(id, EndedEvents { events, ends })
        }
        None => None,
    }
}

fn end_of<'a>(e: EndedEvent<'a>) -> ArcEnd<'a>
    ensures { arc_end_event result ≡ seen_of (ended_event e.entry) }
{
    ArcEnd {
        clef: e.event.clef,
        heads: e.event.flat.event().heads.as_slice(),
        plan: &e.event.plan,
        to: e.to,
    }
}

/// Returns the column of the left end of a piece whose arc begins at this event.
fn left_key(a: u32, piece: Piece, measure: u32, e: &DrawnEvent<'_>) -> ColumnKey
    ensures { result ≡ left_key a piece measure e.now }
{
    if piece.cut_left {
        ColumnKey::new(a, 0, Class::Head, 0)
    } else {
        note_key(measure, e)
    }
}

/// Returns the column of the right end of a piece whose arc ends at this event.
fn right_key(frame: &SystemFrame<'_>, piece: Piece, measure: u32, e: &DrawnEvent<'_>) -> ColumnKey
    ensures { result ≡ right_key frame.now.lengths.now frame.now.b piece measure e.now }
{
    if piece.cut_right {
        let tick = frame.lengths[frame.b as usize - 1];
        ColumnKey::new(frame.b - 1, tick, Class::Bar, 0)
    } else {
        note_key(measure, e)
    }
}

fn put_arc_between(
    out: &mut Row<Bridge>,
    frame: &SystemFrame<'_>,
    piece: Piece,
    arc: &Arc,
    first: Option<EndedEvent<'_>>,
    last: Option<EndedEvent<'_>>,
) -> Result<(), Memory>
    ensures { OnOk result
        (out.new
        ≡ out.old
        ++ arc_between frame.now.lengths.now frame.now.a frame.now.b piece arc.now (option_map ended_event first.entry)
        (option_map ended_event last.entry)) }
{
    let (Some(first), Some(last)) = (first, last) else {
        return Ok(());
    };
    let left = left_key(frame.a, piece, arc.from, first.event);
    let right = right_key(frame, piece, arc.to, last.event);
    let placed = PlacedPiece { left, right, piece };
    put_arc(out, placed, arc, end_of(first), end_of(last))
}

/// Draws the piece of an arc in a system, if there is one.
fn put_arc_in(
    out: &mut Row<Bridge>,
    frame: &SystemFrame<'_>,
    ends: &[Row<i32>],
    measures: &[DrawnMeasure<'_>],
    arc: &Arc,
) -> Result<(), Memory>
    ensures { OnOk result
        (out.new
        ≡ out.old
        ++ arc_in frame.now.lengths.now frame.now.a frame.now.b
        (take frame.now.a measures.now ++ over measure_ended ends.now (drop frame.now.a measures.now)) arc.now) }
{
    match pieces(arc, frame.a, frame.b) {
        None => Ok(()),
        Some(piece) => {
            let first = event_at(measures, frame.a, ends, arc.from, arc.first);
            let last = event_at(measures, frame.a, ends, arc.to, arc.last);
            put_arc_between(out, frame, piece, arc, first, last)
        }
    }
}

/// Draws the pieces of a voice's arcs in a system; `measures` are all measures of the voice.
pub(crate) fn put_arcs_between(
    out: &mut Row<Bridge>,
    frame: &SystemFrame<'_>,
    ends: &[Row<i32>],
    measures: &[DrawnMeasure<'_>],
    arcs: &[Arc],
) -> Result<(), Memory>
    ensures { OnOk result
        (out.new
        ≡ out.old
        ++ arcs_between frame.now.lengths.now frame.now.a frame.now.b
        (take frame.now.a measures.now ++ over measure_ended ends.now (drop frame.now.a measures.now)) arcs.now) }
{
    for arc in arcs {
        put_arc_in(out, frame, ends, measures, arc)?;
    }
    Ok(())
}
