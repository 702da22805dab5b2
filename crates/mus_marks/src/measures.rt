ghost use Rattle.mus_score.specs.Limits.{measure_limit};
ghost use Rattle.std.specs.Prelude.{◌≡◌, ◌≤◌, ◌<◌, ◌+◌, ◌++◌, length, None, OnOk};
ghost use Rattle.{mus_onsets.specs.Ranks.{AreRanked}, mus_drawn.specs.Good.{AreGoodMeasures}};
ghost use Rattle.mus_bridges.specs.Ends.{measure_ended, over, voice_ended};
ghost use Rattle.mus_slots.specs.Staff.{slots_laid};
ghost use Rattle.mus_slots.specs.Voice.{bar_slots, first_slots, head_slots, measures_slots, meter_shown, range_slots};

use crate::events::{WordsAt, put_events};
use mus_bridges::{EndedEvents, ends_at};
use mus_drawn::{DrawnMeasure, DrawnVoice, SystemOpening};
use mus_ink::{put_bar, put_head};
use mus_laid::MarkPen;
use mus_onsets::{Class, ColumnKey, has_features};
use mus_score::Seat;
use mus_time::SystemFrame;
use mus_units::{Bar, Memory, Meter, Row};

/// The number of marks that is enough for most events and bars; room for it is reserved at once.
const MARKS_OF_EVENT: usize = 4;

/// Draws the bar after a measure, unless the voice above draws it.
fn put_bar_part(
    pen: &mut MarkPen,
    keys: &[ColumnKey],
    lengths: &[u64],
    measure: u32,
    d: &DrawnMeasure<'_>,
) -> Result<(), Memory>
    requires keys { AreRanked keys.now }
    requires inside { measure < length lengths.now }
    ensures { OnOk result
        (pen.new.marks ≡ pen.old.marks ++ slots_laid keys.now None (bar_slots lengths.now measure d.now)) }
{
    if d.seat.is_lower() {
        return Ok(());
    }
    let key = ColumnKey::new(measure, lengths[measure as usize], Class::Bar, 0);
    pen.go_to(keys, key);
    put_bar(pen, d.bar)
}

/// Returns how many marks measures have if no event has more than most have.
fn room_for(measures: &[DrawnMeasure<'_>]) -> usize {
    let mut events: usize = 0;
    for d in measures {
        events = events.saturating_add(d.events.len()).saturating_add(1);
    }
    events.saturating_mul(MARKS_OF_EVENT)
}

/// Draws the events and bars of measures of a system, from its first on. Leaves out the change before the first event
/// if the head of the system draws it.
fn put_measures(
    pen: &mut MarkPen,
    frame: &SystemFrame<'_>,
    words: WordsAt,
    in_head: bool,
    ends: &[Row<i32>],
    measures: &[DrawnMeasure<'_>],
) -> Result<(), Memory>
    requires fits { frame.now.a + length measures.now ≤ length frame.now.lengths.now }
    requires good { AreGoodMeasures measures.now }
    ensures { OnOk result
        (pen.new.marks
        ≡ pen.old.marks
        ++ slots_laid frame.now.keys.now words.place
        (measures_slots words.first frame.now.lengths.now frame.now.a in_head
        (over measure_ended ends.now measures.now))) }
{
    let mut measure = frame.a;
    let mut in_head = in_head;
    for (i, d) in measures.iter().enumerate() {
        let (events, ends) = (d.events.as_slice(), ends_at(ends, i));
        let events = EndedEvents { events, ends };
        put_events(pen, frame.keys, words, measure, in_head, events)?;
        put_bar_part(pen, frame.keys, frame.lengths, measure, d)?;
        in_head = false;
        measure += 1;
    }
    Ok(())
}

/// Returns the meter that a head shows.
fn meter_shown(a: u32, opening: &SystemOpening) -> Option<Meter>
    ensures { result ≡ meter_shown a opening.now }
{
    if a == 0 || opening.anew {
        Some(opening.meter)
    } else {
        None
    }
}

/// Draws the head of the system that begins with the first of these measures, unless the voice above draws it.
fn put_head_part(
    pen: &mut MarkPen,
    keys: &[ColumnKey],
    a: u32,
    measures: &[DrawnMeasure<'_>],
) -> Result<(), Memory>
    requires keys { AreRanked keys.now }
    requires good { AreGoodMeasures measures.now }
    ensures { OnOk result (pen.new.marks ≡ pen.old.marks ++ slots_laid keys.now None (head_slots a measures.now)) }
{
    let [first, ..] = measures else {
        return Ok(());
    };
    if first.seat.is_lower() {
        return Ok(());
    }
    let opening = &first.opening;
    let meter = meter_shown(a, opening);
    let signs = opening.key.signs.as_slice();
    pen.go_to(keys, ColumnKey::new(a, 0, Class::Head, 0));
    put_head(pen, opening.clef, signs, meter)
}

/// Draws the bar before the first measure if it has features, unless the voice above draws it.
fn put_first_part(
    pen: &mut MarkPen,
    keys: &[ColumnKey],
    a: u32,
    seat: Seat,
    bar: Bar,
) -> Result<(), Memory>
    requires { AreRanked keys.now }
    ensures { OnOk result (pen.new.marks ≡ pen.old.marks ++ slots_laid keys.now None (first_slots a seat bar)) }
{
    if seat.is_lower() || a != 0 || !has_features(bar) {
        return Ok(());
    }
    pen.go_to(keys, ColumnKey::new(0, 0, Class::First, 0));
    put_bar(pen, bar)
}

/// Draws what a voice has in the columns of a frame: its events and its bars, and before them the head of the system
/// and the bar before the first measure if the system `begins` there. A lower voice of a staff has events only. Its
/// stems end at `ends`, measure by measure; an event without an entry keeps its own end.
pub(crate) fn put_voice(
    pen: &mut MarkPen,
    frame: &SystemFrame<'_>,
    begins: bool,
    words: WordsAt,
    ends: &[Row<i32>],
    v: &DrawnVoice<'_>,
) -> Result<(), Memory>
    requires lengths { length v.now.measures ≡ length frame.now.lengths.now }
    requires good { AreGoodMeasures v.now.measures }
    ensures { OnOk result
        (pen.new.marks
        ≡ pen.old.marks
        ++ slots_laid frame.now.keys.now words.place
        (range_slots begins frame.now.lengths.now frame.now.a frame.now.b words.first
        (voice_ended frame.now.a ends.now v.now))) }
{
    let a = frame.a;
    let measures = &v.measures.as_slice()[a as usize..frame.b as usize];
    if !begins {
        return put_measures(pen, frame, words, false, ends, measures);
    }
    pen.marks.items.reserve(room_for(measures))?;
    put_head_part(pen, frame.keys, a, measures)?;
    put_first_part(pen, frame.keys, a, v.seat, v.first)?;
    put_measures(pen, frame, words, true, ends, measures)
}

/// Draws what a voice has in the columns of a frame, as in `marks`: its events and its bars, and before them the head
/// of the system and the bar before the first measure if the system `begins` there. The only error is out of memory.
pub fn put_own_voice(
    pen: &mut MarkPen,
    frame: &SystemFrame<'_>,
    begins: bool,
    words: WordsAt,
    v: &DrawnVoice<'_>,
) -> Result<(), Memory>
    requires lengths { length v.now.measures ≡ length frame.now.lengths.now }
    requires good { AreGoodMeasures v.now.measures }
    ensures { OnOk result
        (pen.new.marks
        ≡ pen.old.marks
        ++ slots_laid frame.now.keys.now words.place
        (range_slots begins frame.now.lengths.now frame.now.a frame.now.b words.first v.now)) }
{
    put_voice(pen, frame, begins, words, &[], v)
}
