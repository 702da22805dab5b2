ghost use Rattle.std.specs.Prelude.{◌≡◌, ◌≤◌, ◌+◌, ◌++◌, [], ◌∷◌, length, map, slice_get, slice_range, IfOk, OnOk};
ghost use Rattle.mus_onsets.specs.Ranks.{AreRanked};
ghost use Rattle.mus_laid.specs.Ranked.{inked};
ghost use Rattle.mus_drawn.specs.Good.{AreGoodDrawn, AreGoodMeasures};
ghost use Rattle.mus_slots.specs.Staff.{place_after, written_marks};
ghost use Rattle.mus_slots.specs.Voice.{voice_slots, written_of};
ghost use Rattle.mus_slots.specs.Words.{all_passed, passed, words_from, words_in, words_slot, words_slots};

use crate::silence::is_silent;
use mus_drawn::{DrawnEvent, DrawnMeasure, DrawnVoice};
use mus_laid::{Laid, MarkPen};
use mus_onsets::ColumnKey;
use mus_score::Flat;
use mus_time::{SystemFrame, note_key};
use mus_units::{Memory, Row};
use mus_words::{TextPlace, put_syllables, put_texts};
use std::alloc::Global;

/// Draws the words of an event in its column. Returns the place of further texts there.
#[tactic(auto, unfolding(mus_words::specs::Texts::text_marks))]
pub(crate) fn put_words_at(
    pen: &mut MarkPen,
    place: TextPlace,
    first: u8,
    flat: &Flat<'_>,
) -> Result<TextPlace, Memory>
    requires first { first ≤ 240 }
    requires words { length flat.now.event.words ≤ 8 }
    ensures drawn { OnOk result (pen.new ≡ inked pen.old (written_marks place (written_of first flat.now))) }
    ensures place { IfOk result (λ p. p ≡ place_after place (written_of first flat.now)) }
{
    put_syllables(pen, first, place.low, flat.event().words.as_slice())?;
    put_texts(pen, place, flat)
}

/// Draws the words of an event if its column has a place for them.
fn put_words_in(
    pen: &mut MarkPen,
    places: &mut Row<TextPlace>,
    first: u8,
    flat: &Flat<'_>,
) -> Result<(), Memory>
    requires first { first ≤ 240 }
    requires words { length flat.now.event.words ≤ 8 }
    ensures drawn { OnOk result
        (pen.new ≡ inked pen.old (words_in (slice_get places.old pen.old.rank) (written_of first flat.now))) }
    ensures places { OnOk result (places.new ≡ passed places.old pen.old.rank (written_of first flat.now)) }
{
    let rank = pen.rank as usize;
    if rank < places.len() {
        places.items[rank] = put_words_at(pen, places.items[rank], first, flat)?;
    }
    Ok(())
}

/// Draws the words of an event of a measure, if it has some.
fn put_words(
    pen: &mut MarkPen,
    keys: &[ColumnKey],
    places: &mut Row<TextPlace>,
    first: u8,
    measure: u32,
    e: &DrawnEvent<'_>,
) -> Result<(), Memory>
    requires keys { AreRanked keys.now }
    requires first { first ≤ 240 }
    requires words { length e.now.flat.event.words ≤ 8 }
    ensures drawn { OnOk result
        (pen.new.marks
        ≡ pen.old.marks ++ words_from keys.now places.old (words_slot first measure e.now ∷ [])) }
    ensures places { OnOk result
        (places.new ≡ all_passed keys.now places.old (words_slot first measure e.now ∷ [])) }
{
    if is_silent(&e.flat) {
        return Ok(());
    }
    pen.go_to(keys, note_key(measure, e));
    put_words_in(pen, places, first, &e.flat)
}

/// Draws the words of the events of a measure.
fn put_measure_words(
    pen: &mut MarkPen,
    keys: &[ColumnKey],
    places: &mut Row<TextPlace>,
    first: u8,
    measure: u32,
    events: &[DrawnEvent<'_>],
) -> Result<(), Memory>
    requires keys { AreRanked keys.now }
    requires first { first ≤ 240 }
    requires good { AreGoodDrawn events.now }
    ensures drawn { OnOk result
        (pen.new.marks
        ≡ pen.old.marks ++ words_from keys.now places.old (map (words_slot first measure) events.now)) }
    ensures places { OnOk result
        (places.new ≡ all_passed keys.now places.old (map (words_slot first measure) events.now)) }
{
    for e in events {
        put_words(pen, keys, places, first, measure, e)?;
    }
    Ok(())
}

/// Draws the words of measures, from number `a` on.
fn put_all_words(
    pen: &mut MarkPen,
    keys: &[ColumnKey],
    places: &mut Row<TextPlace>,
    first: u8,
    a: u32,
    measures: &[DrawnMeasure<'_>],
) -> Result<(), Memory>
    requires keys { AreRanked keys.now }
    requires first { first ≤ 240 }
    requires few { a + length measures.now ≤ 4294967295 }
    requires good { AreGoodMeasures measures.now }
    ensures drawn { OnOk result
        (pen.new.marks ≡ pen.old.marks ++ words_from keys.now places.old (words_slots first a measures.now)) }
    ensures places { OnOk result
        (places.new ≡ all_passed keys.now places.old (words_slots first a measures.now)) }
{
    let mut measure = a;
    for d in measures {
        put_measure_words(pen, keys, places, first, measure, d.events.as_slice())?;
        measure += 1;
    }
    Ok(())
}

/// Returns the words of a voice, whose verses count from `first` on; `places` are those of further texts in the
/// columns of the system.
pub(crate) fn words_of(
    alloc: Global,
    frame: &SystemFrame<'_>,
    places: &mut Row<TextPlace>,
    first: u8,
    v: &DrawnVoice<'_>,
) -> Result<Row<Laid>, Memory>
    requires lengths { length v.now.measures ≡ length frame.now.lengths.now }
    requires good { AreGoodMeasures v.now.measures }
    requires first { first ≤ 240 }
    ensures drawn { IfOk result
        (λ r. r
        ≡ words_from frame.now.keys.now places.old
        (voice_slots first frame.now.lengths.now frame.now.a frame.now.b v.now)) }
    ensures places { OnOk result
        (places.new
        ≡ all_passed frame.now.keys.now places.old
        (voice_slots first frame.now.lengths.now frame.now.a frame.now.b v.now)) }
{
    let mut pen = MarkPen::new(alloc);
    let a = frame.a;
    let measures = &v.measures.as_slice()[a as usize..frame.b as usize];
    put_all_words(&mut pen, frame.keys, places, first, a, measures)?;
    Ok(pen.marks)
}
