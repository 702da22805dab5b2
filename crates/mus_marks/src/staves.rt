ghost use Rattle.std.specs.Prelude.{◌≡◌, ◌≤◌, ◌+◌, ◌++◌, [], drop, length, map, flat_map, slice_index_or, All, IfOk};
ghost use Rattle.std.specs.List.{prefix_len};
ghost use Rattle.mus_score.specs.Seats.{grouped};
ghost use Rattle.mus_laid.specs.Boxes.{staff_heights};
ghost use Rattle.mus_drawn.specs.Good.{AreGoodMeasures};
ghost use Rattle.mus_onsets.specs.Ranks.{AreRanked};
ghost use Rattle.mus_laid.specs.Ranked.{bridge_at};
ghost use Rattle.mus_bridges.specs.Bridges.{bridges_of};
ghost use Rattle.mus_bridges.specs.Ends.{over, voice_ended};
ghost use Rattle.mus_slots.specs.Staff.{bare_slots, place_outside, place_over, staff_columns};
ghost use Rattle.mus_slots.specs.Voice.{slots_of_voices};
ghost use Rattle.mus_slots.specs.Words.{IsOrdered, with_words};
ghost use Rattle.mus_marks.specs.Silent.{is_silent_staff};
ghost use Rattle.mus_marks.specs.Staff.{CoversLines, staff_marks, staff_over, verses_on};
ghost use Rattle.mus_marks.specs.System.{is_drawn_lower};

use crate::events::WordsAt;
use crate::measures::put_voice;
use crate::silence::are_silent;
use crate::words::words_of;
use mus_bridges::put_bridges_of;
use mus_drawn::DrawnVoice;
use mus_ink::drawing::cut_dy;
use mus_laid::{
    Bridge, HeightRange, Laid, MarkPen, StaffMarks, by_columns, heights_over, lines_heights,
    put_bridges, staff_heights,
};
use mus_onsets::ColumnKey;
use mus_time::SystemFrame;
use mus_units::{Memory, Row};
use mus_words::TextPlace;
use std::alloc::Global;

/// The number of beams and arcs that is enough for most measures; room for it is reserved at once.
const BRIDGES_OF_MEASURE: usize = 4;

/// Returns the ends of stems of the i-th voice: none if there are none for it.
fn voice_ends_at(ends: &[Row<Row<i32>>], i: usize) -> &[Row<i32>]
    ensures { result.now ≡ slice_index_or ends.now i [] }
{
    match ends.get(i) {
        Some(own) => own.as_slice(),
        None => &[],
    }
}

/// Returns what voices have between columns, one voice after another.
fn bridges_on(
    alloc: Global,
    frame: &SystemFrame<'_>,
    ends: &[Row<Row<i32>>],
    voices: &[DrawnVoice<'_>],
) -> Result<Row<Bridge>, Memory>
    requires each { All (λ v. length v.measures ≡ length frame.now.lengths.now) voices.now }
    requires good { All (λ v. AreGoodMeasures v.measures) voices.now }
    ensures { IfOk result (λ r.
        r
        ≡ flat_map (bridges_of frame.now.lengths.now frame.now.a frame.now.b)
        (over (voice_ended frame.now.a) ends.now voices.now)) }
{
    let measures = (frame.b - frame.a) as usize;
    let mut out = Row::with_room(alloc, measures * BRIDGES_OF_MEASURE)?;
    for (i, v) in voices.iter().enumerate() {
        put_bridges_of(alloc, &mut out, frame, voice_ends_at(ends, i), v)?;
    }
    Ok(out)
}

/// Returns what each voice has in the columns of a system, without syllables and texts.
fn bare_parts(
    alloc: Global,
    frame: &SystemFrame<'_>,
    ends: &[Row<Row<i32>>],
    voices: &[DrawnVoice<'_>],
) -> Result<Row<Row<Laid>>, Memory>
    requires each { All (λ v. length v.measures ≡ length frame.now.lengths.now) voices.now }
    requires good { All (λ v. AreGoodMeasures v.measures) voices.now }
    requires verses { verses_on voices.now ≤ 128 }
    ensures { IfOk result
        (λ r. r
        ≡ map (bare_slots frame.now.keys.now)
        (slots_of_voices 0 frame.now.lengths.now frame.now.a frame.now.b
        (over (voice_ended frame.now.a) ends.now voices.now))) }
{
    let mut parts = Row::with_room(alloc, voices.len())?;
    let mut verse = 0;
    for (i, v) in voices.iter().enumerate() {
        let mut pen = MarkPen::new(alloc);
        let words = WordsAt {
            first: verse,
            place: None,
        };
        put_voice(&mut pen, frame, true, words, voice_ends_at(ends, i), v)?;
        parts.push(pen.marks)?;
        verse += v.verses;
    }
    Ok(parts)
}

/// Returns marks, with how low and how high they reach.
#[tactic(auto, unfolding(crate::specs::Staff::staff_over))]
fn staff_over(marks: Row<Laid>) -> StaffMarks
    ensures { result ≡ staff_over marks }
{
    let heights = staff_heights(marks.as_slice());
    StaffMarks {
        low: cut_dy(heights.low),
        high: cut_dy(heights.high),
        marks,
    }
}

/// Returns how many verses voices have together.
pub fn verses_on(voices: &[DrawnVoice<'_>]) -> u8
    requires { verses_on voices.now ≤ 128 }
    ensures { result ≡ verses_on voices.now }
{
    let mut verses = 0;
    for v in voices {
        verses += v.verses;
    }
    verses
}

/// Returns whether voices have no syllables and no texts in a system.
fn is_silent_staff(frame: &SystemFrame<'_>, voices: &[DrawnVoice<'_>]) -> bool
    requires { All (λ v. length v.measures ≡ length frame.now.lengths.now) voices.now }
    ensures { result ≡ is_silent_staff frame.now.a frame.now.b voices.now }
{
    for v in voices {
        if !are_silent(&v.measures.as_slice()[frame.a as usize..frame.b as usize]) {
            return false;
        }
    }
    true
}

/// Returns the heights of the parts of a staff and of what is between its columns.
fn heights_on(parts: &[Row<Laid>], between: &[Laid]) -> HeightRange
    ensures { result ≡ staff_heights (flat_map (λ part. part) parts.now ++ between.now) }
{
    let mut heights = lines_heights();
    for part in parts {
        heights = heights_over(heights, part.as_slice());
    }
    heights_over(heights, between)
}

/// Returns the place of the first words of each column, outside of these heights of all other marks.
fn place_over(verses: u8, heights: HeightRange) -> TextPlace
    ensures { result ≡ place_over verses heights }
{
    TextPlace {
        low: cut_dy(heights.low),
        high: cut_dy(heights.high),
        verses,
        above: 0,
        below: 0,
    }
}

/// Returns the place of the first words of each column of a staff with this number of verses; `parts` are its other
/// marks in columns, and `bridges` its marks between columns.
fn place_on(
    alloc: Global,
    keys: &[ColumnKey],
    verses: u8,
    parts: &[Row<Laid>],
    bridges: &[Bridge],
) -> Result<TextPlace, Memory>
    requires { AreRanked keys.now }
    ensures { IfOk result
        (λ p. p ≡ place_outside verses (flat_map (λ part. part) parts.now ++ map (bridge_at keys.now) bridges.now)) }
{
    let mut between = Row::new(alloc);
    put_bridges(&mut between, keys, bridges)?;
    Ok(place_over(verses, heights_on(parts, between.as_slice())))
}

/// Returns a place in each column of a system.
fn places_in(alloc: Global, keys: &[ColumnKey], place: TextPlace) -> Result<Row<TextPlace>, Memory>
    ensures { IfOk result (λ r. r ≡ map (λ k. place) keys.now) }
{
    let mut places = Row::with_room(alloc, keys.len())?;
    for key in keys {
        places.push(place)?;
    }
    Ok(places)
}

/// Returns the parts of voices, and after that of each voice its words: the first of each column at this place.
fn with_words(
    alloc: Global,
    frame: &SystemFrame<'_>,
    place: TextPlace,
    parts: Row<Row<Laid>>,
    voices: &[DrawnVoice<'_>],
) -> Result<Row<Row<Laid>>, Memory>
    requires each { All (λ v. length v.measures ≡ length frame.now.lengths.now) voices.now }
    requires good { All (λ v. AreGoodMeasures v.measures) voices.now }
    requires verses { verses_on voices.now ≤ 128 }
    ensures { IfOk result
        (λ r. r
        ≡ with_words frame.now.keys.now (map (λ k. place) frame.now.keys.now) parts
        (slots_of_voices 0 frame.now.lengths.now frame.now.a frame.now.b voices.now)) }
{
    let mut all = Row::with_room(alloc, voices.len().saturating_mul(2))?;
    let mut places = places_in(alloc, frame.keys, place)?;
    let (mut rest, mut first) = (voices, 0);
    for part in parts.items {
        let [v, following @ ..] = rest else {
            return Ok(all);
        };
        let words = words_of(alloc, frame, &mut places, first, v)?;
        all.push(part)?;
        all.push(words)?;
        first += v.verses;
        rest = following;
    }
    Ok(all)
}

/// Returns what voices have in the columns of a system; `bridges` is what they have between columns.
fn columns_on(
    alloc: Global,
    frame: &SystemFrame<'_>,
    ends: &[Row<Row<i32>>],
    voices: &[DrawnVoice<'_>],
    bridges: &[Bridge],
) -> Result<Row<Laid>, Memory>
    requires each { All (λ v. length v.measures ≡ length frame.now.lengths.now) voices.now }
    requires good { All (λ v. AreGoodMeasures v.measures) voices.now }
    requires verses { verses_on voices.now ≤ 128 }
    requires ordered { All (IsOrdered frame.now.keys.now frame.now.lengths.now frame.now.a frame.now.b)
        (over (voice_ended frame.now.a) ends.now voices.now) }
    requires bridges { bridges.now
        ≡ flat_map (bridges_of frame.now.lengths.now frame.now.a frame.now.b)
        (over (voice_ended frame.now.a) ends.now voices.now) }
    ensures { IfOk result
        (λ r. r
        ≡ staff_columns frame.now.keys.now (verses_on voices.now)
        (slots_of_voices 0 frame.now.lengths.now frame.now.a frame.now.b
        (over (voice_ended frame.now.a) ends.now voices.now))) }
{
    let parts = bare_parts(alloc, frame, ends, voices)?;
    if is_silent_staff(frame, voices) {
        return by_columns(alloc, frame.keys.len(), parts);
    }
    let verses = verses_on(voices);
    let place = place_on(alloc, frame.keys, verses, parts.as_slice(), bridges)?;
    let parts = with_words(alloc, frame, place, parts, voices)?;
    by_columns(alloc, frame.keys.len(), parts)
}

/// Returns the marks of the staff of these voices, whose stems end at `ends`, voice by voice; what has no entry there
/// keeps its own end.
fn staff_marks(
    alloc: Global,
    frame: &SystemFrame<'_>,
    ends: &[Row<Row<i32>>],
    voices: &[DrawnVoice<'_>],
) -> Result<StaffMarks, Memory>
    requires each { All (λ v. length v.measures ≡ length frame.now.lengths.now) voices.now }
    requires good { All (λ v. AreGoodMeasures v.measures) voices.now }
    requires verses { verses_on voices.now ≤ 128 }
    requires ordered { All (IsOrdered frame.now.keys.now frame.now.lengths.now frame.now.a frame.now.b)
        (over (voice_ended frame.now.a) ends.now voices.now) }
    ensures staff { IfOk result
        (λ r. r
        ≡ staff_marks frame.now.keys.now frame.now.lengths.now frame.now.a frame.now.b
        (over (voice_ended frame.now.a) ends.now voices.now)) }
    ensures lines { IfOk result CoversLines }
{
    let bridges = bridges_on(alloc, frame, ends, voices)?;
    let bridges = bridges.as_slice();
    let mut marks = columns_on(alloc, frame, ends, voices, bridges)?;
    put_bridges(&mut marks, frame.keys, bridges)?;
    Ok(staff_over(marks))
}

/// Returns how many of these voices, from the first on, are on the staff of the voice before them.
pub fn lower_count(voices: &[DrawnVoice<'_>]) -> usize
    ensures value { result ≡ prefix_len is_drawn_lower voices.now }
    ensures within { result ≤ length voices.now }
{
    let mut count = 0;
    for v in voices {
        if !v.seat.is_lower() {
            return count;
        }
        count += 1;
    }
    count
}

/// Returns the ends of stems of the voices after the first `count`.
fn ends_after(ends: &[Row<Row<i32>>], count: usize) -> &[Row<Row<i32>>]
    ensures { result.now ≡ drop count ends.now }
{
    if count < ends.len() {
        &ends[count..]
    } else {
        &[]
    }
}

/// Returns the staves of voices, whose stems end at `ends`, voice by voice; what has no entry there keeps its own end.
pub(crate) fn staves(
    alloc: Global,
    frame: &SystemFrame<'_>,
    ends: &[Row<Row<i32>>],
    voices: &[DrawnVoice<'_>],
) -> Result<Row<StaffMarks>, Memory>
    requires each { All (λ v. length v.measures ≡ length frame.now.lengths.now) voices.now }
    requires good { All (λ v. AreGoodMeasures v.measures) voices.now }
    requires verses { verses_on voices.now ≤ 128 }
    requires ordered { All (IsOrdered frame.now.keys.now frame.now.lengths.now frame.now.a frame.now.b)
        (over (voice_ended frame.now.a) ends.now voices.now) }
    ensures staves { IfOk result (λ r.
        r
        ≡ map (staff_marks frame.now.keys.now frame.now.lengths.now frame.now.a frame.now.b)
        (grouped is_drawn_lower (over (voice_ended frame.now.a) ends.now voices.now))) }
    ensures lines { IfOk result (All CoversLines) }
{
    let mut staves = Row::new(alloc);
    let (mut rest, mut left) = (voices, ends);
    while let [_, following @ ..] = rest {
        let count = lower_count(following) + 1;
        staves.push(staff_marks(alloc, frame, left, &rest[..count])?)?;
        rest = &rest[count..];
        left = ends_after(left, count);
    }
    Ok(staves)
}
