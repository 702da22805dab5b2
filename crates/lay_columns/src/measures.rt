ghost use Rattle.std.specs.Prelude.{◌≡◌, ◌≤◌, ◌<◌, ◌+◌, ◌++◌, ◌==◌, All, IfOk, length, map};
ghost use Rattle.mus_score.specs.Seats.{grouped};
ghost use Rattle.mus_onsets.specs.Keys.{IsInSystem};
ghost use Rattle.mus_drawn.specs.Good.{AreGoodMeasures};
ghost use Rattle.mus_marks.specs.Staff.{verses_on};
ghost use Rattle.mus_marks.specs.System.{drawn_staves, is_drawn_lower};
ghost use Rattle.lay_reaches.specs.Columns.{IsSmall, IsUncut, StandsWhereDue};
ghost use Rattle.lay_reaches.specs.Lanes.{gaps_of};
ghost use Rattle.lay_columns.specs.Measures.{AreMeasureColumns, EndWithBar, fixed_place, range_staff};
ghost use Rattle.lay_columns.specs.Measures.{staff_of_columns};

use lay_reaches::{Column, columns_in};
use mus_drawn::DrawnVoice;
use mus_laid::{Laid, MarkPen, StaffMarks, TOP_LINE};
use mus_marks::{WordsAt, lower_count, put_own_voice};
use mus_time::{DrawnScore, SystemFrame, measure_keys};
use mus_units::{Memory, Row};
use mus_words::TextPlace;
use std::alloc::Global;

/// Returns the place of the words of each column. Columns depend neither on heights nor on the texts that are there
/// before.
fn fixed_place() -> TextPlace
    ensures { result ≡ fixed_place }
{
    TextPlace {
        low: 0,
        high: TOP_LINE,
        verses: 0,
        above: 0,
        below: 0,
    }
}

fn staff_of_columns(marks: Row<Laid>) -> StaffMarks
    ensures { result ≡ staff_of_columns marks }
{
    StaffMarks {
        low: 0,
        high: TOP_LINE,
        marks,
    }
}

/// Returns the marks in the columns of a frame of a staff with these voices. `begins` says whether the system begins
/// with the frame.
fn range_staff(
    alloc: Global,
    frame: &SystemFrame<'_>,
    begins: bool,
    voices: &[DrawnVoice<'_>],
) -> Result<StaffMarks, Memory>
    requires each { All (λ v. length v.measures ≡ length frame.now.lengths.now) voices.now }
    requires good { All (λ v. AreGoodMeasures v.measures) voices.now }
    requires verses { verses_on voices.now ≤ 128 }
    ensures { IfOk result
        (λ r. r ≡ range_staff begins frame.now.keys.now frame.now.lengths.now frame.now.a frame.now.b voices.now) }
{
    let mut pen = MarkPen::new(alloc);
    let mut first = 0;
    for v in voices {
        let place = Some(fixed_place());
        put_own_voice(&mut pen, frame, begins, WordsAt { first, place }, v)?;
        first += v.verses;
    }
    Ok(staff_of_columns(pen.marks))
}

/// Returns the marks in the columns of a frame of each staff.
fn range_staves(
    alloc: Global,
    frame: &SystemFrame<'_>,
    begins: bool,
    voices: &[DrawnVoice<'_>],
) -> Result<Row<StaffMarks>, Memory>
    requires each { All (λ v. length v.measures ≡ length frame.now.lengths.now) voices.now }
    requires good { All (λ v. AreGoodMeasures v.measures) voices.now }
    requires verses { verses_on voices.now ≤ 128 }
    ensures { IfOk result (λ r.
        r
        ≡ map (range_staff begins frame.now.keys.now frame.now.lengths.now frame.now.a frame.now.b)
        (grouped is_drawn_lower voices.now)) }
{
    let mut staves = Row::with_room(alloc, voices.len())?;
    let mut rest = voices;
    'staves: while let [_, following @ ..] = rest {
        let count = lower_count(following) + 1;
        staves.push(range_staff(alloc, frame, begins, &rest[..count])?)?;
        rest = &rest[count..];
    }
    Ok(staves)
}

/// Returns the columns of measure `m` of a drawn score in a system that begins with measure `a`,
/// from left to right. If `a` is `m`, they are the head, the bar before the first measure if it has
/// features, and the measure's own columns. Otherwise they are the measure's own columns alone, and
/// the change before the first event has a column too. `verses` has the number of verses of each
/// staff. Columns are as those of `lay_reaches::columns`; the last is the measure's bar.
pub fn measure_columns(
    alloc: Global,
    drawn: &DrawnScore<'_>,
    a: u32,
    m: u32,
    verses: &[u8],
) -> Result<Row<Column>, Memory>
    requires order { a ≤ m }
    requires within { m < drawn.now.score.now.measures }
    requires counts { length verses.now ≡ length (drawn_staves drawn.now.score.now) }
    ensures columns { IfOk result
        (AreMeasureColumns (a == m) drawn.now.score.now drawn.now.times.now m verses.now) }
    ensures places { IfOk result (All (λ c. IsInSystem drawn.now.times.now.lengths m (m + 1) c.key)) }
    ensures bar { IfOk result (λ r. 1 ≤ length drawn.now.score.now.voices → EndWithBar r) }
    ensures lanes { IfOk result (λ r. All (λ c. length c.reaches ≡ length (gaps_of verses.now)) r) }
    ensures stands { IfOk result (All (StandsWhereDue verses.now)) }
    ensures small { IfOk result (All IsSmall) }
    ensures uncut { IfOk result (All IsUncut) }
{
    let keys = measure_keys(alloc, drawn, m, a == m)?;
    let frame = SystemFrame {
        keys: keys.as_slice(),
        lengths: drawn.times.lengths.as_slice(),
        a: m,
        b: m + 1,
    };
    let staves = range_staves(alloc, &frame, a == m, drawn.voices)?;
    columns_in(alloc, frame.keys, staves.as_slice(), frame.lengths, verses)
}
