ghost use Rattle.mus_score.specs.Limits.{measure_limit};
ghost use Rattle.std.specs.Prelude.{◌≡◌, ◌≤◌, ◌<◌, ◌+◌, length, map, pos, slice_index_or, slice_range, All, IfOk};
ghost use Rattle.mus_score.specs.GoodScore.{IsGoodScore};
ghost use Rattle.mus_score.specs.Seats.{grouped};
ghost use Rattle.mus_onsets.specs.Keys.{AreKeys, IsInSystem, called_keys};
ghost use Rattle.mus_onsets.specs.Onsets.{timeline_of};
ghost use Rattle.{mus_onsets.specs.Ranks.{AreRanked}, mus_time.specs.Frame.{ranked_prop}};
ghost use Rattle.mus_drawn.specs.Good.{AreGoodMeasures};
ghost use Rattle.mus_stems.specs.Slope.{slope_input};
ghost use Rattle.mus_laid.specs.Boxes.{AreGoodMarks};
ghost use Rattle.mus_laid.specs.Shapes.{HaveSameShapes};
ghost use Rattle.mus_marks.specs.Staff.{CoversLines, verses_on};
ghost use Rattle.mus_marks.specs.System.{IsCall, is_drawn_lower};
ghost use Rattle.mus_marks.specs.Tilt.{AllCanTilt, CanTilt, ends_over, sloped_over, voice_tilted};
ghost use Rattle.mus_slots.specs.Words.{IsOrdered};
ghost use Rattle.mus_marks.specs.Tilt.{AreAbscissas, IsTilted, tilted_staff};

use crate::staves::staves;
use mus_drawn::{DrawnEvent, DrawnMeasure, DrawnVoice};
use mus_laid::{StaffMarks, SystemMarks};
use mus_onsets::{ColumnKey, Timeline, next_rank};
use mus_score::Score;
use mus_stems::{SlopeInput, ends_for};
use mus_time::{DrawnScore, SystemFrame, draw_voices, note_key, system_keys};
use mus_units::{Memory, Row};
use std::alloc::Global;

/// The number of events that is enough for most measures; room for it is reserved at once.
const EVENTS_OF_MEASURE: usize = 16;

/// Returns what the line of its beam needs of an event.
#[tactic(auto, unfolding(mus_stems::specs::Slope::slope_input))]
fn anchor_at(at: &[i64], rank: u32, e: &DrawnEvent<'_>) -> SlopeInput
    ensures { result ≡ slope_input e.now.plan (slice_index_or at.now rank (pos 0)) }
{
    SlopeInput {
        up: e.plan.up,
        own: e.plan.own,
        group: e.plan.group,
        x: at.get(rank as usize).copied().unwrap_or(0),
    }
}

/// The columns of a system by their keys, and the abscissas at which they are placed.
#[derive(Clone, Copy)]
struct PlacedColumns<'a> {
    keys: &'a [ColumnKey],
    at: &'a [i64],
    ghost ranked: { AreRanked keys.now } by { ranked_prop keys.now },
}

/// Returns the ends of the events of a measure on the lines of their beams; `anchors` is working space.
fn ends_over(
    alloc: Global,
    anchors: &mut Row<SlopeInput>,
    columns: PlacedColumns<'_>,
    near: &mut usize,
    measure: u32,
    d: &DrawnMeasure<'_>,
) -> Result<Row<i32>, Memory>
    requires { CanTilt columns.keys.now columns.at.now measure d.now }
    ensures { IfOk result
        (λ r. r ≡ ends_over columns.entry.keys.now columns.entry.at.now measure d.now.events) }
{
    let events = d.events.as_slice();
    anchors.items.clear();
    for e in events {
        let rank = next_rank(columns.keys, near, note_key(measure, e));
        anchors.push(anchor_at(columns.at, rank, e))?;
    }
    ends_for(alloc, anchors.as_slice())
}

/// Returns the ends of the events of measures, from number `a` on, on the lines of their beams.
fn sloped_over(
    alloc: Global,
    columns: PlacedColumns<'_>,
    a: u32,
    measures: &[DrawnMeasure<'_>],
) -> Result<Row<Row<i32>>, Memory>
    requires slopes { AllCanTilt columns.keys.now columns.at.now a measures.now }
    requires few { a + length measures.now ≤ measure_limit }
    ensures { IfOk result (λ r. r ≡ sloped_over columns.entry.keys.now columns.entry.at.now a measures.now) }
{
    let mut ends = Row::with_room(alloc, measures.len())?;
    let mut anchors = Row::with_room(alloc, EVENTS_OF_MEASURE)?;
    let (mut measure, mut near) = (a, 0);
    for d in measures {
        ends.push(ends_over(alloc, &mut anchors, columns, &mut near, measure, d)?)?;
        measure += 1;
    }
    Ok(ends)
}

/// Returns the ends of the events of voices in a system, on the lines of their beams.
fn sloped_voices(
    alloc: Global,
    frame: &SystemFrame<'_>,
    at: &[i64],
    voices: &[DrawnVoice<'_>],
) -> Result<Row<Row<Row<i32>>>, Memory>
    requires each { All (λ v. length v.measures ≡ length frame.now.lengths.now) voices.now }
    requires slopes { All
        (λ v. AllCanTilt frame.now.keys.now at.now frame.now.a (slice_range v.measures frame.now.a frame.now.b))
        voices.now }
    ensures { IfOk result (λ r.
        r
        ≡ map (λ v. sloped_over frame.now.keys.now at.now frame.now.a (slice_range v.measures frame.now.a frame.now.b))
        voices.now) }
{
    let columns = PlacedColumns {
        keys: frame.keys,
        at,
    };
    let mut ends = Row::with_room(alloc, voices.len())?;
    for v in voices {
        let measures = &v.measures.as_slice()[frame.a as usize..frame.b as usize];
        ends.push(sloped_over(alloc, columns, frame.a, measures)?)?;
    }
    Ok(ends)
}

/// Returns the staves of voices over abscissas.
fn tilted_staves(
    alloc: Global,
    frame: &SystemFrame<'_>,
    at: &[i64],
    voices: &[DrawnVoice<'_>],
) -> Result<Row<StaffMarks>, Memory>
    requires each { All (λ v. length v.measures ≡ length frame.now.lengths.now) voices.now }
    requires good { All (λ v. AreGoodMeasures v.measures) voices.now }
    requires verses { verses_on voices.now ≤ 128 }
    requires slopes { All
        (λ v. AllCanTilt frame.now.keys.now at.now frame.now.a (slice_range v.measures frame.now.a frame.now.b))
        voices.now }
    requires ordered { All
        (λ v. IsOrdered frame.now.keys.now frame.now.lengths.now frame.now.a frame.now.b
        (voice_tilted frame.now.keys.now at.now frame.now.a frame.now.b v))
        voices.now }
    ensures staves { IfOk result (λ r.
        r
        ≡ map (tilted_staff frame.now.keys.now frame.now.lengths.now at.now frame.now.a frame.now.b)
        (grouped is_drawn_lower voices.now)) }
    ensures lines { IfOk result (All CoversLines) }
{
    let ends = sloped_voices(alloc, frame, at, voices)?;
    staves(alloc, frame, ends.as_slice(), voices)
}

/// Returns the marks of the system of measures `a` to `b` - 1 of a drawn score over the abscissas of its columns, whose
/// keys are `keys`, like `tilt`. The only error is out of memory.
pub fn tilt_of(
    alloc: Global,
    drawn: &DrawnScore<'_>,
    a: u32,
    b: u32,
    keys: Row<ColumnKey>,
    at: &[i64],
) -> Result<SystemMarks, Memory>
    requires order { a < b }
    requires within { b ≤ drawn.now.score.now.measures }
    requires keys { AreKeys keys (called_keys drawn.now.score.now drawn.now.times.now.lengths a b) }
    requires places { AreAbscissas drawn.now.score.now drawn.now.times.now a b at.now }
    ensures tilted { IfOk result (IsTilted drawn.now.score.now drawn.now.times.now a b at.now) }
    ensures alike { IfOk result (λ m.
        (flat : SystemMarks) → IsCall drawn.now.score.now drawn.now.times.now a b flat → HaveSameShapes flat m) }
    ensures places { IfOk result (λ m. All (IsInSystem drawn.now.times.now.lengths a b) m.keys) }
    ensures lines { IfOk result (λ m. All CoversLines m.staves) }
    ensures good { IfOk result (λ m. All (λ staff. AreGoodMarks staff.marks) m.staves) }
{
    let frame = SystemFrame {
        keys: keys.as_slice(),
        lengths: drawn.times.lengths.as_slice(),
        a,
        b,
    };
    let staves = tilted_staves(alloc, &frame, at, drawn.voices)?;
    Ok(SystemMarks { a, b, keys, staves })
}

/// Returns the marks that a score calls for in the system of measures `a` to `b` - 1 whose columns are at the
/// abscissas `at`, in u, one for each column, rising and from 0 to 2^40. These are the marks of `marks`, in the same
/// order, but with the stems of each beam on its line. `t` is the timeline of the score. The only error is out of
/// memory.
pub fn tilt(
    alloc: Global,
    s: &Score,
    t: &Timeline,
    a: u32,
    b: u32,
    at: &[i64],
) -> Result<SystemMarks, Memory>
    requires good { IsGoodScore s.now }
    requires times { t.now ≡ timeline_of s.now }
    requires order { a < b }
    requires within { b ≤ s.now.measures }
    requires places { AreAbscissas s.now t.now a b at.now }
    ensures tilted { IfOk result (IsTilted s.now t.now a b at.now) }
    ensures alike { IfOk result (λ m. (flat : SystemMarks) → IsCall s.now t.now a b flat → HaveSameShapes flat m) }
    ensures places { IfOk result (λ m. All (IsInSystem t.now.lengths a b) m.keys) }
    ensures lines { IfOk result (λ m. All CoversLines m.staves) }
    ensures good { IfOk result (λ m. All (λ staff. AreGoodMarks staff.marks) m.staves) }
{
    let voices = draw_voices(alloc, s)?;
    let drawn = DrawnScore {
        score: s,
        times: t,
        voices: voices.as_slice(),
    };
    let keys = system_keys(alloc, &drawn, a, b)?;
    tilt_of(alloc, &drawn, a, b, keys, at)
}
