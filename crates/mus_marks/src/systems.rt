ghost use Rattle.std.specs.Prelude.{◌≡◌, ◌≤◌, ◌<◌, All, IfOk};
ghost use Rattle.mus_score.specs.GoodScore.{IsGoodScore};
ghost use Rattle.mus_onsets.specs.Keys.{IsInSystem};
ghost use Rattle.mus_onsets.specs.Onsets.{timeline_of};
ghost use Rattle.{mus_laid.specs.Boxes.{AreGoodMarks}, mus_marks.specs.{Staff.CoversLines, System.IsCall}};

use crate::staves::staves;
use mus_laid::SystemMarks;
use mus_onsets::Timeline;
use mus_score::Score;
use mus_time::{DrawnScore, SystemFrame, draw_voices, system_keys};
use mus_units::{Memory, Row};
use std::alloc::Global;

/// Returns the marks of the system of measures `a` to `b` - 1 of a drawn score, like `marks`. The only error is out of
/// memory.
pub fn marks_of(
    alloc: Global,
    drawn: &DrawnScore<'_>,
    a: u32,
    b: u32,
) -> Result<SystemMarks, Memory>
    requires order { a < b }
    requires within { b ≤ drawn.now.score.now.measures }
    ensures call { IfOk result (IsCall drawn.now.score.now drawn.now.times.now a b) }
    ensures places { IfOk result (λ m. All (IsInSystem drawn.now.times.now.lengths a b) m.keys) }
    ensures lines { IfOk result (λ m. All CoversLines m.staves) }
    ensures good { IfOk result (λ m. All (λ staff. AreGoodMarks staff.marks) m.staves) }
{
    let keys = system_keys(alloc, drawn, a, b)?;
    let frame = SystemFrame {
        keys: keys.as_slice(),
        lengths: drawn.times.lengths.as_slice(),
        a,
        b,
    };
    let staves = staves(alloc, &frame, &[], drawn.voices)?;
    Ok(SystemMarks { a, b, keys, staves })
}

/// Returns the marks that a score calls for in the system of measures `a` to `b` - 1: the keys of its columns,
/// rising, and for each staff, in order, its marks; `t` is the timeline of the score.
///
/// The marks of a staff are first those of its columns from left to right: the head, the bar before the first measure
/// if it has features, and each event after its change and its graces, with its syllables and its texts outside of
/// all other marks. Then come the beams of its notes, those of its graces, and its arcs. If voices share the staff,
/// each column has the marks of the first voice there, then those of the second, and so on, and the head, the bars
/// and the changes are the first voice's. The only error is out of memory.
pub fn marks(alloc: Global, s: &Score, t: &Timeline, a: u32, b: u32) -> Result<SystemMarks, Memory>
    requires good { IsGoodScore s.now }
    requires times { t.now ≡ timeline_of s.now }
    requires order { a < b }
    requires within { b ≤ s.now.measures }
    ensures call { IfOk result (IsCall s.now t.now a b) }
    ensures places { IfOk result (λ m. All (IsInSystem t.now.lengths a b) m.keys) }
    ensures lines { IfOk result (λ m. All CoversLines m.staves) }
    ensures good { IfOk result (λ m. All (λ staff. AreGoodMarks staff.marks) m.staves) }
{
    let voices = draw_voices(alloc, s)?;
    let drawn = DrawnScore {
        score: s,
        times: t,
        voices: voices.as_slice(),
    };
    marks_of(alloc, &drawn, a, b)
}
