ghost use Rattle.std.specs.Prelude.{◌≡◌, ◌+◌, ◌^◌, ◌<◌, OnOk, length};
ghost use Rattle.mus_laid.specs.Boxes.{AreGoodMarks, IsGoodMark};
ghost use Rattle.lay_reaches.specs.Lanes.{lane_number, lanes_of};
ghost use Rattle.lay_reaches.specs.Reaches.{left_of, right_of, rank_of_mark};
ghost use Rattle.lay_reaches.specs.Widened.{HaveGoodMarks, place_of_lane, reach_widened, widened_row, widened_at};
ghost use Rattle.lay_reaches.specs.Widened.{widened_by_mark, widened_by_marks, widened_by_staves};

use crate::column::Column;
use crate::lanes::{lane_count, lane_number};
use crate::stands::Reaches;
use lay_springs::{MOST_REACH, Reach};
use mus_laid::{Laid, Lane, Mark, Sides, StaffMarks, sides_of};
use mus_units::Memory;
use std::alloc::Global;

/// Returns how far a box extends to the left of its column.
#[tactic(auto, unfolding(crate::specs::Reaches::left_of))]
fn left_of(left: i64) -> u32
    ensures { result ≡ left_of left }
{
    left.clamp(-i64::from(MOST_REACH), 0).unsigned_abs() as u32
}

/// Returns how far a box extends to the right of its column.
#[tactic(auto, unfolding(crate::specs::Reaches::right_of))]
fn right_of(right: i64) -> u32
    ensures { result ≡ right_of right }
{
    right.clamp(0, i64::from(MOST_REACH)) as u32
}

/// Returns the rank of the column at which a mark has its box.
fn rank_of(mark: &Mark) -> Option<u32>
    ensures { result ≡ rank_of_mark mark.now }
{
    match mark {
        Mark::Glyph { rank, .. } => Some(*rank),
        Mark::Words { rank, .. } => Some(*rank),
        _ => None,
    }
}

/// Returns the reach, widened to cover a box too.
fn widened(reach: Option<Reach>, sides: Sides) -> Reach
    ensures { result ≡ reach_widened reach sides }
{
    let (left, right) = (left_of(sides.left), right_of(sides.right));
    match reach {
        Some(reach) => Reach {
            left: reach.left.max(left),
            right: reach.right.max(right),
        },
        None => Reach { left, right },
    }
}

/// Returns the number of a lane among those of the system, if those of its staff begin at `start`.
fn place_of_lane(start: usize, lanes: usize, lane: Lane) -> Option<usize>
    requires { start + lanes < 2 ^ 64 }
    ensures { result ≡ place_of_lane start lanes (lane_number lane) }
{
    match lane_number(lane) {
        Some(number) if number < lanes => Some(start + number),
        _ => None,
    }
}

/// Widens the reach in a lane, if there is such a lane.
fn widen_reach(
    alloc: Global,
    reaches: &mut Reaches,
    lane: usize,
    sides: Sides,
) -> Result<(), Memory>
    ensures { OnOk result (reaches.new ≡ widened_row reaches.old lane sides) }
{
    if lane < reaches.len() {
        let reach = widened(reaches.at(lane), sides);
        reaches.put(alloc, lane, reach)?;
    }
    Ok(())
}

fn widen_at(
    alloc: Global,
    columns: &mut [Column],
    rank: usize,
    lane: usize,
    sides: Sides,
) -> Result<(), Memory>
    ensures { OnOk result (columns.new ≡ widened_at columns.old rank lane sides) }
{
    if rank < columns.len() {
        widen_reach(alloc, &mut columns[rank].reaches, lane, sides)?;
    }
    Ok(())
}

/// Widens the reach of the mark's column in its lane to cover its box. The lanes of its staff begin
/// at `start`.
fn widen(
    alloc: Global,
    columns: &mut [Column],
    start: usize,
    lanes: usize,
    laid: &Laid,
) -> Result<(), Memory>
    requires good { IsGoodMark laid.now.mark }
    requires room { start + lanes < 2 ^ 64 }
    ensures { OnOk result (columns.new ≡ widened_by_mark columns.old start lanes laid.now) }
{
    let place = place_of_lane(start, lanes, laid.lane);
    match (rank_of(&laid.mark), place, sides_of(&laid.mark)) {
        (Some(rank), Some(lane), Some(sides)) => widen_at(
            alloc,
            columns,
            rank as usize,
            lane,
            sides,
        ),
        _ => Ok(()),
    }
}

fn widen_all(
    alloc: Global,
    columns: &mut [Column],
    start: usize,
    lanes: usize,
    marks: &[Laid],
) -> Result<(), Memory>
    requires good { AreGoodMarks marks.now }
    requires room { start + lanes < 2 ^ 64 }
    ensures { OnOk result (columns.new ≡ widened_by_marks columns.old start lanes marks.now) }
{
    for laid in marks {
        widen(alloc, columns, start, lanes, laid)?;
    }
    Ok(())
}

/// Widens the reaches of the columns to cover the boxes of the marks of each staff, in its lanes.
pub(crate) fn widen_by_staves(
    alloc: Global,
    columns: &mut [Column],
    staves: &[StaffMarks],
    verses: &[u8],
) -> Result<(), Memory>
    requires good { HaveGoodMarks staves.now }
    requires counts { length verses.now ≡ length staves.now }
    requires room { lanes_of verses.now < 2 ^ 64 }
    ensures { OnOk result (columns.new ≡ widened_by_staves columns.old 0 staves.now verses.now) }
{
    let mut start = 0;
    for (staff, verses) in staves.iter().zip(verses) {
        let lanes = lane_count(*verses);
        let marks = staff.marks.as_slice();
        widen_all(alloc, columns, start, lanes, marks)?;
        start += lanes;
    }
    Ok(())
}
