ghost use Rattle.std.specs.Prelude.{◌≡◌, ◌+◌, ◌*◌, ◌≢◌, ◌⊎◌, ◌^◌, ◌<◌, ◌≤◌, ℕ, ℤ, pos, negsuc, ◌+ℤ◌, ◌≤ℤ◌, IfOk};
ghost use Rattle.std.specs.Prelude.{IfSome, length, take, slice_index, slice_index_or, slice_set};
ghost use Rattle.lay_springs.specs.ReachView.{reach_in};
ghost use Rattle.lay_springs.specs.Place.{reach_at, length_at, AreLinear, IsPlace, IsPast, IsFirst, IsSomewhere};
ghost use Rattle.lay_springs.specs.{Place.{Advances, IsInside}, Spaced.{HavePlace, HavePlaced, StayNear}};

use crate::columns::{Gaps, SpacedColumns};
use crate::placing::Placing;
use crate::progress::{Progress, TightSprings};
use crate::traits::{LaneReach, Reach, ReachView, Spaced, Spring, reach_in};
use mus_units::{Memory, Row};
use std::alloc::Global;

/// Returns the larger of two numbers.
pub(crate) fn larger(a: i64, b: i64) -> i64
    ensures first { a ≤ℤ result }
    ensures second { b ≤ℤ result }
    ensures least { (v : ℤ) → a ≤ℤ v → b ≤ℤ v → result ≤ℤ v }
{
    if a < b { b } else { a }
}

/// Further left than any rod reaches: the frontier of a lane that has no column yet.
const NOWHERE: i64 = -1_099_511_627_776;

/// Returns the least abscissa that is at least `from` and, if something ends at `end`, at least
/// `room` past it.
fn past_end(end: i64, room: u32, from: i64) -> i64
    requires small { end ≤ℤ pos (2 ^ 61) }
    requires nowhere { (pos 0 ≤ℤ end) ⊎ ((end +ℤ pos room) ≤ℤ from) }
    ensures kept { from ≤ℤ result }
    ensures past { pos 0 ≤ℤ end → (end +ℤ pos room) ≤ℤ result }
    ensures following { pos 0 ≤ℤ from → end ≤ℤ result }
    ensures least { (v : ℤ) → from ≤ℤ v → (pos 0 ≤ℤ end → (end +ℤ pos room) ≤ℤ v) → result ≤ℤ v }
{
    larger(from, end + i64::from(room))
}

/// Returns the least abscissa that is at least `from` and past the frontier of each lane.
fn past_each(row: &[Option<Reach>], gaps: Gaps<'_>, front: &[i64], from: i64) -> i64
    requires room { length front.now ≡ length gaps.list.now }
    requires nowhere { (lane : ℕ) → lane < length gaps.list.now → IsSomewhere (slice_index_or front.now lane (pos 0)) }
    requires begins { pos 0 ≤ℤ from }
    requires small { (lane : ℕ) → lane < length gaps.list.now → slice_index_or front.now lane (pos 0) ≤ℤ pos (2 ^ 61) }
    ensures kept { from ≤ℤ result }
    ensures clear { IsPast (reach_in row.now) gaps.entry.list.now (length gaps.entry.list.now) front.now result }
    ensures least { (v : ℤ)
        → from ≤ℤ v → IsPast (reach_in row.now) gaps.entry.list.now (length gaps.entry.list.now) front.now v → result
        ≤ℤ v }
{
    let mut next = from;
    let gaps = gaps.list;
    for lane in 0..row.len().min(gaps.len()) {
        let Some(s) = reach_in(row, lane) else {
            continue;
        };
        next = past_end(front[lane], gaps[lane] + s.left, next);
    }
    next
}

/// Advances the frontier of each of the column's lanes, for a column at `at`, past the columns
/// already there.
fn advance_each(row: &[Option<Reach>], at: i64, front: &mut [i64])
    requires lanes { length front.old < 2 ^ 32 }
    requires begins { pos 0 ≤ℤ at }
    requires small { at ≤ℤ pos (2 ^ 62) }
    requires following { (lane : ℕ)
        → lane < length front.old → IfSome (reach_in row.now lane) (λ r. slice_index_or front.old lane (pos 0) ≤ℤ at) }
    ensures { (lane : ℕ) → lane < length front.old
        → Advances (reach_in row.now lane) at (slice_index_or front.old lane (pos 0))
        (slice_index_or front.new lane (pos 0)) }
{
    for lane in 0..row.len().min(front.len()) {
        let Some(r) = reach_in(row, lane) else {
            continue;
        };
        front[lane] = at + i64::from(r.right);
    }
}

/// Returns the frontier of a lane in which a column at `at` with this reach is the first.
fn begun_at(reach: Option<Reach>, at: i64) -> i64
    requires begins { pos 0 ≤ℤ at }
    requires small { at ≤ℤ pos (2 ^ 62) }
    ensures { Advances reach at (negsuc 1099511627775) result }
{
    match reach {
        Some(r) => at + i64::from(r.right),
        None => NOWHERE,
    }
}

/// Sets a column at the least abscissa that is at least `from` and past the frontier of each of its
/// lanes, and advances those frontiers.
fn set_past<C: Spaced>(col: &C, gaps: Gaps<'_>, from: i64, front: &mut [i64]) -> i64
    requires room { length front.old ≡ length gaps.list.now }
    requires nowhere { (lane : ℕ) → lane < length gaps.list.now → IsSomewhere (slice_index_or front.old lane (pos 0)) }
    requires small { (lane : ℕ) → lane < length gaps.list.now → slice_index_or front.old lane (pos 0) ≤ℤ pos (2 ^ 61) }
    requires begins { pos 0 ≤ℤ from }
    requires near { from ≤ℤ pos (2 ^ 60) }
    ensures kept { from ≤ℤ result }
    ensures clear { IsPast (C.reach_of col.now) gaps.entry.list.now (length gaps.entry.list.now) front.old result }
    ensures least { (v : ℤ)
        → from ≤ℤ v → IsPast (C.reach_of col.now) gaps.entry.list.now (length gaps.entry.list.now) front.old v → result
        ≤ℤ v }
    ensures noted { (lane : ℕ) → lane < length front.old
        → Advances (C.reach_of col.now lane) result (slice_index_or front.old lane (pos 0))
        (slice_index_or front.new lane (pos 0)) }
{
    let stand = match col.stands() {
        ReachView::OneLane(stand) => stand,
        ReachView::EachLane(row) => return set_past_each(row, gaps, from, front),
    };
    let lane = stand.lane as usize;
    let gaps = gaps.list;
    if lane >= gaps.len() {
        return from;
    }
    let at = past_end(front[lane], gaps[lane] + stand.reach.left, from);
    front[lane] = at + i64::from(stand.reach.right);
    at
}

/// As `set_past`, for a column whose reaches are a row.
#[inline(never)]
fn set_past_each(row: &[Option<Reach>], gaps: Gaps<'_>, from: i64, front: &mut [i64]) -> i64
    requires room { length front.old ≡ length gaps.list.now }
    requires nowhere { (lane : ℕ) → lane < length gaps.list.now → IsSomewhere (slice_index_or front.old lane (pos 0)) }
    requires small { (lane : ℕ) → lane < length gaps.list.now → slice_index_or front.old lane (pos 0) ≤ℤ pos (2 ^ 61) }
    requires begins { pos 0 ≤ℤ from }
    requires near { from ≤ℤ pos (2 ^ 60) }
    ensures kept { from ≤ℤ result }
    ensures clear { IsPast (reach_in row.now) gaps.entry.list.now (length gaps.entry.list.now) front.old result }
    ensures least { (v : ℤ)
        → from ≤ℤ v → IsPast (reach_in row.now) gaps.entry.list.now (length gaps.entry.list.now) front.old v → result
        ≤ℤ v }
    ensures noted { (lane : ℕ) → lane < length front.old
        → Advances (reach_in row.now lane) result (slice_index_or front.old lane (pos 0))
        (slice_index_or front.new lane (pos 0)) }
{
    let at = past_each(row, gaps, front, from);
    advance_each(row, at, front);
    at
}

/// Returns the least abscissa at which a column begins at 0 or later in each lane.
fn first_of<C: Spaced>(col: &C, lanes: usize) -> i64
    requires { lanes < 2 ^ 32 }
    ensures begins { pos 0 ≤ℤ result }
    ensures inside { IsInside (C.reach_of col.now) lanes result }
    ensures least { (v : ℤ) → pos 0 ≤ℤ v → IsInside (C.reach_of col.now) lanes v → result ≤ℤ v }
{
    let stands = col.stands();
    if let ReachView::OneLane(stand) = stands {
        return if (stand.lane as usize) < lanes {
            i64::from(stand.reach.left)
        } else {
            0
        };
    }
    let mut first = 0;
    for lane in 0..lanes {
        let Some(s) = stands.at(lane) else {
            continue;
        };
        first = larger(first, i64::from(s.left));
    }
    first
}

/// Returns the abscissa of the first column, which is the same at every force. If some are placed,
/// it is read from `at`.
fn first_at<C: Spaced>(cols: &[C], lanes: usize, at: &[i64], placed: usize) -> i64
    requires some { 0 < length cols.now }
    requires lanes { lanes < 2 ^ 32 }
    requires room { length cols.now ≤ length at.now }
    requires placed { 0 < placed → IsFirst (reach_at C.reach_of cols.now 0) lanes (slice_index_or at.now 0 (pos 0)) }
    ensures { IsFirst (reach_at C.reach_of cols.now 0) lanes result }
{
    if 0 < placed {
        return at[0];
    }
    first_of(&cols[0], lanes)
}

/// Returns the least abscissa after a column at `before` that has a spring of this length.
fn after(before: i64, spring: u32) -> i64
    requires begins { pos 0 ≤ℤ before }
    requires small { before ≤ℤ pos (2 ^ 60) }
    ensures step { (before +ℤ pos 100) ≤ℤ result }
    ensures spring { (before +ℤ pos spring) ≤ℤ result }
    ensures least { (v : ℤ) → (before +ℤ pos 100) ≤ℤ v → (before +ℤ pos spring) ≤ℤ v → result ≤ℤ v }
{
    larger(before + 100, before + i64::from(spring))
}

/// Places `count` columns in one pass, which keeps the frontier of each lane. Resumes from the
/// columns that are already placed at this force.
pub(crate) fn place_to<C: Spaced + Spring>(
    placing: &mut Placing<'_, '_, C>,
    force: u16,
    count: usize,
) -> Progress
    requires within { count ≤ length placing.old.columns.cols.now }
    requires placed { HavePlaced C.reach_of C.length_of placing.old.columns placing.old.progress placing.old.at.now
        placing.old.front.now }
    ensures columns { placing.new.columns ≡ placing.old.columns }
    ensures at { placing.new.at.ghost_name ≡ placing.old.at.ghost_name }
    ensures front { placing.new.front.ghost_name ≡ placing.old.front.ghost_name }
    ensures progress { placing.new.progress ≡ result }
    ensures force { result.force ≡ force }
    ensures some { 0 < result.count }
    ensures count { count ≤ result.count }
    ensures placed { HavePlaced C.reach_of C.length_of placing.old.columns result placing.new.at.now
        placing.new.front.now }
{
    let begun = begun(
        placing.columns,
        force,
        placing.at,
        placing.front,
        placing.progress,
    );
    let done = place_on(placing.columns, placing.at, placing.front, begun, count);
    placing.progress = done;
    done
}

/// Places all columns, as `place_to` does.
pub(crate) fn place_all<C: Spaced + Spring>(
    placing: &mut Placing<'_, '_, C>,
    force: u16,
) -> Progress
    requires placed { HavePlaced C.reach_of C.length_of placing.old.columns placing.old.progress placing.old.at.now
        placing.old.front.now }
    ensures columns { placing.new.columns ≡ placing.old.columns }
    ensures at { placing.new.at.ghost_name ≡ placing.old.at.ghost_name }
    ensures front { placing.new.front.ghost_name ≡ placing.old.front.ghost_name }
    ensures progress { placing.new.progress ≡ result }
    ensures near { AreLinear (length placing.old.columns.cols.now) (length_at C.length_of placing.old.columns.cols.now)
        → StayNear C.reach_of C.length_of placing.old.columns force result.tight.natural result.tight.count
        placing.new.at.now }
    ensures placed { HavePlaced C.reach_of C.length_of placing.old.columns result placing.new.at.now
        placing.new.front.now }
    ensures place { HavePlace C.reach_of C.length_of placing.old.columns force
        (take (length placing.old.columns.cols.now) placing.new.at.now) }
    ensures small { (k : ℕ) → k < length placing.old.columns.cols.now
        → (pos 0 ≤ℤ slice_index_or placing.new.at.now k (pos 0))
        × (slice_index_or placing.new.at.now k (pos 0) ≤ℤ pos (2 ^ 48)) }
{
    let count = placing.columns.cols.len();
    place_to(placing, force, count)
}

/// Places all columns at a force, none of which is placed.
pub(crate) fn place_new<C: Spaced + Spring>(
    columns: SpacedColumns<'_, C>,
    force: u16,
    at: &mut [i64],
    front: &mut [i64],
)
    requires room { length columns.cols.now ≤ length at.old }
    requires one_each { length front.old ≡ length columns.gaps.list.now }
    ensures place { HavePlace C.reach_of C.length_of columns.entry force (take (length columns.entry.cols.now) at.new) }
    ensures small { (k : ℕ) → k < length columns.entry.cols.now
        → (pos 0 ≤ℤ slice_index_or at.new k (pos 0)) × (slice_index_or at.new k (pos 0) ≤ℤ pos (2 ^ 48)) }
{
    let mut placing = Placing {
        columns,
        at,
        front,
        progress: Progress::none(),
    };
    place_all(&mut placing, force);
}

/// Returns the columns that are placed at this force. If none is, places the first.
fn begun<C: Spaced + Spring>(
    columns: SpacedColumns<'_, C>,
    force: u16,
    at: &mut [i64],
    front: &mut [i64],
    placed: Progress,
) -> Progress
    requires room { length columns.cols.now ≤ length at.old }
    requires one_each { length front.old ≡ length columns.gaps.list.now }
    requires placed { HavePlaced C.reach_of C.length_of columns placed at.old front.old }
    ensures force { result.force ≡ force }
    ensures some { 0 < result.count }
    ensures placed { HavePlaced C.reach_of C.length_of columns.entry result at.new front.new }
{
    if 0 < placed.count && placed.force == force {
        return placed;
    }
    let SpacedColumns { cols, gaps, .. } = columns;
    let first = first_at(cols, gaps.list.len(), at, placed.count);
    at[0] = first;
    begin_fronts(&cols[0], first, front);
    Progress {
        force,
        count: 1,
        tight: TightSprings {
            natural: 0,
            count: 0,
        },
    }
}

/// Places the columns that come after those of `begun`, up to `count` in all.
fn place_on<C: Spaced + Spring>(
    columns: SpacedColumns<'_, C>,
    at: &mut [i64],
    front: &mut [i64],
    begun: Progress,
    count: usize,
) -> Progress
    requires room { length columns.cols.now ≤ length at.old }
    requires one_each { length front.old ≡ length columns.gaps.list.now }
    requires some { 0 < begun.count }
    requires within { count ≤ length columns.cols.now }
    requires placed { HavePlaced C.reach_of C.length_of columns begun at.old front.old }
    ensures force { result.force ≡ begun.force }
    ensures some { 0 < result.count }
    ensures count { count ≤ result.count }
    ensures placed { HavePlaced C.reach_of C.length_of columns.entry result at.new front.new }
{
    let mut done = begun;
    while done.count < count {
        done = place_next(columns, at, front, done);
    }
    done
}

/// Places the next column at the force of those that are placed. Its tight springs include the
/// spring before it if that spring alone determines its place.
fn place_next<C: Spaced + Spring>(
    columns: SpacedColumns<'_, C>,
    at: &mut [i64],
    front: &mut [i64],
    done: Progress,
) -> Progress
    requires room { length columns.cols.now ≤ length at.old }
    requires one_each { length front.old ≡ length columns.gaps.list.now }
    requires some { 0 < done.count }
    requires more { done.count < length columns.cols.now }
    requires placed { HavePlaced C.reach_of C.length_of columns done at.old front.old }
    ensures force { result.force ≡ done.force }
    ensures count { result.count ≡ done.count + 1 }
    ensures placed { HavePlaced C.reach_of C.length_of columns.entry result at.new front.new }
{
    let SpacedColumns { cols, gaps, .. } = columns;
    let Progress {
        force,
        count: j,
        tight,
    } = done;
    let before = at[j - 1];
    let natural = cols[j - 1].length(256);
    let spring = cols[j - 1].length(force);
    let next = set_past(&cols[j], gaps, after(before, spring), front);
    at[j] = next;
    Progress {
        force,
        count: j + 1,
        tight: tightened(tight, before, spring, natural, next),
    }
}

/// Returns the tight springs, with the one that leads from `before` added if it ends at the next
/// column.
fn tightened(tight: TightSprings, before: i64, spring: u32, natural: u32, next: i64) -> TightSprings
    requires few { tight.count < 2 ^ 26 }
    requires short { tight.natural + natural ≤ 2 ^ 46 }
    requires begins { pos 0 ≤ℤ before }
    requires small { before ≤ℤ pos (2 ^ 60) }
    ensures { (((before +ℤ pos spring) ≡ next)
        × (result.natural ≡ tight.natural + natural)
        × (result.count ≡ tight.count + 1))
        ⊎ (((before +ℤ pos spring) ≢ next) × (result.natural ≡ tight.natural) × (result.count ≡ tight.count)) }
{
    if before + i64::from(spring) == next {
        TightSprings {
            natural: tight.natural + u64::from(natural),
            count: tight.count + 1,
        }
    } else {
        tight
    }
}

/// Begins the frontiers with a single column at `at`.
fn begin_fronts<C: Spaced>(col: &C, at: i64, front: &mut [i64])
    requires lanes { length front.old < 2 ^ 32 }
    requires begins { pos 0 ≤ℤ at }
    requires small { at ≤ℤ pos (2 ^ 62) }
    ensures { (lane : ℕ) → lane < length front.old
        → Advances (C.reach_of col.now lane) at (negsuc 1099511627775) (slice_index_or front.new lane (pos 0)) }
{
    let stands = col.stands();
    for lane in 0..front.len() {
        front[lane] = begun_at(stands.at(lane), at);
    }
}

/// Returns the least list of abscissas at a force, in u: pointwise least among all lists that begin
/// at 0 or later, keep each lane's gap between the reaches of every two columns in it, leave 100
/// between neighbors and keep each spring. One pass over the columns.
pub fn place<'a, C: Spaced + Spring>(
    alloc: Global,
    cols: &'a [C],
    gaps: &'a [u32],
    force: u16,
) -> Result<Row<i64>, Memory>
    requires some { 0 < length cols.now }
    requires few { length cols.now ≤ 2 ^ 26 }
    requires lanes { length gaps.now < 2 ^ 32 }
    requires narrow { (lane : ℕ) → lane < length gaps.now → slice_index gaps.now lane ≤ 2 ^ 20 }
    ensures { IfOk result (λ v.
        IsPlace (length cols.now) (reach_at C.reach_of cols.now) gaps.now (length_at C.length_of cols.now force) v) }
{
    let mut at = vec![in alloc; 0; cols.len()]?;
    let mut front = vec![in alloc; 0; gaps.len()]?;
    let columns = SpacedColumns {
        cols,
        gaps: Gaps { list: gaps },
    };
    place_new(columns, force, &mut at, &mut front);
    Ok(Row { items: at })
}
