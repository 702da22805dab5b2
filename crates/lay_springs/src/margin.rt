ghost use Rattle.std.specs.Prelude.{◌≡◌, ◌+◌, ◌*◌, ◌^◌, ◌<◌, ◌≤◌, ◌-◌, ◌/◌, ℕ, ℤ, pos, ◌+ℤ◌, ◌≤ℤ◌, IfOk, length};
ghost use Rattle.std.specs.Prelude.{slice_index, slice_index_or};
ghost use Rattle.lay_springs.specs.{Fit.{IsEndOf, Fits}, Justified.IsJustifiedAt, Place.{reach_at, length_at}};
ghost use Rattle.lay_springs.specs.Spaced.{AreJustified, AreSetTo, FitAt, KeepApart};

use crate::columns::{Gaps, SpacedColumns};
use crate::forces::end_of;
use crate::least::place_new;
use crate::traits::{Spaced, Spring};
use mus_units::{Memory, Row};
use std::alloc::Global;

/// The abscissas of columns, in u, and the force that counts. A ragged system ends where its force
/// leaves it.
#[derive(Drop)]
pub struct Placed {
    pub force: u16,
    pub ragged: bool,
    pub at: Row<i64>,
}

/// Moves each abscissa right by its part of `rest`.
fn spread(at: &mut [i64], rest: u32)
    requires some { 1 < length at.old }
    requires few { length at.old ≤ 2 ^ 26 }
    requires small { (k : ℕ) → k < length at.old
        → (pos 0 ≤ℤ slice_index_or at.old k (pos 0)) × (slice_index_or at.old k (pos 0) ≤ℤ pos (2 ^ 48)) }
    ensures { (k : ℕ) → k < length at.old
        → slice_index_or at.new k (pos 0) ≡ (slice_index_or at.old k (pos 0) +ℤ pos (rest * k / (length at.old - 1))) }
{
    let last = at.len() - 1;
    for k in 0..at.len() {
        at[k] += share(rest, k, last);
    }
}

/// Returns the part of `rest` that goes to place k of `last`.
fn share(rest: u32, k: usize, last: usize) -> i64
    requires some { 0 < last }
    requires within { k ≤ last }
    requires few { last ≤ 2 ^ 26 }
    ensures value { result ≡ pos (rest * k / last) }
    ensures bound { result ≤ℤ pos rest }
{
    (u64::from(rest) * k as u64 / last as u64) as i64
}

/// Returns what the width leaves past the end.
fn rest_of<C: Spaced>(columns: SpacedColumns<'_, C>, width: u32, at: &[i64]) -> u32
    requires room { length at.now ≡ length columns.cols.now }
    requires begins { pos 0 ≤ℤ slice_index_or at.now (length columns.cols.now - 1) (pos 0) }
    requires small { slice_index_or at.now (length columns.cols.now - 1) (pos 0) ≤ℤ pos (2 ^ 60) }
    requires fits { (e : ℤ) → IsEndOf (reach_at C.reach_of columns.cols.now (length columns.cols.now - 1))
        (length columns.gaps.list.now)
        (slice_index_or at.now (length columns.cols.now - 1) (pos 0)) e → e ≤ℤ pos width }
    ensures { (e : ℤ) × IsEndOf (reach_at C.reach_of columns.entry.cols.now (length columns.entry.cols.now - 1))
        (length columns.entry.gaps.list.now)
        (slice_index_or at.now (length columns.entry.cols.now - 1) (pos 0)) e × ((e +ℤ pos result) ≡ pos width) }
{
    let SpacedColumns { cols, gaps, .. } = columns;
    let last = cols.len() - 1;
    (i64::from(width) - end_of(&cols[last], gaps.list.len(), at[last])) as u32
}

/// Places the columns and sets them to the width.
fn set<C: Spaced + Spring>(
    columns: SpacedColumns<'_, C>,
    width: u32,
    force: u16,
    at: &mut [i64],
    front: &mut [i64],
)
    requires room { length at.old ≡ length columns.cols.now }
    requires one_each { length front.old ≡ length columns.gaps.list.now }
    requires fits { FitAt C.reach_of C.length_of columns width force }
    ensures set { AreSetTo C.reach_of C.length_of columns.entry width force at.new }
    ensures apart { KeepApart C.reach_of C.length_of columns.entry force at.new }
{
    place_new(columns, force, at, front);
    let cols = columns.cols;
    if cols.len() == 1 {
        return;
    }
    let rest = rest_of(columns, width, at);
    spread(at, rest);
}

/// Sets the columns to the width, at a force at which they end within it: column k of n moves right
/// by `rest * k / (n - 1)`, where `rest` is what the width leaves past the end. A last system at a
/// force of 256 or more is ragged and stays as placed at 256.
pub fn justify_columns<C: Spaced + Spring>(
    alloc: Global,
    columns: SpacedColumns<'_, C>,
    width: u32,
    force: u16,
    last: bool,
) -> Result<Placed, Memory>
    requires fits { FitAt C.reach_of C.length_of columns width force }
    ensures { IfOk result (AreJustified C.reach_of C.length_of columns.entry width last force) }
{
    let mut at = vec![in alloc; 0; columns.cols.len()]?;
    let mut front = vec![in alloc; 0; columns.gaps.list.len()]?;
    if last && force >= 256 {
        place_new(columns, 256, &mut at, &mut front);
        return Ok(Placed {
            force: 256,
            ragged: true,
            at: Row { items: at },
        });
    }
    set(columns, width, force, &mut at, &mut front);
    Ok(Placed {
        force,
        ragged: false,
        at: Row { items: at },
    })
}

/// As `justify_columns`, for columns and the gap of each lane.
pub fn justify<'a, C: Spaced + Spring>(
    alloc: Global,
    cols: &'a [C],
    gaps: &'a [u32],
    width: u32,
    force: u16,
    last: bool,
) -> Result<Placed, Memory>
    requires some { 0 < length cols.now }
    requires few { length cols.now ≤ 2 ^ 26 }
    requires lanes { length gaps.now < 2 ^ 32 }
    requires narrow { (lane : ℕ) → lane < length gaps.now → slice_index gaps.now lane ≤ 2 ^ 20 }
    requires fits { Fits (length cols.now) (reach_at C.reach_of cols.now) gaps.now (length_at C.length_of cols.now)
        width force }
    ensures { IfOk result (IsJustifiedAt (length cols.now) (reach_at C.reach_of cols.now) gaps.now
        (length_at C.length_of cols.now) width last force) }
{
    let columns = SpacedColumns {
        cols,
        gaps: Gaps { list: gaps },
    };
    justify_columns(alloc, columns, width, force, last)
}
