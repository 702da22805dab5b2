ghost use Rattle.std.specs.Prelude.{◌≡◌, ◌-◌, ◌<◌, ◌≤◌, ℕ, List, IfOk, flat_map, length};
ghost use Rattle.lay_rows.specs.Tables.{AreRowsOf, IsForceTable};

use crate::parts::parts_of;
use crate::ranges::BarRange;
use crate::rows::Rows;
use eng_jobs::{Jobs, Work, work_all};
use mus_units::{Memory, Row};
use std::alloc::Global;
use std::thread::Threads;

/// A table of the forces of spans that is made row by row.
///
/// The maker itself holds all that a row is made from, so that several threads may share it.
pub trait RowMaker {
    ghost use Rattle.std.specs.Prelude.{◌≡◌, ◌-◌, ◌<◌, ◌≤◌, ℕ, List, All, IfOk};
    ghost use Rattle.lay_rows.specs.Tables.{AreRowsOf};

    // the number of rows of the table
    ghost bars: { Self → ℕ };

    // the row of a bar: the forces of the spans from it that fit, the shortest first
    ghost is_row: { Self → ℕ → List ℕ → Type 0 };

    /// Returns the rows of the bars from `from` up to, and without, `to`. They are made one after
    /// another, so a maker may reuse for one row the memory that it took for the row before. The only
    /// error is `Memory`.
    fn rows_between(&self, from: u32, to: u32) -> Result<Row<Row<u16>>, Memory>
        requires order { from ≤ to }
        requires within { to ≤ bars self.now }
        ensures { IfOk result (λ rows. AreRowsOf (is_row self.now) from (to - from) rows) };

    // a bar has one row
    ghost is_one: { (m : Self) (a : ℕ) (row other : List ℕ)
        → a < bars m → is_row m a row → is_row m a other → row ≡ other };

    // no force passes 2048
    ghost is_low: { (m : Self) (a : ℕ) (row : List ℕ)
        → a < bars m → is_row m a row → All (λ force. force ≤ 2048) row };
}

/// The work of a maker on parts of its bars.
#[derive(Drop)]
struct Making<'a, M> {
    maker: &'a M,
}

impl<'a, M: RowMaker> Work<BarRange, Row<Row<u16>>> for Making<'a, M> {
    ghost takes = { λ w part. part.to ≤ M.bars w.maker.now };

    ghost gives = { λ w part rows. AreRowsOf (M.is_row w.maker.now) part.from (part.to - part.from) rows };

    fn work(&self, part: BarRange, _jobs: Jobs) -> Result<Row<Row<u16>>, Memory> {
        self.maker.rows_between(part.from, part.to)
    }
}

/// Returns the rows of the parts as one list.
fn joined(alloc: Global, parts: Row<Row<Row<u16>>>, n: u32) -> Result<Row<Row<u16>>, Memory>
    ensures { IfOk result (λ rows. rows ≡ flat_map (λ part. part) parts) }
{
    let mut rows = Row::with_room(alloc, n as usize)?;
    for part in parts.items {
        rows.append(part)?;
    }
    Ok(rows)
}

/// Returns the table of a maker of `n` rows. It doesn't depend on the number of jobs.
///
/// The bars are divided into as many parts as there are jobs. The parts are made in parallel if
/// threads can be made.
pub fn make_rows<R: Threads + Sync, M: RowMaker + Sync>(
    rt: &R,
    alloc: Global,
    maker: &M,
    n: u32,
    jobs: Jobs,
) -> Result<Rows, Memory>
    requires bars { n ≡ M.bars maker.now }
    requires short { n ≤ 4000 }
    requires within { (a : ℕ) (row : List ℕ) → a < n → M.is_row maker.now a row → length row ≤ n - a }
    ensures { IfOk result (λ made. IsForceTable (M.is_row maker.now) n made.rows) }
{
    let parts = parts_of(alloc, n, jobs)?;
    let made = work_all(rt, alloc, parts, jobs, &Making { maker })?;
    let rows = joined(alloc, made, n)?;
    Ok(Rows { rows })
}
