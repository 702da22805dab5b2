ghost use Rattle.std.specs.Prelude.{◌≡◌, ◌+◌, ◌<◌, ◌≤◌, ◌^◌, ◌==◌, ℕ, All, IfOk, length, map, slice_index};
ghost use Rattle.std.specs.List.{AllZip};
ghost use Rattle.mus_laid.specs.Boxes.{AreGoodMarks};
ghost use Rattle.lay_tune.specs.Measured.{IsMeasured};
ghost use Rattle.lay_tune.specs.Systems.{AllSpans, CanBeSet, EachSpan, HaveForce, IsJustified, IsSetSystem};
ghost use Rattle.lay_tune.specs.Systems.{IsStack};

use crate::gaps::gaps_between;
use lay_pages::{Heights, stack};
use lay_reaches::Column;
use lay_rows::Rows;
use lay_spans::{BorrowedColumn, Measures, columns_in};
use lay_springs::{Placed, SpacedColumns, justify_columns};
use mus_laid::SystemMarks;
use mus_marks::{DrawnScore, tilt_of};
use mus_onsets::ColumnKey;
use mus_units::{Memory, Row};
use std::alloc::Global;

/// A drawn score and what its systems are set by: its measures and the width, in u.
#[derive(Drop)]
pub(crate) struct Measured<'a> {
    pub(crate) drawn: DrawnScore<'a>,
    pub(crate) measures: &'a Measures<'a, Column>,
    pub(crate) width: u32,
}

/// Returns the columns placed at their greatest force and set to the width.
fn press(
    alloc: Global,
    measured: &Measured<'_>,
    cols: &[BorrowedColumn<Column>],
    force: u16,
    last: bool,
) -> Result<Placed, Memory>
    requires fits { HaveForce measured.now.measures.now.gaps.list.now measured.now.width force
        (map (λ s. s.column.now) cols.now) }
    ensures { IfOk result (IsJustified measured.now.measures.now.gaps.list.now measured.now.width last
        (map (λ s. s.column.now) cols.now)) }
{
    let columns = SpacedColumns {
        cols,
        gaps: measured.measures.gaps,
    };
    justify_columns(alloc, columns, measured.width, force, last)
}

/// Returns the keys of columns.
fn keys_in(alloc: Global, columns: &[BorrowedColumn<Column>]) -> Result<Row<ColumnKey>, Memory>
    ensures { IfOk result (λ keys. keys ≡ map (λ c. c.key) (map (λ s. s.column.now) columns.now)) }
{
    let mut keys = Row::with_room(alloc, columns.len())?;
    for seen in columns {
        keys.push(seen.column.key)?;
    }
    Ok(keys)
}

/// A system: its marks, tilted over the abscissas of its columns, and how its staves are stacked.
#[derive(Drop)]
struct SetSystem {
    marks: SystemMarks,
    placed: Placed,
    heights: Heights,
}

/// Returns the system of measures `a` to `b` - 1.
fn set_system(
    alloc: Global,
    measured: &Measured<'_>,
    a: u32,
    b: u32,
    rows: &Rows,
) -> Result<SetSystem, Memory>
    requires measured { IsMeasured measured.now }
    requires fits { CanBeSet measured.now.drawn.score.now measured.now.width rows.now.rows a b }
    ensures system { IfOk result
        (λ set. IsSetSystem measured.now.drawn.score.now measured.now.width a b set.marks set.placed) }
    ensures heights { IfOk result (λ set. IsStack measured.now.drawn.score.now set.marks set.heights) }
    ensures good { IfOk result (λ set. All (λ staff. AreGoodMarks staff.marks) set.marks.staves) }
{
    let Some(force) = rows.force(a, b) else {
        unreachable!();
    };
    let score = measured.drawn.score;
    let seen = columns_in(alloc, measured.measures, a as usize, b as usize)?;
    let columns = seen.as_slice();
    let last = b == score.measures;
    let placed = press(alloc, measured, columns, force, last)?;
    let keys = keys_in(alloc, columns)?;
    let at = placed.at.as_slice();
    let marks = tilt_of(alloc, &measured.drawn, a, b, keys, at)?;
    let between = gaps_between(alloc, score.voices.as_slice())?;
    let heights = stack(alloc, &marks, between.as_slice())?;
    Ok(SetSystem {
        marks,
        placed,
        heights,
    })
}

/// The systems of a breaking, in order: their marks, the abscissas of their columns, and how their
/// staves are stacked.
#[derive(Drop)]
pub(crate) struct Systems {
    pub(crate) marks: Row<SystemMarks>,
    pub(crate) placed: Row<Placed>,
    pub(crate) heights: Row<Heights>,
}

/// Returns the systems of the breaking that ends its spans at `breaks`.
pub(crate) fn set_systems(
    alloc: Global,
    measured: &Measured<'_>,
    breaks: &[u32],
    rows: &Rows,
) -> Result<Systems, Memory>
    requires measured { IsMeasured measured.now }
    requires fits { AllSpans (CanBeSet measured.now.drawn.score.now measured.now.width rows.now.rows) 0 breaks.now }
    ensures systems { IfOk result
        (λ r. EachSpan (IsSetSystem measured.now.drawn.score.now measured.now.width) 0 breaks.now r.marks r.placed) }
    ensures heights { IfOk result (λ r. AllZip (IsStack measured.now.drawn.score.now) r.marks r.heights) }
    ensures good { IfOk result (λ r. All (λ m. All (λ staff. AreGoodMarks staff.marks) m.staves) r.marks) }
{
    let mut marks = Row::with_room(alloc, breaks.len())?;
    let mut placed = Row::with_room(alloc, breaks.len())?;
    let mut heights = Row::with_room(alloc, breaks.len())?;
    let mut a = 0;
    for b in breaks {
        let set = set_system(alloc, measured, a, *b, rows)?;
        marks.push(set.marks)?;
        placed.push(set.placed)?;
        heights.push(set.heights)?;
        a = *b;
    }
    Ok(Systems {
        marks,
        placed,
        heights,
    })
}
