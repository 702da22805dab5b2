ghost use Rattle.std.specs.Prelude.{◌≡◌, ◌≤◌, ◌<◌, ◌^◌, ◌-◌, ℕ, IfOk, length, slice_index};
ghost use Rattle.mus_score.specs.GoodScore.{IsGoodScore};
ghost use Rattle.{lay_reaches.specs.Columns.{column_reach}, lay_spans.specs.Columns.{AreMeasures}};
ghost use Rattle.lay_tune.specs.{Measures.{EachFurther, EachMeasure, IsMeasure}, Spans.verses_of};

use lay_columns::{further_columns, further_of, measure_columns};
use lay_reaches::Column;
use lay_spans::{BorrowedColumns, Measures};
use lay_springs::Gaps;
use mus_marks::DrawnScore;
use mus_score::Score;
use mus_units::{Memory, Row};
use std::alloc::Global;

/// The columns of each measure in a system that begins with it; and its own in a system that begins
/// with the measure before it, if they differ from those after the head.
#[derive(Drop)]
pub(crate) struct MeasureColumns {
    pub(crate) starts: Row<Row<Column>>,
    pub(crate) own: Row<Option<Row<Column>>>,
}

/// Returns the columns of all measures of a drawn score.
pub(crate) fn columns_of_measures(
    alloc: Global,
    drawn: &DrawnScore<'_>,
    verses: &[u8],
) -> Result<MeasureColumns, Memory>
    requires verses { verses.now ≡ verses_of drawn.now.score.now }
    requires heard { 0 < drawn.now.score.now.measures → 1 ≤ length drawn.now.score.now.voices }
    ensures starts { IfOk result (λ r.
        EachMeasure (λ m. IsMeasure drawn.now.score.now m m) drawn.now.score.now.measures r.starts) }
    ensures own { IfOk result (λ r. EachFurther drawn.now.score.now drawn.now.score.now.measures r.own) }
{
    let measures = drawn.score.measures as usize;
    let mut starts = Row::with_room(alloc, measures)?;
    let mut own = Row::with_room(alloc, measures)?;
    for m in 0..drawn.score.measures {
        let begun = measure_columns(alloc, drawn, m, m, verses)?;
        let further = further_columns(alloc, drawn, m, verses)?;
        starts.push(begun)?;
        own.push(further)?;
    }
    Ok(MeasureColumns { starts, own })
}

/// Returns the columns of each measure in a system that begins with the measure before it, if there
/// is one.
pub(crate) fn others_of<'a>(
    alloc: Global,
    s: &Score,
    columns: &'a MeasureColumns,
) -> Result<Row<BorrowedColumns<'a, Column>>, Memory>
    requires good { IsGoodScore s.now }
    requires heard { 0 < s.now.measures → 1 ≤ length s.now.voices }
    requires starts { EachMeasure (λ m. IsMeasure s.now m m) s.now.measures columns.now.starts }
    requires own { EachFurther s.now s.now.measures columns.now.own }
    ensures { IfOk result (EachMeasure (λ m. IsMeasure s.now (m - 1) m) s.now.measures) }
{
    let (starts, own) = (columns.starts.as_slice(), columns.own.as_slice());
    let mut others = Row::with_room(alloc, starts.len())?;
    for m in 0..s.measures {
        let begun = starts[m as usize].as_slice();
        let columns = further_of(m, begun, &own[m as usize]);
        others.push(BorrowedColumns { columns })?;
    }
    Ok(others)
}

/// Returns the measures with these columns, which keep the gaps of the list.
pub(crate) fn measures_in<'a>(
    starts: &'a [Row<Column>],
    others: &'a [BorrowedColumns<'a, Column>],
    list: &'a [u32],
) -> Measures<'a, Column>
    requires measures { AreMeasures column_reach (length list.now) starts.now others.now }
    requires lanes { length list.now < 2 ^ 32 }
    requires narrow { (lane : ℕ) → lane < length list.now → slice_index list.now lane ≤ 2 ^ 20 }
    ensures starts { result.starts.now ≡ starts.now }
    ensures others { result.others.now ≡ others.now }
    ensures gaps { result.gaps.list.now ≡ list.now }
{
    Measures {
        starts,
        others,
        gaps: Gaps { list },
    }
}
