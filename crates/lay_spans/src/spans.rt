ghost use Rattle.std.specs.Prelude.{◌≡◌, ◌+◌, ◌<◌, ◌≤◌, IfOk, length, map};
ghost use Rattle.lay_breaks.specs.Spans.{AreSpans};
ghost use Rattle.lay_spans.specs.Columns.{span_columns};
ghost use Rattle.lay_spans.specs.Forced.{is_forced};
ghost use Rattle.lay_spans.specs.{Rows.{HaveForces}, SpanList.{IsSpanList}};

use crate::costs::FittingSpans;
use crate::maker::SpanMaker;
use crate::marks::marks_of;
use crate::measures::Measures;
use crate::rows::{MOST_OFTEN, list_rows, measure, see};
use crate::seen::BorrowedColumn;
use eng_jobs::Jobs;
use lay_rows::make_rows;
use lay_springs::{LinearSpring, Spaced};
use mus_units::{Memory, Row};
use std::alloc::Global;
use std::thread::Threads;

/// What determines which spans of measures fit: the measures, the width of a system, in u, and the
/// bars after which a system has to end.
#[derive(Drop)]
pub struct SpanInput<'a, C: Spaced> {
    pub measures: &'a Measures<'a, C>,
    pub width: u32,
    pub forced: &'a [u32],
}

/// Returns the spans of measures that fit within the width, by the bar after which they begin
/// and then by the bar with which they end.
///
/// The span from bar a to bar b has the measures a to b - 1, counted from 0. A span
/// with a forced bar strictly inside isn't listed. Bars in `forced` that the tune doesn't have are
/// ignored.
///
/// The spans from the bars of either half are found in parallel if threads can be made. The result
/// doesn't depend on it.
pub fn spans_of<'a, R: Threads + Sync, C: Spaced + LinearSpring + Sync>(
    rt: &R,
    alloc: Global,
    input: &SpanInput<'a, C>,
    jobs: Jobs,
) -> Result<FittingSpans, Memory>
    ensures form { IfOk result (λ spans. AreSpans (length input.now.measures.now.starts.now) spans.list) }
    ensures bars { IfOk result (λ spans. length spans.rows.rows ≡ length input.now.measures.now.starts.now) }
    ensures forces { IfOk result
        (λ spans. HaveForces C.reach_of C.length_of input.now.measures.now.gaps.list.now input.now.width
        input.now.measures.now.starts.now input.now.measures.now.others.now
        (is_forced (length input.now.measures.now.starts.now) input.now.forced.now) spans.rows.rows) }
    ensures exact { IfOk result
        (λ spans. IsSpanList C.reach_of C.length_of input.now.measures.now.gaps.list.now input.now.width
        input.now.measures.now.starts.now input.now.measures.now.others.now
        (is_forced (length input.now.measures.now.starts.now) input.now.forced.now) spans.list) }
{
    let SpanInput {
        measures,
        width,
        forced,
    } = *input;
    let marks = marks_of(alloc, forced, measures.starts.len())?;
    let maker = SpanMaker {
        alloc,
        measures,
        width,
        marks: marks.as_slice(),
    };
    let rows = make_rows(rt, alloc, &maker, measures.starts.len() as u32, jobs)?;
    let list = list_rows(alloc, rows.rows.as_slice())?;
    Ok(FittingSpans { list, rows })
}

/// Returns the columns of the span from bar `a` to bar `b`, as `spans_of` has it, in order.
pub fn columns_in<'a, C: Spaced + LinearSpring>(
    alloc: Global,
    measures: &Measures<'a, C>,
    a: usize,
    b: usize,
) -> Result<Row<BorrowedColumn<'a, C>>, Memory>
    requires order { a < b }
    requires within { b ≤ length measures.now.starts.now }
    ensures { IfOk result (λ seen. map (λ s. s.column.now) seen ≡ span_columns measures.now.starts.now
        measures.now.others.now a b) }
{
    let mut seen = Row::with_room(alloc, MOST_OFTEN)?;
    for m in a..b {
        see(&mut seen, measure(measures, a, m))?;
    }
    Ok(seen)
}
