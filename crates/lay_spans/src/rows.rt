ghost use Rattle.std.specs.Prelude.{◌≡◌, ◌+◌, ◌-◌, ◌<◌, ◌≤◌, ◌^◌, ◌++◌, ℕ, IfNone, IfOk, IfSome, OnOk, length, map};
ghost use Rattle.std.specs.Prelude.{slice_index_or, false, []};
ghost use Rattle.lay_springs.specs.{Fit.most_columns, Place.{reach_at, length_at, HasPlaced}};
ghost use Rattle.lay_spans.specs.Columns.{measures_from};
ghost use Rattle.lay_spans.specs.Rows.{IsRowFrom, row_spans, rows_spans};
ghost use Rattle.lay_spans.specs.SpanList.{FitsAt, FitsAtForce};

use crate::maker::SpanMaker;
use crate::measures::Measures;
use crate::seen::BorrowedColumn;
use lay_breaks::Span;
use lay_rows::badness;
use lay_springs::{Gaps, LinearSpring, Placing, Progress, Spaced, SpacedColumns, most_columns};
use mus_units::{Memory, Row};
use std::alloc::Global;

/// The capacity for columns that is reserved at once; most spans of a breaking have no more.
pub(crate) const MOST_OFTEN: usize = 64;

/// The capacity for spans that is reserved for a row; most rows have no more.
const SPANS_OFTEN: usize = 8;

/// What a search for a force is given: the gaps that columns keep, the width, in u, and the greatest
/// force that counts.
#[derive(Clone, Copy)]
struct Search<'a> {
    gaps: Gaps<'a>,
    width: u32,
    most: u16,
}

/// Returns the greatest force from 0 to `most` at which the columns end within the width. `None`
/// exactly when they can't be within it; more than `most_columns` never can.
fn greatest_force<C: Spaced + LinearSpring>(
    cols: &[C],
    search: Search<'_>,
    at: &mut [i64],
    front: &mut [i64],
    placed: &mut Progress,
) -> Option<u16>
    requires some { 0 < length cols.now }
    requires most { search.most ≤ 2048 }
    requires room { length cols.now ≤ length at.old }
    requires one_each { length front.old ≡ length search.gaps.list.now }
    requires placed { HasPlaced (length cols.now) (reach_at C.reach_of cols.now) search.gaps.list.now
        (length_at C.length_of cols.now) placed.old at.old front.old }
    ensures placed { HasPlaced (length cols.now) (reach_at C.reach_of cols.now) search.entry.gaps.list.now
        (length_at C.length_of cols.now) placed.new at.new front.new }
    ensures bound { IfSome result (λ f. f ≤ search.entry.most) }
    ensures fits { IfSome result (λ f. FitsAt C.reach_of C.length_of search.entry.gaps.list.now search.entry.width f
        cols.now) }
    ensures greatest { IfSome result (λ f. (g : ℕ) → f < g → g ≤ search.entry.most
        → FitsAtForce C.reach_of C.length_of search.entry.gaps.list.now search.entry.width g cols.now → ⊥) }
    ensures none { IfNone result (FitsAtForce C.reach_of C.length_of search.entry.gaps.list.now search.entry.width 0
        cols.now → ⊥) }
{
    let Search { gaps, width, most } = search;
    if most_columns(width) < cols.len() {
        return None;
    }
    let mut placing = Placing {
        columns: SpacedColumns { cols, gaps },
        at,
        front,
        progress: *placed,
    };
    let found = placing.search_within(width, most);
    *placed = found.progress;
    found.force
}

/// Returns the columns of measure `m` in a system that begins at bar `a`.
pub(crate) fn measure<'a, C: Spaced>(measures: &Measures<'a, C>, a: usize, m: usize) -> &'a [C]
    requires past { a ≤ m }
    requires inside { m < length measures.now.starts.now }
    ensures { result.now
        ≡ slice_index_or (measures_from measures.now.starts.now measures.now.others.now a) (m - a) [] }
{
    let (starts, others) = (measures.starts, measures.others);
    if m == a {
        starts[a].as_slice()
    } else {
        let lent = &others[m];
        lent.columns
    }
}

/// Adds borrowed columns to those in `seen`.
pub(crate) fn see<'a, C: Spaced + LinearSpring>(
    seen: &mut Row<BorrowedColumn<'a, C>>,
    columns: &'a [C],
) -> Result<(), Memory>
    ensures { OnOk result (map (λ s. s.column.now) seen.new ≡ map (λ s. s.column.now) seen.old ++ columns.now) }
{
    for column in columns {
        seen.push(BorrowedColumn::of(column))?;
    }
    Ok(())
}

/// What the searches of rows write: the abscissa of each column, the frontier of each lane, and the
/// columns up to the last measure that is added. One row after another uses it, so few rows take
/// memory for it.
#[derive(Drop)]
pub(crate) struct RowSpace<'a, C: Spaced + LinearSpring> {
    at: Vec<i64>,
    front: Vec<i64>,
    seen: Row<BorrowedColumn<'a, C>>,
}

impl<'a, C: Spaced + LinearSpring> RowSpace<'a, C> {
    /// Returns space for rows of columns in a number of lanes.
    pub(crate) fn new(alloc: Global, lanes: usize) -> Result<RowSpace<'a, C>, Memory>
        ensures { IfOk result (λ space. length space.front.items ≡ lanes) }
    {
        Ok(RowSpace {
            at: Vec::with_capacity(alloc, MOST_OFTEN)?,
            front: vec![in alloc; 0; lanes]?,
            seen: Row::with_room(alloc, MOST_OFTEN)?,
        })
    }
}

/// Returns the forces of the spans from bar `a`, from the shortest to the longest that fits. It adds
/// the columns of one measure at a time, and stops at the first span that doesn't fit or after a
/// forced bar. Each search for a force resumes from the columns as the search before left them, and
/// takes no memory.
pub(crate) fn row_from<'a, C: Spaced + LinearSpring>(
    maker: &SpanMaker<'a, C>,
    space: &mut RowSpace<'a, C>,
    a: usize,
) -> Result<Row<u16>, Memory>
    requires inside { a < length maker.now.measures.now.starts.now }
    requires one_each { length space.old.front.items ≡ length maker.now.measures.now.gaps.list.now }
    ensures one_each { OnOk result (length space.new.front.items ≡ length maker.now.measures.now.gaps.list.now) }
    ensures row { IfOk result (λ row. IsRowFrom C.reach_of C.length_of maker.now.measures.now.gaps.list.now
        maker.now.width maker.now.measures.now.starts.now maker.now.measures.now.others.now
        (λ b. slice_index_or maker.now.marks.now b false) a row) }
{
    let (measures, marks) = (maker.measures, maker.marks);
    let RowSpace { at, front, seen } = space;
    at.clear();
    seen.items.clear();
    let front = front.as_mut_slice();
    let placed = &mut Progress::none();
    let mut row = Row::with_room(maker.alloc, SPANS_OFTEN)?;
    let mut most = 2048;
    for m in a..measures.starts.len() {
        see(seen, measure(measures, a, m))?;
        let cols = seen.as_slice();
        at.resize(cols.len(), 0)?;
        let search = Search {
            gaps: measures.gaps,
            width: maker.width,
            most,
        };
        let Some(force) = greatest_force(cols, search, at, front, placed) else {
            return Ok(row);
        };
        row.push(force)?;
        if marks[m + 1] {
            return Ok(row);
        }
        most = force;
    }
    Ok(row)
}

/// Adds the spans of the row of bar `a`, each with the badness of its force; the last bar is `n`.
fn add_row(out: &mut Row<Span>, n: u32, a: u32, row: &[u16]) -> Result<(), Memory>
    requires { a + length row.now < 2 ^ 32 }
    ensures { OnOk result (out.new ≡ out.old ++ row_spans n a (a + 1) row.now) }
{
    let mut b = a;
    for force in row {
        b += 1;
        out.push(Span {
            a,
            b,
            badness: badness(*force, b == n),
        })?;
    }
    Ok(())
}

/// Returns the rows as a list of spans.
pub(crate) fn list_rows(alloc: Global, rows: &[Row<u16>]) -> Result<Row<Span>, Memory>
    requires few { length rows.now ≤ 4000 }
    requires short { (a : ℕ) → a < length rows.now → length (slice_index_or rows.now a []) ≤ 4000 }
    ensures { IfOk result (λ spans. spans ≡ rows_spans (length rows.now) 0 rows.now) }
{
    let mut out = Row::new(alloc);
    let n = rows.len() as u32;
    for a in 0..n {
        add_row(&mut out, n, a, rows[a as usize].as_slice())?;
    }
    Ok(out)
}
