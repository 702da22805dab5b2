ghost use Rattle.std.specs.Prelude.{◌≡◌, ◌++◌, [], map, flat_map, IfOk, OnOk};
ghost use Rattle.std.specs.List.{range_with_len};
ghost use Rattle.mus_laid.specs.Ranked.{anchor_rank, at_rank, by_columns, with_mark, with_part, with_parts};

use crate::laid::{Laid, Mark};
use mus_units::{Memory, Row};
use std::alloc::Global;

/// The number of marks that is enough for most columns; room for it is reserved at once.
const MARKS_OF_COLUMN: usize = 8;

/// Returns the rank of the column of a glyph, words or a stem. `None` for beams and arcs, which go between columns.
pub fn anchor_rank(mark: &Mark) -> Option<u32>
    ensures { result ≡ anchor_rank mark.now }
{
    match mark {
        Mark::Glyph { rank, .. } => Some(*rank),
        Mark::Words { rank, .. } => Some(*rank),
        Mark::Stem { rank, .. } => Some(*rank),
        _ => None,
    }
}

/// Adds a mark after those of its column, if it has one.
#[tactic(auto, using(crate::proofs::ByColumns::put_there, crate::proofs::ByColumns::put_nowhere))]
fn put_mark(columns: &mut Row<Row<Laid>>, laid: Laid) -> Result<(), Memory>
    ensures { OnOk result (columns.new ≡ with_mark 0 laid columns.old) }
{
    if let Some(rank) = anchor_rank(&laid.mark) {
        let place = rank as usize;
        if place < columns.len() {
            columns.items[place].push(laid)?;
        }
    }
    Ok(())
}

/// Adds each mark of a part after those of its column.
fn put_part(columns: &mut Row<Row<Laid>>, part: Row<Laid>) -> Result<(), Memory>
    ensures { OnOk result (columns.new ≡ with_part part columns.old) }
{
    for laid in part.items {
        put_mark(columns, laid)?;
    }
    Ok(())
}

/// Adds the marks of parts, one part after another.
fn put_parts(columns: &mut Row<Row<Laid>>, parts: Row<Row<Laid>>) -> Result<(), Memory>
    ensures { OnOk result (columns.new ≡ with_parts parts columns.old) }
{
    for part in parts.items {
        put_part(columns, part)?;
    }
    Ok(())
}

/// Returns `count` empty columns.
fn empty_columns(alloc: Global, count: usize) -> Result<Row<Row<Laid>>, Memory>
    ensures { IfOk result (λ r. r ≡ map (at_rank []) (range_with_len 0 count)) }
{
    let mut columns = Row::with_room(alloc, count)?;
    for i in 0..count {
        columns.push(Row::with_room(alloc, MARKS_OF_COLUMN)?)?;
    }
    Ok(columns)
}

fn put_column(out: &mut Row<Laid>, column: Row<Laid>) -> Result<(), Memory>
    ensures { OnOk result (out.new ≡ out.old ++ column) }
{
    for laid in column.items {
        out.push(laid)?;
    }
    Ok(())
}

/// Returns the marks of columns, from left to right; room for `count` of them is reserved at once.
fn joined(alloc: Global, columns: Row<Row<Laid>>, count: usize) -> Result<Row<Laid>, Memory>
    ensures { IfOk result (λ r. r ≡ flat_map (λ column. column) columns) }
{
    let mut out = Row::with_room(alloc, count)?;
    for column in columns.items {
        put_column(&mut out, column)?;
    }
    Ok(out)
}

/// Returns how many marks there are in all.
fn count_in(parts: &[Row<Laid>]) -> usize {
    let mut count: usize = 0;
    for part in parts {
        count = count.saturating_add(part.len());
    }
    count
}

/// Returns lists of marks merged by column: in each column first the marks of the first list, then those of the
/// second, and so on. Marks in none of the columns are left out; but a single list stays as it is. The only error is
/// out of memory.
#[tactic(auto, using(crate::proofs::ByColumns::columns_joined))]
pub fn by_columns(alloc: Global, columns: usize, parts: Row<Row<Laid>>) -> Result<Row<Laid>, Memory>
    ensures { IfOk result (λ r. r ≡ by_columns columns parts) }
{
    let mut parts = parts;
    if parts.len() == 1 {
        if let Some(part) = parts.items.pop() {
            return Ok(part);
        }
    }
    let count = count_in(parts.as_slice());
    let mut placed = empty_columns(alloc, columns)?;
    put_parts(&mut placed, parts)?;
    joined(alloc, placed, count)
}
