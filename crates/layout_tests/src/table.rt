//! Costs kept as rows, and the choice among their breakings.

ghost use Rattle.std.specs.Prelude.{length, refl};
ghost use Rattle.layout_tests.specs.Table.{capped_cost, is_marked, capped_stop, capped_small};

use case_texts::{CaseError, Report, number_of, numbers_of, put_breaking, put_no_way};
use lay_breaks::{BreakError, Costs, least};
use mus_units::Row;
use std::alloc::Global;

/// Row a has the costs of the spans from bar a on, and mark b says whether bar b + 1 is forced. A cost past 2^40
/// counts as 2^40.
#[derive(Drop)]
struct Table {
    rows: Row<Row<u64>>,
    marks: Row<bool>,
}

impl Costs for Table {
    ghost bars = { λ s. length s.rows };

    ghost badness = { λ s a b. capped_cost s.rows a b };

    ghost is_forced = { λ s b. is_marked s.marks b };

    fn cost(&self, a: u32, b: u32) -> Option<u64> {
        let row = self.rows.as_slice().get(a as usize)?;
        let cost = row.as_slice().get((b - a - 1) as usize)?;
        Some(if *cost <= 1 << 40 { *cost } else { 1 << 40 })
    }

    fn forced(&self, b: u32) -> bool {
        if b == 0 {
            return false;
        }
        match self.marks.as_slice().get((b - 1) as usize) {
            Some(mark) => *mark,
            None => false,
        }
    }

    ghost stays_none = { λ s a b c l m h e. capped_stop s.rows a b c l m e };

    ghost is_small = { λ s a b l h. capped_small s.rows a b };

    ghost begins_free = { λ s. refl };
}

/// Returns the costs of a line; a line of `-` has none.
fn row_of(alloc: Global, line: &str) -> Result<Row<u64>, CaseError> {
    let mut row = Row::new(alloc);
    if line != "-" {
        for word in line.split(' ') {
            row.push(number_of::<u64>(word)?)?;
        }
    }
    Ok(row)
}

fn rows_of(alloc: Global, text: &str) -> Result<Row<Row<u64>>, CaseError> {
    let mut rows = Row::new(alloc);
    for line in text.lines() {
        rows.push(row_of(alloc, line)?)?;
    }
    Ok(rows)
}

/// Returns the table of a text, and a mark for each number of the words: 1 if its bar is forced.
fn table_of(alloc: Global, words: &str, text: &str) -> Result<Table, CaseError> {
    let mut marks = Row::new(alloc);
    for number in numbers_of(alloc, words)?.as_slice() {
        marks.push(*number == 1)?;
    }
    Ok(Table {
        rows: rows_of(alloc, text)?,
        marks,
    })
}

/// Adds the choice among the breakings of a table.
pub(crate) fn put_least(out: &mut Report, words: &str, text: &str) -> Result<(), CaseError> {
    let table = table_of(out.alloc, words, text)?;
    let bars = table.rows.len();
    if bars > 1000 {
        return out.next(b"too many bars\n");
    }
    match least(out.alloc, &table, bars as u32) {
        Ok(breaking) => put_breaking(out, &breaking),
        Err(BreakError::NoWay { reached }) => put_no_way(out, reached),
        Err(BreakError::Memory) => Err(CaseError::Memory),
    }
}
