//! Columns in two lanes, placed at a force, and the badness of forces.

ghost use Rattle.std.specs.Prelude.{◌≤◌, ◌<◌, length};

use crate::stopped::StoppedColumn;
use case_texts::{Case, CaseError, Mistake, Report, count_at, number_at, numbers_of, put_placed};
use lay_reaches::Column;
use lay_rows::badness;
use lay_springs::{
    Gaps, Placing, Progress, Reach, Spaced, SpacedColumns, Spring, fit, justify, place,
};
use mus_onsets::{Class, ColumnKey};
use mus_units::Row;
use std::alloc::Global;

/// The gaps of the two lanes.
const GAPS: [u32; 2] = [100, 300];

/// Returns a column by its line: how far it reaches to the left and to the right, how many lanes it is in, 1 or 2,
/// and its natural length.
fn column_of(alloc: Global, line: &str) -> Result<Column, CaseError> {
    let numbers = numbers_of(alloc, line)?;
    let reach = Some(Reach {
        left: count_at(&numbers, 0)?,
        right: count_at(&numbers, 1)?,
    });
    let other = if number_at(&numbers, 2)? == 2 {
        reach
    } else {
        None
    };
    Ok(Column {
        key: ColumnKey {
            measure: 0,
            tick: 0,
            class: Class::Note,
            place: 0,
        },
        reaches: Row::from_slice(alloc, &[reach, other])?.into(),
        natural: count_at(&numbers, 3)?,
    })
}

fn columns_of(alloc: Global, text: &str) -> Result<Row<Column>, CaseError> {
    let mut columns = Row::new(alloc);
    for line in text.lines() {
        columns.push(column_of(alloc, line)?)?;
    }
    Ok(columns)
}

fn put_force(out: &mut Report, force: Option<u16>) -> Result<(), CaseError> {
    match force {
        Some(force) => out.tell(force)?,
        None => out.next(b"none")?,
    }
    out.end_line()
}

/// Returns the force of a number.
fn force_of(number: u32) -> Result<u16, CaseError> {
    u16::try_from(number).map_err(|_| CaseError::Wrong(Mistake::OutOfRange))
}

/// Adds the least places of columns at a force.
fn put_places(out: &mut Report, columns: &[Column], force: u16) -> Result<(), CaseError>
    requires some { 0 < length columns.now }
    requires few { length columns.now ≤ 200000 }
{
    let places = place(out.alloc, columns, &GAPS, force)?;
    out.tell_all(places.as_slice())?;
    out.end_line()
}

/// Adds the greatest force at which columns end within a width.
fn put_fit(out: &mut Report, columns: &[Column], width: u32) -> Result<(), CaseError>
    requires some { 0 < length columns.now }
    requires few { length columns.now ≤ 200000 }
{
    let mut scratch = vec![in out.alloc; 0i64; columns.len() + GAPS.len()]?;
    put_force(out, fit(columns, &GAPS, width, &mut scratch))
}

/// Adds the greatest force of 0 to `most` at which columns end within a width.
fn put_within(out: &mut Report, columns: &[Column], width: u32, most: u32) -> Result<(), CaseError>
    requires some { 0 < length columns.now }
    requires few { length columns.now ≤ 200000 }
{
    let most = u16::try_from(most).unwrap_or(0).min(2048);
    let mut at = vec![in out.alloc; 0i64; columns.len()]?;
    let front = &mut [0i64; 2];
    let columns = SpacedColumns {
        cols: columns,
        gaps: Gaps { list: &GAPS },
    };
    let mut placing = Placing {
        columns,
        at: &mut at,
        front,
        progress: Progress::none(),
    };
    let found = placing.search_within(width, most);
    put_force(out, found.force)
}

/// Adds columns set to a width.
fn put_set<C: Spaced + Spring>(
    out: &mut Report,
    columns: &[C],
    width: u32,
    last: bool,
) -> Result<(), CaseError>
    requires some { 0 < length columns.now }
    requires few { length columns.now ≤ 200000 }
{
    let mut scratch = vec![in out.alloc; 0i64; columns.len() + GAPS.len()]?;
    let Some(force) = fit(columns, &GAPS, width, &mut scratch) else {
        return put_force(out, None);
    };
    put_placed(
        out,
        &justify(out.alloc, columns, &GAPS, width, force, last)?,
    )
}

/// Returns a column by its line, with the length at which its spring stops as a fifth number.
fn stopped_column_of(alloc: Global, line: &str) -> Result<StoppedColumn, CaseError> {
    let numbers = numbers_of(alloc, line)?;
    Ok(StoppedColumn {
        column: column_of(alloc, line)?,
        longest: count_at(&numbers, 4)?,
    })
}

/// Adds columns whose springs stop at a length, set to a width.
pub(crate) fn put_stopped(out: &mut Report, case: Case<'_>) -> Result<(), CaseError> {
    let width = count_at(&numbers_of(out.alloc, case.word)?, 0)?;
    let mut columns = Row::new(out.alloc);
    for line in case.input.lines() {
        columns.push(stopped_column_of(out.alloc, line)?)?;
    }
    if columns.len() == 0 || columns.len() > 1000 {
        return out.next(b"no columns\n");
    }
    put_set(out, columns.as_slice(), width, false)
}

/// Adds the value of a call on plain columns: `place F`, `fit W`, `within W M` with the greatest force that may be
/// tried, `set W` and `last W`.
pub(crate) fn put_plain(out: &mut Report, case: Case<'_>) -> Result<(), CaseError> {
    let numbers = numbers_of(out.alloc, case.word)?;
    let first = count_at(&numbers, 0)?;
    let second = if case.call == "within" {
        count_at(&numbers, 1)?
    } else {
        0
    };
    let columns = columns_of(out.alloc, case.input)?;
    if columns.len() == 0 || columns.len() > 1000 {
        return out.next(b"no columns\n");
    }
    put_of_columns(out, case.call, columns.as_slice(), first, second)
}

fn put_of_columns(
    out: &mut Report,
    call: &str,
    columns: &[Column],
    first: u32,
    second: u32,
) -> Result<(), CaseError>
    requires some { 0 < length columns.now }
    requires few { length columns.now ≤ 200000 }
{
    match call {
        "place" => put_places(out, columns, force_of(first)?),
        "fit" => put_fit(out, columns, first),
        "within" => put_within(out, columns, first, second),
        "set" => put_set(out, columns, first, false),
        _ => put_set(out, columns, first, true),
    }
}

/// Adds the badness of a span at a force, and of a last one.
pub(crate) fn put_badness(out: &mut Report, words: &str) -> Result<(), CaseError> {
    let force = force_of(count_at(&numbers_of(out.alloc, words)?, 0)?)?;
    out.tell_all(&[badness(force, false), badness(force, true)])?;
    out.end_line()
}
