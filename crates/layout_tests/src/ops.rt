//! The lines of marks on a page, written and read.

use case_texts::{CaseError, Report, number_at, numbers_of, small_at};
use mus_units::{Glyph, Row, Size, Text, Way};
use ps_text::{PageMark, read_op, write_op};
use std::alloc::Global;

/// Returns a mark by its kind and its numbers.
fn mark_of(kind: &str, numbers: &Row<i64>) -> Result<PageMark, CaseError> {
    let x = number_at(numbers, 1)?;
    match kind {
        "glyph" => Ok(PageMark::Glyph {
            glyph: Glyph::Cg,
            x,
            dx: small_at(numbers, 2)?,
            dy: small_at(numbers, 3)?,
        }),
        "stem" => Ok(PageMark::Stem {
            x,
            dx: small_at(numbers, 2)?,
            from: small_at(numbers, 3)?,
            to: small_at(numbers, 4)?,
        }),
        "beam" => Ok(PageMark::Beam {
            way: Way::Up,
            x1: x,
            x2: number_at(numbers, 2)?,
            from: small_at(numbers, 3)?,
            to: small_at(numbers, 4)?,
        }),
        _ => Ok(PageMark::Arc {
            x1: x,
            x2: number_at(numbers, 2)?,
            from: small_at(numbers, 3)?,
            to: small_at(numbers, 4)?,
            bulge: small_at(numbers, 5)?,
        }),
    }
}

/// Returns the mark of a text at a place.
fn words_of(alloc: Global, numbers: &Row<i64>, text: &[u8]) -> Result<PageMark, CaseError> {
    Ok(PageMark::Words {
        size: Size::Small,
        x: number_at(numbers, 1)?,
        dx: small_at(numbers, 2)?,
        dy: small_at(numbers, 3)?,
        text: Text::from_slice(alloc, text)?,
    })
}

/// Adds the line of a mark on a staff of a height, or that it has none.
pub(crate) fn put_mark_line(out: &mut Report, mark: &PageMark, y: i64) -> Result<(), CaseError> {
    match write_op(out.alloc, mark, y)? {
        Some(line) => out.next(line.as_slice())?,
        None => out.next(b"no line")?,
    }
    out.end_line()
}

/// Adds the line of a mark on a staff whose height is the first number.
pub(crate) fn put_mark(out: &mut Report, kind: &str, words: &str) -> Result<(), CaseError> {
    let numbers = numbers_of(out.alloc, words)?;
    put_mark_line(out, &mark_of(kind, &numbers)?, number_at(&numbers, 0)?)
}

/// Adds the line of a text on a staff whose height is the first number.
pub(crate) fn put_words(out: &mut Report, words: &str, text: &[u8]) -> Result<(), CaseError> {
    let numbers = numbers_of(out.alloc, words)?;
    let mark = words_of(out.alloc, &numbers, text)?;
    put_mark_line(out, &mark, number_at(&numbers, 0)?)
}

/// Adds for each line the line of the mark that it is read as, on a staff of a height.
pub(crate) fn put_read(out: &mut Report, words: &str, text: &[u8]) -> Result<(), CaseError> {
    let y = number_at(&numbers_of(out.alloc, words)?, 0)?;
    for line in text.split(|byte| *byte == b'\n') {
        put_read_line(out, line, y)?;
    }
    Ok(())
}

fn put_read_line(out: &mut Report, line: &[u8], y: i64) -> Result<(), CaseError> {
    match read_op(out.alloc, line, y)? {
        Some(mark) => put_mark_line(out, &mark, y),
        None => out.next(b"no mark\n"),
    }
}
