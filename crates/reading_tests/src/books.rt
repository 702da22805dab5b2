ghost use Rattle.{std.specs.Prelude.{IfOk}, abc_lines.specs.Good.{IsGoodBook, IsGoodLine}};

use abc_lines::{Book, Line, LineKind, TuneText, cut_book, field_text, kind_of};
use case_texts::{CaseError, Report, within_limit};
use mus_units::{Memory, Text};
use std::alloc::Global;

/// Returns the book that some bytes are.
pub(crate) fn book_of(alloc: Global, bytes: &[u8]) -> Result<Book, Memory>
    ensures { IfOk result (λ book. IsGoodBook book) }
{
    cut_book(alloc, within_limit(bytes))
}

/// Returns a line of some bytes, with line number 7.
pub(crate) fn line_of(alloc: Global, bytes: &[u8]) -> Result<Line, Memory>
    ensures { IfOk result (λ line. IsGoodLine line) }
{
    Ok(Line {
        number: 7,
        text: Text::from_slice(alloc, within_limit(bytes))?,
    })
}

/// Adds a book line by line: each line as its number and its text, and a tune's lines after `#` and its number in the
/// book.
pub(crate) fn put_book(out: &mut Report, bytes: &[u8]) -> Result<(), CaseError> {
    let book = book_of(out.alloc, bytes)?;
    put_lines(out, book.header.as_slice())?;
    put_tunes(out, book.tunes.as_slice())
}

fn put_tunes(out: &mut Report, tunes: &[TuneText]) -> Result<(), CaseError> {
    for tune in tunes {
        out.line_number(b"#", tune.ordinal)?;
        put_lines(out, tune.lines.as_slice())?;
    }
    Ok(())
}

fn put_lines(out: &mut Report, lines: &[Line]) -> Result<(), CaseError> {
    for line in lines {
        out.line_number(b"", line.number)?;
        out.push(b':')?;
        out.append(line.text.as_slice())?;
    }
    Ok(())
}

/// Adds what a line is by its first bytes.
pub(crate) fn put_line_kind(out: &mut Report, bytes: &[u8]) -> Result<(), CaseError> {
    let line = line_of(out.alloc, bytes)?;
    put_kind(out, kind_of(&line))
}

fn put_kind(out: &mut Report, kind: LineKind) -> Result<(), CaseError> {
    match kind {
        LineKind::Field { letter } => {
            out.append(b"field ")?;
            out.push(letter)
        }
        LineKind::Directive => out.append(b"directive"),
        LineKind::Music => out.append(b"music"),
    }
}

/// Adds the text of a line after its first two bytes, between angle brackets.
pub(crate) fn put_field_text(out: &mut Report, bytes: &[u8]) -> Result<(), CaseError> {
    out.push(b'<')?;
    out.append(field_text(&line_of(out.alloc, bytes)?))?;
    out.push(b'>')
}
