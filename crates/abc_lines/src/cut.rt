ghost use Rattle.std.specs.Prelude.{◌≡◌, ◌≤◌, ◌<◌, ◌+◌, ◌^◌, ◌++◌, ℕ, suc, length, nat_eq, IfOk, OnOk};
ghost use Rattle.std.specs.List.{starts_with};
ghost use Rattle.abc_lines.specs.Books.{begins_tune, is_empty_line, is_end_of_part, is_joining, goes_on, added, joined};
ghost use Rattle.abc_lines.specs.Books.{whole_text, line_of_text, line_at, book_of};
ghost use Rattle.abc_lines.specs.Forward.{part_from, tune_from, tunes_from};
ghost use Rattle.abc_lines.specs.Good.{IsGoodBook};
ghost use Rattle.abc_lines.specs.Lines.{readings};

use crate::book::{Book, Line, TuneText};
use crate::kind::{after_two, is_field};
use crate::reading::{LineContent, first_line, read_line, without_mark};
use mus_units::bytes::after_blanks;
use mus_units::{Memory, Row, Text};
use std::alloc::Global;

/// A position in a book: the rest of its bytes, and the number of the line that begins there.
#[derive(Clone, Copy)]
pub struct LineCursor<'a> {
    pub rest: &'a [u8],
    pub number: u32,
}

/// Returns the file header and the tunes of a book of at most 2^30 bytes.
///
/// Lines that are empty, all comment or free text aren't listed, and a `+:` line is joined to the field before it.
/// Tunes and lines are numbered from 1.
pub fn cut_book(alloc: Global, bytes: &[u8]) -> Result<Book, Memory>
    requires { length bytes.now ≤ 2 ^ 30 }
    ensures book { IfOk result (λ book. book ≡ book_of bytes.now) }
    ensures good { IfOk result (λ book. IsGoodBook book) }
{
    let start = LineCursor {
        rest: without_mark(bytes),
        number: 1,
    };
    let mut header = Row::new(alloc);
    let place = add_part(alloc, &mut header, start)?;
    let tunes = tunes_at(alloc, place)?;
    Ok(Book { header, tunes })
}

/// Returns the tunes that begin at or after a position.
fn tunes_at(alloc: Global, place: LineCursor<'_>) -> Result<Row<TuneText>, Memory>
    requires counted { 1 ≤ place.number }
    requires within { place.number + length place.rest.now ≤ 2 ^ 30 + 1 }
    ensures { IfOk result (λ tunes. tunes ≡ tunes_from 1 place.entry.number (readings place.entry.rest.now)) }
{
    let mut tunes = Row::new(alloc);
    let mut at = place;
    'lines: while !at.rest.is_empty() {
        let (line, rest) = first_line(at.rest);
        let reading = read_line(alloc, line)?;
        if begins_tune(&reading) {
            let ordinal = tunes.len() as u32 + 1;
            let (tune, next) = tune_at(alloc, ordinal, reading, at.number, rest)?;
            tunes.push(tune)?;
            at = next;
        } else {
            at = LineCursor {
                rest,
                number: at.number + 1,
            };
        }
    }
    Ok(tunes)
}

/// Returns the tune that begins with the line of this number, and the position where it ends.
fn tune_at<'a>(
    alloc: Global,
    ordinal: u32,
    reading: LineContent,
    number: u32,
    rest: &'a [u8],
) -> Result<(TuneText, LineCursor<'a>), Memory>
    requires { number + length rest.now ≤ 2 ^ 30 }
    ensures tune { IfOk result (λ it. it.0 ≡ tune_from ordinal number reading (readings rest.now)) }
    ensures rest { IfOk result (λ it.
        (o : ℕ) → tunes_from o it.1.number (readings it.1.rest.now) ≡ tunes_from o (suc number) (readings rest.now)) }
    ensures within { IfOk result (λ it. it.1.number + length it.1.rest.now ≤ number + 1 + length rest.now) }
    ensures further { IfOk result (λ it. length it.1.rest.now ≤ length rest.now) }
    ensures counted { IfOk result (λ it. number < it.1.number) }
{
    let mut lines = Row::new(alloc);
    add_line(alloc, &mut lines, number, reading, rest)?;
    let next = add_part(
        alloc,
        &mut lines,
        LineCursor {
            rest,
            number: number + 1,
        },
    )?;
    Ok((TuneText { ordinal, lines }, next))
}

/// Adds the listed lines up to the first that is empty or begins a tune, and returns the position of that line.
fn add_part<'a>(
    alloc: Global,
    out: &mut Row<Line>,
    place: LineCursor<'a>,
) -> Result<LineCursor<'a>, Memory>
    requires { place.number + length place.rest.now ≤ 2 ^ 30 + 1 }
    ensures lines { OnOk result (out.new ≡ out.old ++ part_from place.entry.number (readings place.entry.rest.now)) }
    ensures rest { IfOk result (λ it.
        (o : ℕ)
        → tunes_from o it.number (readings it.rest.now)
        ≡ tunes_from o place.entry.number (readings place.entry.rest.now)) }
    ensures within { IfOk result
        (λ it. it.number + length it.rest.now ≤ place.entry.number + length place.entry.rest.now) }
    ensures further { IfOk result (λ it. length it.rest.now ≤ length place.entry.rest.now) }
    ensures counted { IfOk result (λ it. place.entry.number ≤ it.number) }
{
    let mut at = place;
    'lines: while !at.rest.is_empty() {
        let (line, rest) = first_line(at.rest);
        let reading = read_line(alloc, line)?;
        if is_end_of_part(&reading) {
            return Ok(at);
        }
        add_line(alloc, out, at.number, reading, rest)?;
        at = LineCursor {
            rest,
            number: at.number + 1,
        };
    }
    Ok(at)
}

/// Adds a line if it is listed; `rest` follows it.
fn add_line(
    alloc: Global,
    out: &mut Row<Line>,
    number: u32,
    reading: LineContent,
    rest: &[u8],
) -> Result<(), Memory>
    ensures { OnOk result (out.new ≡ out.old ++ line_at number reading (readings rest.now)) }
{
    match reading {
        LineContent::Empty | LineContent::Comment => Ok(()),
        LineContent::Written(text) => add_text(alloc, out, number, text, rest),
    }
}

fn add_text(
    alloc: Global,
    out: &mut Row<Line>,
    number: u32,
    text: Text,
    rest: &[u8],
) -> Result<(), Memory>
    ensures { OnOk result (out.new ≡ out.old ++ line_of_text number text (readings rest.now)) }
{
    if is_joining(text.as_slice()) {
        return Ok(());
    }
    let text = whole_text(alloc, text, rest)?;
    out.push(Line { number, text })
}

/// Returns a text with that of the `+:` lines that are joined to it.
fn whole_text(alloc: Global, text: Text, rest: &[u8]) -> Result<Text, Memory>
    ensures { IfOk result (λ it. it ≡ whole_text text (readings rest.now)) }
{
    let mut text = text;
    if is_field(text.as_slice()) {
        join(alloc, &mut text, rest)?;
    }
    Ok(text)
}

/// Adds what the `+:` lines at the start of `bytes` add.
fn join(alloc: Global, out: &mut Text, bytes: &[u8]) -> Result<(), Memory>
    ensures { OnOk result (out.new ≡ out.old ++ joined (readings bytes.now)) }
{
    let mut ahead = bytes;
    'lines: while !ahead.is_empty() {
        let (line, rest) = first_line(ahead);
        let reading = read_line(alloc, line)?;
        if !goes_on(&reading) {
            return Ok(());
        }
        add_joined(out, reading)?;
        ahead = rest;
    }
    Ok(())
}

/// Adds a space and the text of a `+:` line; a comment adds nothing.
fn add_joined(out: &mut Text, reading: LineContent) -> Result<(), Memory>
    ensures { OnOk result (out.new ≡ out.old ++ added reading) }
{
    match reading {
        LineContent::Empty | LineContent::Comment => Ok(()),
        LineContent::Written(text) => {
            out.push(b' ')?;
            out.append(after_blanks(after_two(text.as_slice())))
        }
    }
}

fn goes_on(reading: &LineContent) -> bool
    ensures { result ≡ goes_on reading.now }
{
    match reading {
        LineContent::Empty => false,
        LineContent::Comment => true,
        LineContent::Written(text) => is_joining(text.as_slice()),
    }
}

fn begins_tune(reading: &LineContent) -> bool
    ensures { result ≡ begins_tune reading.now }
{
    match reading {
        LineContent::Empty | LineContent::Comment => false,
        LineContent::Written(text) => text.as_slice().starts_with(b"X:"),
    }
}

fn is_end_of_part(reading: &LineContent) -> bool
    ensures { result ≡ is_end_of_part reading.now }
{
    match reading {
        LineContent::Empty => true,
        LineContent::Comment => false,
        LineContent::Written(_) => begins_tune(reading),
    }
}

fn is_joining(text: &[u8]) -> bool
    ensures { result ≡ is_joining text.now }
{
    text.starts_with(b"+:")
}
