//! Documents that are written in steps and whole, and documents that are read.

ghost use Rattle.std.specs.Prelude.{◌≡◌, []};

use crate::ops::put_mark_line;
use crate::streams::sink_of;
use case_texts::{CaseError, Mistake, Report, count_at, numbers_of};
use eng_io::MemSink;
use mus_units::{Memory, Row, Text};
use ps_read::{PagesError, read_document};
use ps_text::{Frame, Item, Page, Sheet, Staff, put_page, put_prolog, put_trailer};
use ps_write::{DocError, begin, finish, page, send_pages, write_document};
use std::alloc::Global;

/// The line that ends the part that is the same in every document.
const END_OF_PROLOG: &[u8] = b"%%EndProlog\n";

/// Returns the paper of the documents that are written and read.
fn paper() -> Frame
    ensures { result ≡ record { wide = 595; high = 842; left = 5100; bottom = 2800; scale = 100 } }
{
    Frame {
        wide: 595,
        high: 842,
        left: 5100,
        bottom: 2800,
        scale: 100,
    }
}

fn empty_page(alloc: Global) -> Page
    ensures { result.items ≡ [] }
{
    Page {
        items: Row::new(alloc),
    }
}

/// Returns the paper of these numbers.
fn paper_of(alloc: Global, words: &str) -> Result<Frame, CaseError> {
    let numbers = numbers_of(alloc, words)?;
    Ok(Frame {
        wide: count_at(&numbers, 0)?,
        high: count_at(&numbers, 1)?,
        left: count_at(&numbers, 2)?,
        bottom: count_at(&numbers, 3)?,
        scale: scale_of(count_at(&numbers, 4)?)?,
    })
}

fn scale_of(number: u32) -> Result<u16, CaseError> {
    u16::try_from(number).map_err(|_| CaseError::Wrong(Mistake::OutOfRange))
}

/// Adds the text of a document of one empty page on the paper of these numbers.
pub(crate) fn put_document(out: &mut Report, words: &str) -> Result<(), CaseError> {
    let alloc = out.alloc;
    let frame = paper_of(alloc, words)?;
    put_prolog(alloc, &mut out.text, &frame)?;
    put_page(&mut out.text, 1, &empty_page(alloc))?;
    Ok(put_trailer(&mut out.text, 1)?)
}

/// Writes a document of two empty pages, step by step: one page written as it is made, and one whose text is made
/// before.
fn in_steps(alloc: Global, out: &mut MemSink) -> Result<(), DocError> {
    let w = begin(alloc, &paper(), out)?;
    let w = page(alloc, w, &empty_page(alloc), out)?;
    let mut text = Text::new(alloc);
    put_page(&mut text, 2, &empty_page(alloc))?;
    let w = send_pages(w, 1, text.as_slice(), out)?;
    finish(alloc, w, out)
}

/// Writes a document without a page, by one call.
fn whole(alloc: Global, out: &mut MemSink) -> Result<(), DocError> {
    let sheet = Sheet {
        frame: paper(),
        pages: Row::new(alloc),
    };
    write_document(alloc, &sheet, out)
}

/// Returns the part of a document after its prolog.
fn past_prolog(document: &[u8]) -> &[u8] {
    for (place, part) in document.windows(END_OF_PROLOG.len()).enumerate() {
        if part == END_OF_PROLOG {
            let (_, rest) = document.split_at(place);
            return rest;
        }
    }
    &[]
}

/// Writes a document to a sink of pieces, with one numbered call that fails, and adds how much is reported as
/// written, how much was taken, and what follows the prolog.
pub(crate) fn put_written(out: &mut Report, words: &str, in_one: bool) -> Result<(), CaseError> {
    let mut sink = sink_of(out.alloc, words)?;
    let written = if in_one {
        whole(out.alloc, &mut sink)
    } else {
        in_steps(out.alloc, &mut sink)
    };
    put_sent(out, written)?;
    put_taken(out, sink.taken())
}

fn put_taken(out: &mut Report, taken: &[u8]) -> Result<(), CaseError> {
    out.tell(taken.len())?;
    out.end_line()?;
    out.next(past_prolog(taken))
}

/// Adds how much is reported as written.
fn put_sent(out: &mut Report, written: Result<(), DocError>) -> Result<(), CaseError> {
    match written {
        Ok(()) => out.next(b"all"),
        Err(DocError::Write(error)) => out.tell(error.written),
        Err(DocError::Memory) => Err(CaseError::Memory),
    }
}

fn put_staff(out: &mut Report, staff: &Staff) -> Result<(), CaseError> {
    out.tell(format_args!("staff {} {}\n", staff.y, staff.width))?;
    for mark in staff.marks.as_slice() {
        put_mark_line(out, mark, staff.y)?;
    }
    Ok(())
}

fn put_item(out: &mut Report, item: &Item) -> Result<(), CaseError> {
    match item {
        Item::Tune { ordinal } => out.tell(format_args!("tune {ordinal}\n")),
        Item::Title { x, y, text, .. } => {
            out.tell(format_args!("title {x} {y}"))?;
            out.next(text.as_slice())?;
            out.end_line()
        }
        Item::System { a, b, staves } => {
            out.tell(format_args!("system {a} {b}\n"))?;
            for staff in staves.as_slice() {
                put_staff(out, staff)?;
            }
            Ok(())
        }
    }
}

fn put_sheet(out: &mut Report, sheet: &Sheet) -> Result<(), CaseError> {
    let frame = sheet.frame;
    out.next(b"paper")?;
    out.tell_all(&[frame.wide, frame.high, frame.left, frame.bottom])?;
    out.tell(frame.scale)?;
    out.end_line()?;
    for page in sheet.pages.as_slice() {
        out.next(b"page\n")?;
        for item in page.items.as_slice() {
            put_item(out, item)?;
        }
    }
    Ok(())
}

/// Returns the document of a text, after a prolog if asked.
pub(crate) fn document_of(alloc: Global, following: bool, text: &[u8]) -> Result<Text, Memory> {
    let mut document = Text::new(alloc);
    if following {
        put_prolog(alloc, &mut document, &paper())?;
    }
    document.append(text)?;
    Ok(document)
}

/// Adds the sheet that a text is read as, or the line at which it isn't a document. If `following`, the text follows
/// a prolog.
pub(crate) fn put_pages(out: &mut Report, following: bool, text: &[u8]) -> Result<(), CaseError> {
    let document = document_of(out.alloc, following, text)?;
    put_pages_of(out, document.as_slice())
}

fn put_pages_of(out: &mut Report, document: &[u8]) -> Result<(), CaseError> {
    match read_document(out.alloc, document) {
        Ok(sheet) => put_sheet(out, &sheet),
        Err(PagesError::NotPages { line }) => out.tell(format_args!("no pages at {line}\n")),
        Err(PagesError::Memory) => Err(CaseError::Memory),
    }
}
