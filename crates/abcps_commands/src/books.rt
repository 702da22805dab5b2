//! Books in the folder, each with a file of its expected output: the pages after the prolog that `set` writes, the
//! table of `systems --table`, and the faults; and books whose output stands in their cases.

use crate::case::{Expected, RunCase, put_file, words_of};
use crate::files::NamedFiles;
use crate::running::{Finished, PIECE, Streams, ran};
use abcps::Status;
use case_texts::{CaseError, Report};
use mus_units::{Memory, Text};
use std::alloc::Global;
use std::thread::Threads;

/// The line that ends the part of a document that is the same for every book.
const END_OF_PROLOG: &[u8] = b"%%EndProlog\n";

/// Runs the words on a book.
fn ran_on<R: Threads + Sync>(
    rt: &R,
    alloc: Global,
    words: &str,
    book: &[u8],
) -> Result<Finished, CaseError> {
    let expected = Expected {
        status: 0,
        output: Vec::new(alloc),
        errors: Vec::new(alloc),
    };
    let case = RunCase {
        alloc,
        words: words_of(alloc, words)?,
        input: Vec::from_slice(alloc, book)?,
        expected,
    };
    Ok(ran(rt, &case, &Streams::sound(PIECE))?)
}

/// Returns the part of a document after its prolog.
fn past_prolog(document: &[u8]) -> &[u8] {
    for (place, part) in document.windows(END_OF_PROLOG.len()).enumerate() {
        if part == END_OF_PROLOG {
            let (_, rest) = document.split_at(place);
            return rest;
        }
    }
    &[]
}

/// Returns three texts, one after another.
fn joined(alloc: Global, first: &[u8], second: &[u8], third: &[u8]) -> Result<Text, Memory> {
    let mut text = Text::from_slice(alloc, first)?;
    text.append(second)?;
    text.append(third)?;
    Ok(text)
}

/// Returns whether both runs have the status that the reported faults call for.
fn have_status(set: &Finished, systems: &Finished) -> bool {
    let status = if set.errors.taken().is_empty() {
        Status::Done
    } else {
        Status::SomeRefused
    };
    set.status == status && systems.status == status
}

/// Adds the name of a file if a book's output is what it has, or else how they differ; and a line for runs whose
/// status or faults don't fit.
pub(crate) fn put_book<R: Threads + Sync>(
    rt: &R,
    files: &NamedFiles,
    out: &mut Report,
    name: &str,
    expected: &str,
) -> Result<(), CaseError> {
    let alloc = out.alloc;
    let book = files.bytes(name)?;
    let set = ran_on(rt, alloc, "set", book)?;
    let systems = ran_on(rt, alloc, "systems --table", book)?;
    let faults = set.errors.taken();
    let pages = past_prolog(set.output.taken());
    let text = joined(alloc, pages, systems.output.taken(), faults)?;
    put_file(out, expected, files.bytes(expected)?, text.as_slice())?;
    out.flag(!have_status(&set, &systems), b"with another status")?;
    out.flag(
        faults != systems.errors.taken(),
        b"with other faults of systems",
    )
}

/// Adds the status of words on a book, what they write, and the faults that they report.
pub(crate) fn put_shown<R: Threads + Sync>(
    rt: &R,
    out: &mut Report,
    words: &str,
    book: &[u8],
) -> Result<(), CaseError> {
    let finished = ran_on(rt, out.alloc, words, book)?;
    out.next_number(b"status ", finished.status.number())?;
    out.end_line()?;
    out.append(finished.output.taken())?;
    out.append(finished.errors.taken())
}
