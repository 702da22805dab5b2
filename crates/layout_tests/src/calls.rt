//! The calls that a case may name.
//!
//! Layout: `place`, `fit`, `within`, `set` and `last` on plain columns, `stopped` on columns whose springs stop at a
//! length, `badness F`, `least` on a table of costs, `check` on a listing. Pages: `stack`, `fill H` and `even H`;
//! `glyphs`; `glyph`, `words`, `stem`, `beam` and `arc` with a mark's numbers, `read Y` on lines of marks; `document`,
//! `steps` and `whole`, `pages` and `page`, `hear W` and `hear W PLACE`. The program: `commands`, `make N`. Streams:
//! `source`, `sink`, `streams`. Rows that wait for each other: `meetings`.

ghost use Rattle.std.specs.Thread.{IsSync};

use crate::blocks::{put_even, put_fill, put_stack};
use crate::commands::{put_commands, put_made};
use crate::documents::{put_document, put_pages, put_written};
use crate::glyphs::put_glyphs;
use crate::hearing::put_hearing;
use crate::listings::put_verdicts;
use crate::meetings::put_meetings;
use crate::ops::{put_mark, put_read, put_words};
use crate::plain::{put_badness, put_plain, put_stopped};
use crate::streams::{put_sink, put_source, put_streams};
use crate::table::put_least;
use case_texts::{Answers, Case, CaseError, Mistake, Report, number_of};
use std::thread::Threads;

/// The calls, with threads for the rows that wait for each other.
#[derive(Drop)]
pub(crate) struct LayoutCalls<'a, R> {
    pub(crate) rt: &'a R,
}

impl<R: Threads + Sync> Answers for LayoutCalls<'_, R> {
    ghost ready = { λ _. IsSync R.row };

    fn put_answer(&self, out: &mut Report, case: Case<'_>, input: &[u8]) -> Result<(), CaseError> {
        match case.call {
            "glyph" | "stem" | "beam" | "arc" => put_mark(out, case.call, case.word),
            "words" => put_words(out, case.word, input),
            "meetings" => put_meetings(self.rt, out),
            _ => put_page_call(out, case, input),
        }
    }
}

/// Adds the value of a call of the layout or on blocks.
fn put_layout_call(out: &mut Report, case: Case<'_>) -> Result<(), CaseError> {
    match case.call {
        "least" => put_least(out, case.word, case.input),
        "badness" => put_badness(out, case.word),
        "stack" => put_stack(out, case.input),
        "fill" => put_fill(out, case.word, case.input),
        "even" => put_even(out, case.word, case.input),
        "place" | "fit" | "within" | "set" | "last" => put_plain(out, case),
        "stopped" => put_stopped(out, case),
        _ => Err(CaseError::Wrong(Mistake::UnknownCall)),
    }
}

/// Adds the value of a call on pages.
fn put_page_call(out: &mut Report, case: Case<'_>, input: &[u8]) -> Result<(), CaseError> {
    match case.call {
        "glyphs" => put_glyphs(out),
        "read" => put_read(out, case.word, input),
        "check" => put_verdicts(out, input),
        "document" => put_document(out, case.word),
        "steps" => put_written(out, case.word, false),
        "whole" => put_written(out, case.word, true),
        "page" => put_pages(out, true, input),
        "pages" => put_pages(out, false, input),
        "hear" => put_hearing(out, case.word, input),
        _ => put_stream_call(out, case, input),
    }
}

/// Adds the value of a call on streams or on words.
fn put_stream_call(out: &mut Report, case: Case<'_>, input: &[u8]) -> Result<(), CaseError> {
    match case.call {
        "source" => put_source(out, case.word, input),
        "sink" => put_sink(out, case.word, input),
        "streams" => put_streams(out, input),
        "commands" => put_commands(out, case.input),
        "make" => put_made(out, number_of::<u32>(case.word)?),
        _ => put_layout_call(out, case),
    }
}
