//! The calls that a case may name.
//!
//! `run` with the words of a command runs it over streams that never fail; `fail`, the same, also with each call of
//! each stream failing in turn; `count` also says how often each tune of a book enters the gate, and `meet` whether two
//! tunes that wait for each other meet. `case` says how the input and the value of these are written. `book` takes a
//! book and the file of all that is written of it, and `show` the words of a command and a book. `paint` with a budget
//! runs a program on the painting machine, and `document` the document in a file.

ghost use Rattle.std.specs.Thread.{IsSync};

use crate::books::{put_book, put_shown};
use crate::case::{RunCase, put_run, run_of};
use crate::failing::put_failures;
use crate::files::NamedFiles;
use crate::gates::{ran_counted, ran_meeting};
use crate::painting::{put_document, put_program};
use crate::running::{PIECE, Streams, ran};
use case_texts::{Answers, Case, CaseError, Mistake, Report};
use std::thread::Threads;

/// The calls, with threads for runs and the files that cases name.
#[derive(Drop)]
pub(crate) struct CommandCalls<'a, R> {
    pub(crate) rt: &'a R,
    pub(crate) files: NamedFiles,
}

impl<R: Threads + Sync> Answers for CommandCalls<'_, R> {
    ghost ready = { λ _. IsSync R.row };

    fn put_answer(&self, out: &mut Report, case: Case<'_>, input: &[u8]) -> Result<(), CaseError> {
        match case.call {
            "book" => put_book(self.rt, &self.files, out, case.input, case.expected),
            "show" => put_shown(self.rt, out, case.word, input),
            "paint" => put_program(out, case.word, input),
            "document" => put_document(&self.files, out, case.input),
            "run" | "fail" | "count" | "meet" => {
                let run = run_of(out.alloc, &self.files, case)?;
                put_of_run(self.rt, out, case, &run)
            }
            _ => Err(CaseError::Wrong(Mistake::UnknownCall)),
        }
    }
}

/// Adds the value of a call on a run.
fn put_of_run<R: Threads + Sync>(
    rt: &R,
    out: &mut Report,
    case: Case<'_>,
    run: &RunCase,
) -> Result<(), CaseError> {
    match case.call {
        "count" => put_count(rt, out, case, run),
        "meet" => put_meeting(rt, out, case, run),
        _ => {
            put_run(out, case, run, &ran(rt, run, &Streams::sound(PIECE))?)?;
            if case.call == "fail" {
                put_failures(rt, out, run)?;
            }
            Ok(())
        }
    }
}

/// Adds a run, and how many tunes entered its gate how often.
fn put_count<R: Threads + Sync>(
    rt: &R,
    out: &mut Report,
    case: Case<'_>,
    run: &RunCase,
) -> Result<(), CaseError> {
    let (finished, entered) = ran_counted(rt, run)?;
    put_run(out, case, run, &finished)?;
    out.line(b"")?;
    out.show(format_args!(
        "{} tunes enter {} to {} times",
        entered.tunes, entered.least, entered.most
    ))
}

/// Adds a run of two tunes that wait for each other, and whether they met.
fn put_meeting<R: Threads + Sync>(
    rt: &R,
    out: &mut Report,
    case: Case<'_>,
    run: &RunCase,
) -> Result<(), CaseError> {
    let (finished, have_met) = ran_meeting(rt, run)?;
    put_run(out, case, run, &finished)?;
    out.line(if have_met { b"met" } else { b"alone" })
}
