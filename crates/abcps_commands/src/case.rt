//! Runs, as their cases say them: the words of a run and its input, and the status and the written bytes that are
//! expected of it.
//!
//! The words stand after the case's call, `-` for none. The input is the name of a file, or nothing, or it is
//! generated, as `50000 rests`. The value of a run has a line `status` with its number, and for each sink that was
//! written on a line `output` or `errors` with the name of the file that has the same bytes.

use crate::files::NamedFiles;
use crate::made::made;
use crate::running::{Finished, Stream};
use abcps::Status;
use case_texts::{Case, CaseError, Mistake, Report, number_of};
use std::alloc::{AllocError, Global};

/// The expected status and output of a run.
#[derive(Drop)]
pub(crate) struct Expected {
    pub(crate) status: u8,
    pub(crate) output: Vec<u8>,
    pub(crate) errors: Vec<u8>,
}

/// The words and the input of a run, its expected result, and the memory that it runs in.
#[derive(Drop)]
pub(crate) struct RunCase {
    pub(crate) alloc: Global,
    pub(crate) words: Vec<String>,
    pub(crate) input: Vec<u8>,
    pub(crate) expected: Expected,
}

/// Returns whether a text was cut off: whether what was taken of it is a prefix that isn't all of it.
fn is_cut(taken: &[u8], text: &[u8]) -> bool {
    match text.strip_prefix(taken) {
        Some(rest) => !rest.is_empty(),
        None => false,
    }
}

/// Returns the status of a run whose errors fail. A line that reports why nothing was done may be lost.
fn status_without_errors(status: u8) -> u8 {
    if status == Status::SomeRefused.number() {
        Status::WriteFault.number()
    } else {
        status
    }
}

impl Expected {
    fn is_after_input(&self, finished: &Finished) -> bool {
        finished.status == Status::ReadFault
            && finished.output.taken().is_empty()
            && finished.errors.taken().is_empty()
    }

    fn is_after_output(&self, finished: &Finished) -> bool {
        finished.status == Status::WriteFault
            && is_cut(finished.output.taken(), &self.output)
            && finished.errors.taken().is_empty()
    }

    fn is_after_errors(&self, finished: &Finished) -> bool {
        finished.status.number() == status_without_errors(self.status)
            && finished.output.taken() == self.output.as_slice()
            && is_cut(finished.errors.taken(), &self.errors)
    }
}

impl RunCase {
    /// Returns whether a run over streams that didn't fail is as expected.
    pub(crate) fn is_met(&self, finished: &Finished) -> bool {
        finished.status.number() == self.expected.status
            && finished.output.taken() == self.expected.output.as_slice()
            && finished.errors.taken() == self.expected.errors.as_slice()
    }

    /// Returns whether a run is as expected if one of its streams failed.
    pub(crate) fn is_met_after(&self, stream: Stream, finished: &Finished) -> bool {
        match stream {
            Stream::Input => self.expected.is_after_input(finished),
            Stream::Output => self.expected.is_after_output(finished),
            Stream::Errors => self.expected.is_after_errors(finished),
        }
    }

    /// Returns whether something should be written on a sink.
    pub(crate) fn writes_on(&self, stream: Stream) -> bool {
        match stream {
            Stream::Input => false,
            Stream::Output => !self.expected.output.is_empty(),
            Stream::Errors => !self.expected.errors.is_empty(),
        }
    }
}

/// Returns words, a space apart; `-` stands for none.
pub(crate) fn words_of(alloc: Global, text: &str) -> Result<Vec<String>, AllocError> {
    let mut words = Vec::new(alloc);
    if text != "-" {
        for word in text.split(' ') {
            words.push(String::from_str(alloc, word)?)?;
        }
    }
    Ok(words)
}

/// Returns the input that a text names or says how to generate; no text says that it is empty.
fn input_of(alloc: Global, files: &NamedFiles, text: &str) -> Result<Vec<u8>, CaseError> {
    match text.split_once(' ') {
        Some((count, what)) => made(alloc, count, what),
        None if text.is_empty() => Ok(Vec::new(alloc)),
        None => Ok(Vec::from_slice(alloc, files.bytes(text)?)?),
    }
}

/// Returns the rest of the line of an expected value that begins with a word, if there is one.
fn line_of<'a>(expected: &'a str, word: &str) -> Option<&'a str> {
    for line in expected.lines() {
        if let Some((first, rest)) = line.split_once(' ') {
            if first == word {
                return Some(rest);
            }
        }
    }
    None
}

/// Returns the bytes of the file that a line of an expected value names, or no byte without such a line.
fn bytes_of(
    alloc: Global,
    files: &NamedFiles,
    expected: &str,
    word: &str,
) -> Result<Vec<u8>, CaseError> {
    match line_of(expected, word) {
        Some(name) => Ok(Vec::from_slice(alloc, files.bytes(name)?)?),
        None => Ok(Vec::new(alloc)),
    }
}

/// Returns the result of a run that an expected value says.
fn expected_of(alloc: Global, files: &NamedFiles, expected: &str) -> Result<Expected, CaseError> {
    let status = line_of(expected, "status").ok_or(CaseError::Wrong(Mistake::NoStatus))?;
    Ok(Expected {
        status: number_of::<u8>(status)?,
        output: bytes_of(alloc, files, expected, "output")?,
        errors: bytes_of(alloc, files, expected, "errors")?,
    })
}

/// Returns the run that a case says.
pub(crate) fn run_of(
    alloc: Global,
    files: &NamedFiles,
    case: Case<'_>,
) -> Result<RunCase, CaseError> {
    Ok(RunCase {
        alloc,
        words: words_of(alloc, case.word)?,
        input: input_of(alloc, files, case.input)?,
        expected: expected_of(alloc, files, case.expected)?,
    })
}

/// Returns the names of the files that a case names: of its input, and of what is expected.
pub(crate) fn named_files(case: Case<'_>) -> [Option<&str>; 3] {
    let input = Some(case.input);
    match case.call {
        "book" => [input, Some(case.expected), None],
        "document" => [input, None, None],
        "run" | "fail" | "count" | "meet" => [
            input.filter(|text| !text.is_empty() && !text.contains(' ')),
            line_of(case.expected, "output"),
            line_of(case.expected, "errors"),
        ],
        _ => [None, None, None],
    }
}

/// Adds a line with the status of a run, and one for each sink that was written on, with the name of the file that is
/// expected there.
pub(crate) fn put_run(
    out: &mut Report,
    case: Case<'_>,
    run: &RunCase,
    finished: &Finished,
) -> Result<(), CaseError> {
    out.next_number(b"status ", finished.status.number())?;
    let output = line_of(case.expected, "output");
    put_sink(
        out,
        b"output ",
        output,
        &run.expected.output,
        finished.output.taken(),
    )?;
    let errors = line_of(case.expected, "errors");
    put_sink(
        out,
        b"errors ",
        errors,
        &run.expected.errors,
        finished.errors.taken(),
    )
}

/// Adds a line of a sink with the name of the file that is expected there, if the sink was written on.
fn put_sink(
    out: &mut Report,
    sink: &[u8],
    name: Option<&str>,
    expected: &[u8],
    came: &[u8],
) -> Result<(), CaseError> {
    if came.is_empty() {
        return Ok(());
    }
    out.line(sink)?;
    put_file(out, name.unwrap_or("no file"), expected, came)
}

/// Adds the name of a file if bytes are the same as it has, and else how they differ first.
pub(crate) fn put_file(
    out: &mut Report,
    name: &str,
    expected: &[u8],
    came: &[u8],
) -> Result<(), CaseError> {
    if expected == came {
        return out.append(name.as_bytes());
    }
    let mut line: u32 = 1;
    let mut rest = expected.split(|byte| *byte == b'\n');
    for found in came.split(|byte| *byte == b'\n') {
        let wanted = rest.next();
        if wanted != Some(found) {
            return put_line(out, name, line, wanted, found);
        }
        line = line.saturating_add(1);
    }
    out.show(format_args!("unlike {name}, which goes on after that"))
}

/// Adds that a line differs from the line of a file.
fn put_line(
    out: &mut Report,
    name: &str,
    line: u32,
    wanted: Option<&[u8]>,
    found: &[u8],
) -> Result<(), CaseError> {
    out.show(format_args!("unlike {name}, whose line {line} is <"))?;
    out.append(wanted.unwrap_or(b"missing".as_slice()))?;
    out.append(b">, and which came as <")?;
    out.append(found)?;
    out.push(b'>')
}
