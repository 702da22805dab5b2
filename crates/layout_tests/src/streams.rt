//! Streams in memory and of std, and those that fail.

use case_texts::{CaseError, Report, count_at, numbers_of};
use eng_io::{
    MemSink, MemSource, ReadError, Sink, Source, StdSink, StdSource, read_all, write_all,
};
use mus_units::{Memory, Row, Text};
use std::alloc::Global;

/// Returns the number of a call that fails, as a row.
fn failing(alloc: Global, call: u32) -> Result<Row<u64>, Memory> {
    Row::from_slice(alloc, &[u64::from(call)])
}

/// Returns the source of a text by its numbers: the size of its pieces, and the number of its call that fails.
fn source_of(alloc: Global, numbers: &Row<i64>, text: &[u8]) -> Result<MemSource, CaseError> {
    let bytes = Text::from_slice(alloc, text)?;
    let fails = failing(alloc, count_at(numbers, 1)?)?;
    Ok(MemSource::new(bytes, count_at(numbers, 0)?.max(1), fails))
}

/// Reads a text to its end, within a limit, from a source of pieces with one numbered call that fails, and adds the
/// result.
pub(crate) fn put_source(out: &mut Report, words: &str, text: &[u8]) -> Result<(), CaseError> {
    let numbers = numbers_of(out.alloc, words)?;
    let mut source = source_of(out.alloc, &numbers, text)?;
    let limit = u64::from(count_at(&numbers, 2)?);
    put_taken(out, read_all(out.alloc, &mut source, limit))
}

/// Adds a line of what was read, or of why nothing was.
fn put_taken(out: &mut Report, taken: Result<Text, ReadError>) -> Result<(), CaseError> {
    match taken {
        Ok(text) => out.next(text.as_slice())?,
        Err(ReadError::Fault) => out.next(b"fault")?,
        Err(ReadError::TooLong) => out.next(b"too long")?,
        Err(ReadError::Memory) => return Err(CaseError::Memory),
    }
    out.end_line()
}

/// Writes a text to a sink of pieces, with one numbered call that fails, and adds how much is reported as written,
/// what was taken, and how many other calls failed.
pub(crate) fn put_sink(out: &mut Report, words: &str, text: &[u8]) -> Result<(), CaseError> {
    let mut sink = sink_of(out.alloc, words)?;
    match write_all(&mut sink, text) {
        Ok(()) => out.next(b"all")?,
        Err(error) => out.tell(error.written)?,
    }
    put_left(out, &sink)
}

fn put_left(out: &mut Report, sink: &MemSink) -> Result<(), CaseError> {
    out.next(sink.taken())?;
    out.tell(sink.refused())?;
    out.end_line()
}

/// Returns the sink of some numbers: the size of its pieces, and the number of its call that fails.
pub(crate) fn sink_of(alloc: Global, words: &str) -> Result<MemSink, CaseError> {
    let numbers = numbers_of(alloc, words)?;
    let fails = failing(alloc, count_at(&numbers, 1)?)?;
    Ok(MemSink::new(alloc, count_at(&numbers, 0)?, fails))
}

/// Adds how many bytes a call passed on, or that it failed.
fn put_passed<E: Drop>(out: &mut Report, passed: Result<usize, E>) -> Result<(), CaseError> {
    match passed {
        Ok(count) => out.tell(count),
        Err(_) => out.next(b"failed"),
    }
}

/// Passes a text on by streams of std, and adds the result: two bytes of it read, all of it written, and the faults
/// of both.
pub(crate) fn put_streams(out: &mut Report, text: &[u8]) -> Result<(), CaseError> {
    let mut source = StdSource::new(text);
    let mut pair = [0u8; 2];
    put_passed(out, source.read(&mut pair))?;
    out.next(&pair)?;
    let mut sink = StdSink::new(Vec::<u8>::new(out.alloc));
    put_passed(out, sink.write(text))?;
    out.next(sink.writer.as_slice())?;
    out.tell_all(&[source.faults, sink.faults])?;
    out.end_line()
}
