//! Runs over streams that fail.

use crate::case::RunCase;
use crate::running::{PIECE, Stream, Streams, ran};
use case_texts::{CaseError, Report};
use std::alloc::AllocError;
use std::thread::Threads;

/// Returns whether a run over streams is as expected.
pub(crate) fn is_met<R: Threads + Sync>(
    rt: &R,
    case: &RunCase,
    streams: &Streams,
) -> Result<bool, AllocError> {
    let finished = ran(rt, case, streams)?;
    Ok(case.is_met(&finished))
}

/// Returns whether a run over streams of which one fails is as expected.
fn is_met_after<R: Threads + Sync>(
    rt: &R,
    case: &RunCase,
    stream: Stream,
    streams: &Streams,
) -> Result<bool, AllocError> {
    let finished = ran(rt, case, streams)?;
    Ok(case.is_met_after(stream, &finished))
}

/// Returns whether a run is as expected with each of the calls of a stream failing in turn, and with the call after
/// the last, which is never made.
fn fails_as_expected<R: Threads + Sync>(
    rt: &R,
    case: &RunCase,
    stream: Stream,
    calls: u64,
) -> Result<bool, AllocError> {
    for call in 0..calls {
        if !is_met_after(rt, case, stream, &Streams::failing_at(stream, call))? {
            return Ok(false);
        }
    }
    is_met(rt, case, &Streams::failing_at(stream, calls))
}

/// Returns whether a run is as expected with a sink that takes no byte.
fn takes_none_as_expected<R: Threads + Sync>(
    rt: &R,
    case: &RunCase,
    stream: Stream,
) -> Result<bool, AllocError> {
    let streams = Streams::taking_none(stream);
    if case.writes_on(stream) {
        is_met_after(rt, case, stream, &streams)
    } else {
        is_met(rt, case, &streams)
    }
}

/// Returns whether a run is as expected with sinks that take a byte in each call, and with each sink taking none.
fn trickles_as_expected<R: Threads + Sync>(rt: &R, case: &RunCase) -> Result<bool, AllocError> {
    Ok(
        is_met(rt, case, &Streams::sound(1))?
            && takes_none_as_expected(rt, case, Stream::Output)?
            && takes_none_as_expected(rt, case, Stream::Errors)?,
    )
}

fn calls_named(stream: Stream) -> &'static [u8] {
    match stream {
        Stream::Input => b"reads failing in turn ",
        Stream::Output => b"writes of output failing in turn ",
        Stream::Errors => b"writes of errors failing in turn ",
    }
}

/// Returns how often a run over sound streams calls each of them.
fn calls_of<R: Threads + Sync>(rt: &R, case: &RunCase) -> Result<[u64; 3], AllocError> {
    let sound = ran(rt, case, &Streams::sound(PIECE))?;
    Ok([
        sound.calls(Stream::Input),
        sound.calls(Stream::Output),
        sound.calls(Stream::Errors),
    ])
}

/// Adds a line with the number of a stream's calls, which fail in turn, and that a run isn't as expected if one isn't.
fn put_stream<R: Threads + Sync>(
    rt: &R,
    out: &mut Report,
    case: &RunCase,
    stream: Stream,
    calls: u64,
) -> Result<(), CaseError> {
    out.line_number(calls_named(stream), calls)?;
    out.flag(
        !fails_as_expected(rt, case, stream, calls)?,
        b"but not as expected",
    )
}

/// Adds for each stream how many calls fail in turn, and a line for sinks that take one byte, or none.
pub(crate) fn put_failures<R: Threads + Sync>(
    rt: &R,
    out: &mut Report,
    case: &RunCase,
) -> Result<(), CaseError> {
    let [reads, writes, errors] = calls_of(rt, case)?;
    put_stream(rt, out, case, Stream::Input, reads)?;
    put_stream(rt, out, case, Stream::Output, writes)?;
    put_stream(rt, out, case, Stream::Errors, errors)?;
    out.line(b"sinks that take one byte, or none")?;
    out.flag(!trickles_as_expected(rt, case)?, b"but not as expected")
}
