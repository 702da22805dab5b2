//! Runs of the top call over streams in memory.

use crate::case::RunCase;
use abcps::{Gate, NoGate, Status, run};
use eng_io::{MemSink, MemSource};
use mus_units::{Row, Text};
use std::alloc::{AllocError, Global};
use std::thread::Threads;

/// The number of bytes that a source gives in one call.
const READ_PIECE: u32 = 16;

/// The number of bytes that a sink takes in one call.
pub(crate) const PIECE: u32 = 64;

/// A stream of a run.
#[derive(Clone, Copy, PartialEq, Eq)]
pub(crate) enum Stream {
    Input,
    Output,
    Errors,
}

/// How a sink takes bytes: at most how many in one call, and which of its calls fails.
#[derive(Clone, Copy)]
pub(crate) struct Pace {
    pub(crate) piece: u32,
    pub(crate) fails: Option<u64>,
}

/// How the streams of a run behave: which read fails, and how each sink takes bytes.
#[derive(Clone, Copy)]
pub(crate) struct Streams {
    pub(crate) read_fails: Option<u64>,
    pub(crate) output: Pace,
    pub(crate) errors: Pace,
}

/// The status of a run, and its streams after it.
#[derive(Drop)]
pub(crate) struct Finished {
    pub(crate) status: Status,
    pub(crate) input: MemSource,
    pub(crate) output: MemSink,
    pub(crate) errors: MemSink,
}

impl Streams {
    /// Returns streams that never fail, and whose sinks take this many bytes in each call.
    pub(crate) fn sound(piece: u32) -> Streams {
        let pace = Pace { piece, fails: None };
        Streams {
            read_fails: None,
            output: pace,
            errors: pace,
        }
    }

    /// Returns sound streams, except one that goes at a given pace; for the input only the read that fails counts.
    fn with(stream: Stream, pace: Pace) -> Streams {
        let sound = Streams::sound(PIECE);
        match stream {
            Stream::Input => Streams {
                read_fails: pace.fails,
                ..sound
            },
            Stream::Output => Streams {
                output: pace,
                ..sound
            },
            Stream::Errors => Streams {
                errors: pace,
                ..sound
            },
        }
    }

    /// Returns streams of which one fails at a call.
    pub(crate) fn failing_at(stream: Stream, call: u64) -> Streams {
        let pace = Pace {
            piece: PIECE,
            fails: Some(call),
        };
        Streams::with(stream, pace)
    }

    /// Returns streams of which one sink takes no byte.
    pub(crate) fn taking_none(stream: Stream) -> Streams {
        let pace = Pace {
            piece: 0,
            fails: None,
        };
        Streams::with(stream, pace)
    }
}

impl Finished {
    /// Returns how often a stream was called.
    pub(crate) fn calls(&self, stream: Stream) -> u64 {
        match stream {
            Stream::Input => self.input.calls,
            Stream::Output => self.output.calls,
            Stream::Errors => self.errors.calls,
        }
    }
}

/// Returns the row of the number, if there is one.
fn row_of(alloc: Global, number: Option<u64>) -> Result<Row<u64>, AllocError> {
    let mut items = Vec::new(alloc);
    if let Some(number) = number {
        items.push(number)?;
    }
    Ok(Row { items })
}

fn source(alloc: Global, bytes: &[u8], fails: Option<u64>) -> Result<MemSource, AllocError> {
    let text = Text {
        bytes: Vec::from_slice(alloc, bytes)?,
    };
    Ok(MemSource::new(text, READ_PIECE, row_of(alloc, fails)?))
}

fn sink(alloc: Global, pace: Pace) -> Result<MemSink, AllocError> {
    Ok(MemSink::new(alloc, pace.piece, row_of(alloc, pace.fails)?))
}

/// Returns a run of a case over such streams, whose tunes enter no gate.
pub(crate) fn ran<R: Threads + Sync>(
    rt: &R,
    case: &RunCase,
    streams: &Streams,
) -> Result<Finished, AllocError> {
    ran_through(rt, case, streams, &NoGate)
}

/// Returns a run of a case over such streams, whose tunes enter a gate.
pub(crate) fn ran_through<R: Threads + Sync, G: Gate + Sync>(
    rt: &R,
    case: &RunCase,
    streams: &Streams,
    gate: &G,
) -> Result<Finished, AllocError> {
    let alloc = case.alloc;
    let mut input = source(alloc, &case.input, streams.read_fails)?;
    let mut output = sink(alloc, streams.output)?;
    let mut errors = sink(alloc, streams.errors)?;
    let status = run(
        rt,
        alloc,
        &case.words,
        &mut input,
        &mut output,
        &mut errors,
        gate,
    );
    Ok(Finished {
        status,
        input,
        output,
        errors,
    })
}
