ghost use Rattle.std.specs.Prelude.{◌≡◌, ◌+◌, ◌-◌, ◌^◌, ◌<◌, Err};
ghost use Rattle.eng_io.specs.Streams.{observed};
ghost use Rattle.ps_text.specs.Document.{document};
ghost use Rattle.ps_text.specs.Range.{IsSheet};
ghost use Rattle.ps_write.specs.Written.{FitsError, Wrote, counted_from};

use crate::steps::{DocError, begin, finish, page};
use eng_io::{Sink, WriteError};
use ps_text::Sheet;
use std::alloc::Global;

/// Returns the error of a step that began after `before` bytes, counted from the start of the document.
fn counted_from(before: u64, e: DocError) -> DocError
    requires { FitsError before e }
    ensures { result ≡ counted_from before e }
{
    match e {
        DocError::Write(e) => DocError::Write(WriteError {
            written: before + e.written,
        }),
        DocError::Memory => DocError::Memory,
    }
}

/// Writes the document of a sheet. Returns `Write` only if the sink's fault count rose, and then exactly the first
/// `written` bytes of the document went out; `Ok` only if the count didn't rise and the whole document went out.
pub fn write_document<O: Sink>(alloc: Global, s: &Sheet, sink: &mut O) -> Result<(), DocError>
    requires { IsSheet s.now }
    ensures { Wrote (observed O.taken O.faults sink.old sink.new) (document s.now) result }
{
    let mut w = begin(alloc, &s.frame, sink)?;
    for p in s.pages.as_slice() {
        let before = w.written;
        w = match page(alloc, w, p, sink) {
            Ok(next) => next,
            Err(e) => return Err(counted_from(before, e)),
        };
    }
    let before = w.written;
    match finish(alloc, w, sink) {
        Ok(()) => Ok(()),
        Err(e) => Err(counted_from(before, e)),
    }
}
