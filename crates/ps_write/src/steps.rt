ghost use Rattle.std.specs.Prelude.{◌≡◌, ◌+◌, ◌-◌, ◌^◌, ◌<◌, length, IfOk};
ghost use Rattle.eng_io.specs.Streams.{observed};
ghost use Rattle.ps_text.specs.{Document.document_page, Document.trailer, Prolog.prolog, Range.IsFrame, Range.IsPage};
ghost use Rattle.ps_write.specs.declared.steps.DocError.TheVariants as errors;
ghost use Rattle.ps_write.specs.Written.{FitsAfter, IsWriterAt, Wrote};

use eng_io::{Sink, WriteError, write_all};
use mus_units::{Memory, Text};
use ps_text::{Frame, Page, put_page, put_prolog, put_trailer};
use std::alloc::Global;
use thiserror::Error;

/// Why a document wasn't written to its end.
#[derive(Clone, Copy, Debug, PartialEq, Eq, Error)]
pub enum DocError {
    /// The sink failed; exactly the first `written` bytes of the call's text went out.
    #[error("a document was cut off")]
    Write(WriteError),
    /// Memory ran out; the sink has a prefix of the call's text.
    #[error("out of memory")]
    Memory,
}

impl From<Memory> for DocError {
    ghost from_gives = { λ _ e. e ≡ errors.Memory };

    fn from(_: Memory) -> DocError {
        DocError::Memory
    }
}

/// A document in progress: the number of pages and of bytes written so far.
#[derive(Drop)]
pub struct DocWriter {
    pub pages: u32,
    pub written: u64,
}

/// Writes a piece after `before` bytes of a document. Returns the number of bytes of the document after it.
pub(crate) fn send<O: Sink>(sink: &mut O, piece: &[u8], before: u64) -> Result<u64, DocError>
    ensures wrote { Wrote (observed O.taken O.faults sink.old sink.new) piece.now result }
    ensures fits { FitsAfter before result }
    ensures sum { IfOk result (λ n. n ≡ before + length piece.now) }
{
    let Some(after) = before.checked_add(piece.len() as u64) else {
        return Err(DocError::Memory);
    };
    match write_all(sink, piece) {
        Ok(()) => Ok(after),
        Err(e) => Err(DocError::Write(e)),
    }
}

/// Writes the prolog of a document, up to and including the line `%%EndProlog`. Returns `Write` only if the sink's
/// fault count rose, and `Ok` only if it didn't and the whole text went out.
pub fn begin<O: Sink>(alloc: Global, frame: &Frame, sink: &mut O) -> Result<DocWriter, DocError>
    requires { IsFrame frame.now }
    ensures wrote { Wrote (observed O.taken O.faults sink.old sink.new) (prolog frame.now) result }
    ensures writer { IfOk result (λ w. IsWriterAt 0 0 (prolog frame.now) w) }
{
    let mut text = Text::new(alloc);
    put_prolog(alloc, &mut text, frame)?;
    let written = send(sink, text.as_slice(), 0)?;
    Ok(DocWriter { pages: 0, written })
}

/// Writes the next page. It may not be the last page that a document can number.
pub fn page<O: Sink>(
    alloc: Global,
    w: DocWriter,
    p: &Page,
    sink: &mut O,
) -> Result<DocWriter, DocError>
    requires good { IsPage p.now }
    requires few { w.pages < 2 ^ 32 - 1 }
    ensures wrote { Wrote (observed O.taken O.faults sink.old sink.new) (document_page (w.pages + 1) p.now) result }
    ensures fits { FitsAfter w.written result }
    ensures writer { IfOk result (λ v. IsWriterAt (w.pages + 1) w.written (document_page (w.pages + 1) p.now) v) }
{
    let mut text = Text::new(alloc);
    put_page(&mut text, u64::from(w.pages) + 1, p)?;
    let written = send(sink, text.as_slice(), w.written)?;
    Ok(DocWriter {
        pages: w.pages + 1,
        written,
    })
}

/// Writes the end of a document, with the number of its pages.
pub fn finish<O: Sink>(alloc: Global, w: DocWriter, sink: &mut O) -> Result<(), DocError>
    ensures wrote { Wrote (observed O.taken O.faults sink.old sink.new) (trailer w.pages) result }
    ensures fits { FitsAfter w.written result }
{
    let mut text = Text::new(alloc);
    put_trailer(&mut text, u64::from(w.pages))?;
    send(sink, text.as_slice(), w.written)?;
    Ok(())
}
