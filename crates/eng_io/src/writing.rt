ghost use Rattle.eng_io.specs.Streams.{WroteOrFailed, observed};

use crate::traits::{Failed, Sink};
use thiserror::Error;

/// A write failed: the sink's fault count rose, and exactly the first `written` bytes were written.
#[derive(Clone, Copy, Debug, PartialEq, Eq, Error)]
#[error("only {written} bytes were written")]
pub struct WriteError {
    pub written: u64,
}

/// Writes all of `b`. On an error exactly the first `written` bytes were written. Takes no memory. Each iteration
/// writes a byte or is the last.
pub fn write_all<O: Sink>(sink: &mut O, b: &[u8]) -> Result<(), WriteError>
    ensures { WroteOrFailed (observed O.taken O.faults sink.old sink.new) b.now result }
{
    let mut written = 0;
    while written < b.len() {
        match sink.write(&b[written..]) {
            Err(Failed) | Ok(0) => {
                return Err(WriteError {
                    written: written as u64,
                });
            }
            Ok(count) => written += count,
        }
    }
    Ok(())
}
