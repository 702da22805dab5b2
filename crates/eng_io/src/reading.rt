ghost use Rattle.std.specs.Prelude.{◌≤◌, ◌^◌};
ghost use Rattle.eng_io.specs.Streams.{ReadOrStopped, observed};

use crate::traits::{Failed, Source};
use mus_units::{Memory, Text};
use std::alloc::Global;
use thiserror::Error;

/// How many bytes are requested in one call of a source.
const MOST: usize = 65_536;

/// Why a source wasn't read to its end.
#[derive(Clone, Copy, Debug, PartialEq, Eq, Error)]
pub enum ReadError {
    /// A read failed: the source's fault count rose.
    #[error("the input failed")]
    Fault,
    /// The source gave one byte more than the limit.
    #[error("the input is too long")]
    TooLong,
    /// Memory ran out.
    #[error("out of memory")]
    Memory,
}

/// Reads a source to its end, in at most `limit` bytes. Takes at most one byte more than that, which is `TooLong`.
/// `Fault` is returned only if the source's fault count rose. Each iteration takes a byte or is the last.
pub fn read_all<S: Source>(alloc: Global, src: &mut S, limit: u64) -> Result<Text, ReadError>
    requires { limit ≤ 2 ^ 40 }
    ensures { ReadOrStopped limit (observed S.left S.faults src.old src.new) result }
{
    let mut text = Text::new(alloc);
    let mut buf = [0u8; MOST];
    let mut room = limit as usize + 1;
    while room > 0 {
        let most = room.min(MOST);
        match src.read(&mut buf[..most]) {
            Err(Failed) => return Err(ReadError::Fault),
            Ok(0) => return Ok(text),
            Ok(count) => {
                match text.append(&buf[..count]) {
                    Ok(()) => {}
                    Err(Memory) => return Err(ReadError::Memory),
                }
                room -= count;
            }
        }
    }
    Err(ReadError::TooLong)
}
