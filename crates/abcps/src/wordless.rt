ghost use Rattle.std.specs.{Prelude.◌≡◌, IoError.error_kind};
ghost use Rattle.eng_io.specs.Streams.{observed};
ghost use Rattle.abcps.specs.Wordless.{IsWordless, cause_of};
ghost use Rattle.abcps.specs.declared.wordless.WordsError.{WordsError};

use crate::reporting::report_usage;
use crate::status::Status;
use eng_io::Sink;
use std::alloc::AllocError;
use std::io;

/// Why the words of a run couldn't be obtained.
#[derive(Clone, Copy, PartialEq, Eq)]
pub enum WordsError {
    /// A word isn't UTF-8.
    NotText,
    /// Memory ran out while the words were collected.
    Memory,
}

impl From<io::Error> for WordsError {
    ghost from_gives = { λ e why. why ≡ cause_of (error_kind e) };

    fn from(error: io::Error) -> WordsError {
        match error.kind() {
            io::ErrorKind::OutOfMemory => WordsError::Memory,
            _ => WordsError::NotText,
        }
    }
}

impl From<AllocError> for WordsError {
    ghost from_gives = { λ _ why. why ≡ WordsError.Memory };

    fn from(_: AllocError) -> WordsError {
        WordsError::Memory
    }
}

/// Handles a run whose words couldn't be obtained. A word that isn't UTF-8 fits no listed form, so `errors` gets the
/// usage line and the status is `Usage`. If memory ran out, nothing is written and the status is `Memory`.
pub fn refuse_words<E: Sink>(why: WordsError, errors: &mut E) -> Status
    ensures { IsWordless why result (observed E.taken E.faults errors.old errors.new) }
{
    match why {
        WordsError::NotText => {
            report_usage(errors);
            Status::Usage
        }
        WordsError::Memory => Status::Memory,
    }
}
