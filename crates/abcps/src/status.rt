ghost use Rattle.std.specs.Prelude.{◌≡◌};
ghost use Rattle.abcps.specs.{Status.{status_number, status_after}, declared.status.Status.Status};

use mus_units::Memory;
use ps_write::DocError;

/// How a run ended.
#[derive(Clone, Copy, PartialEq, Eq)]
pub enum Status {
    /// Everything was done and written.
    Done,
    /// Everything was written, and some tune has a fault.
    SomeRefused,
    /// The words fit no listed form.
    Usage,
    /// The input failed.
    ReadFault,
    /// A sink failed.
    WriteFault,
    /// Memory ran out.
    Memory,
    /// The input isn't a document, or isn't a listing.
    NotPages,
    /// The input has more bytes than the limit.
    TooLong,
    /// A judged choice isn't least.
    NotLeast,
    /// The machine that paints the input halts.
    Halted,
}

impl Status {
    /// Returns the exit number of the program: 0 for done, and so on in order. No status has 9.
    pub fn number(self) -> u8
        ensures { result ≡ status_number self }
    {
        match self {
            Status::Done => 0,
            Status::SomeRefused => 1,
            Status::Usage => 2,
            Status::ReadFault => 3,
            Status::WriteFault => 4,
            Status::Memory => 5,
            Status::NotPages => 6,
            Status::TooLong => 7,
            Status::NotLeast => 8,
            Status::Halted => 10,
        }
    }
}

impl From<Memory> for Status {
    ghost from_gives = { λ _ s. s ≡ Status.Memory };

    fn from(_: Memory) -> Status {
        Status::Memory
    }
}

impl From<DocError> for Status {
    ghost from_gives = { λ e s. s ≡ status_after e };

    fn from(error: DocError) -> Status {
        match error {
            DocError::Write(_) => Status::WriteFault,
            DocError::Memory => Status::Memory,
        }
    }
}
