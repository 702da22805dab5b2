use mus_units::Memory;
use std::alloc::AllocError;

/// Why a case has no value: memory ran out, or the case isn't written as its table asks.
#[derive(Clone, Copy)]
pub enum CaseError {
    Memory,
    Wrong(Mistake),
}

/// What is wrong with how a case is written.
#[derive(Clone, Copy)]
pub enum Mistake {
    NoCall,
    NoValue,
    JoinedComment,
    EmptyLine,
    UnknownCall,
    UnknownWord,
    NoNumber,
    MissingNumber,
    OutOfRange,
    UnknownLetter,
    UnknownAlteration,
    UnknownClef,
    UnknownMode,
    UnknownReach,
    UnknownInput,
    UnknownEscape,
    NoScore,
    NoStatus,
    NoFile,
}

impl Mistake {
    /// Returns what is wrong, in words.
    pub fn text(self) -> &'static str {
        match self {
            Mistake::NoCall => "a case has no call",
            Mistake::NoValue => "a line `=` is missing",
            Mistake::JoinedComment => "an empty line is missing after a comment",
            Mistake::EmptyLine => "one empty line is too many",
            Mistake::UnknownCall => "an unknown call",
            Mistake::UnknownWord => "an unknown word after the call",
            Mistake::NoNumber => "a number is expected, within its range",
            Mistake::MissingNumber => "a number is missing",
            Mistake::OutOfRange => "a number is out of range",
            Mistake::UnknownLetter => "an unknown letter",
            Mistake::UnknownAlteration => "an unknown alteration",
            Mistake::UnknownClef => "an unknown clef",
            Mistake::UnknownMode => "an unknown mode",
            Mistake::UnknownReach => "an unknown reach of signs",
            Mistake::UnknownInput => "an unknown input to generate",
            Mistake::UnknownEscape => "an unknown escape",
            Mistake::NoScore => "an unknown call, or a tune without a score",
            Mistake::NoStatus => "a line `status` is missing",
            Mistake::NoFile => "a file that it names can't be read",
        }
    }
}

impl From<Memory> for CaseError {
    fn from(_e: Memory) -> CaseError {
        CaseError::Memory
    }
}

impl From<AllocError> for CaseError {
    fn from(_e: AllocError) -> CaseError {
        CaseError::Memory
    }
}
