ghost use Rattle.std.specs.Prelude.{◌≡◌, List, IfOk, IfErr};
ghost use Rattle.lay_cert.specs.Laws.{GoodByLines, TellsOne, FaultsTellNone, NoPrefix};
ghost use Rattle.lay_cert.specs.Listing.{Entry, IsListing};
ghost use Rattle.lay_cert.specs.Answers.{IsJudged, IsCause, cert_error};
ghost use Rattle.lay_cert.specs.ReaderStates.{listings};
ghost use Rattle.lay_cert.specs.Represents.{Represents};
ghost use Rattle.lay_cert.specs.Verdicts.{AreVerdicts};

use crate::state::{ListingState, state_after};
use eng_reader::{LineError, LineReader, read_lines};
use mus_units::{Memory, Row};
use std::alloc::Global;

/// The judgement of a tune's choice.
#[derive(Drop)]
pub enum Verdict {
    /// No breaking of the listed spans has a smaller total.
    Least {
        total: u64,
    },
    /// The breaking chosen over the listed spans has a smaller total, `better`.
    NotLeast {
        total: u64,
        better: u64,
        breaks: Row<u32>,
    },
}

/// The verdict on one tune of a listing.
#[derive(Drop)]
pub struct Judged {
    pub tune: u32,
    pub verdict: Verdict,
}

/// Why there are no verdicts.
#[derive(Clone, Copy, PartialEq, Eq)]
pub enum CertError {
    /// The bytes aren't a listing; `line` is the first line that isn't good given the lines before it, or one past
    /// the last if the text ends early.
    NotListing { line: u64 },
    /// Memory ran out.
    Memory,
}

impl From<LineError> for CertError {
    ghost from_gives = { λ e r. r ≡ cert_error e };

    fn from(error: LineError) -> Self {
        match error {
            LineError::Bad { line } => CertError::NotListing { line },
            LineError::Memory => CertError::Memory,
        }
    }
}

/// What the lines so far of a listing have said, and the verdicts so far.
#[derive(Drop)]
struct Checker {
    state: ListingState,
    judged: Row<Judged>,
}

impl LineReader<Row<Judged>> for Checker {
    ghost grammar = { listings };

    ghost is_at = { λ c p. Represents c.state c.judged p };

    ghost says = { AreVerdicts };

    fn step(self, alloc: Global, raw: &[u8]) -> Result<Option<Self>, Memory> {
        let Checker { state, mut judged } = self;
        match state_after(alloc, state, raw, &mut judged)? {
            Some(state) => Ok(Some(Checker { state, judged })),
            None => Ok(None),
        }
    }

    fn finish(self) -> Option<Row<Judged>> {
        match self.state {
            ListingState::Ended => Some(self.judged),
            _ => None,
        }
    }
}

/// Returns one verdict for each tune of a listing, in its order.
///
/// Each sum is recomputed from the listed spans; none is trusted. A last piece without a line feed is a line that
/// isn't good. It takes one step for each line, and one call of `least` for each tune.
pub fn check_listing(alloc: Global, bytes: &[u8]) -> Result<Row<Judged>, CertError>
    ensures judged { IfOk result (IsJudged bytes.now) }
    ensures cause { IfErr result (IsCause bytes.now) }
{
    let checker = Checker {
        state: ListingState::Begun,
        judged: Row::new(alloc),
    };
    Ok(read_lines(alloc, checker, bytes)?)
}

/// The law that a text is a listing exactly when each of its lines is good given those before it and the last is
/// `end`.
pub fn good_by_lines()
    ensures { GoodByLines }
{}

/// The law that a text has at most one list of entries.
pub fn tells_one()
    ensures { TellsOne }
{}

/// The law that a text with a line that isn't good is no listing.
pub fn faults_tell_none()
    ensures { FaultsTellNone }
{}

/// The law that no proper prefix of a listing is a listing.
pub fn no_prefix_is_a_listing()
    ensures { NoPrefix }
{}
