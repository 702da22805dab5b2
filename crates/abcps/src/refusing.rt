ghost use Rattle.std.specs.Prelude.{◌≡◌, ◌++◌, OnOk};
ghost use Rattle.abcps.specs.Refusals.{not_pages_line, refusal_line, refusal_status};

use crate::status::Status;
use eng_lines::put_number;
use mus_units::{Memory, Text};
use ps_machine::Cause;
use ps_reports::put_halt;

/// Why an input is refused. Nothing is then written on output; the refusal determines the status and the line that is
/// reported on errors.
#[derive(Clone, Copy, PartialEq, Eq)]
pub enum Refusal {
    /// The input isn't a document, or isn't a listing: the number of its first bad line, counted from 1, or one past
    /// the last line if the text ends early.
    NotPages { line: u64 },
    /// The machine that paints the input halts: after how many tokens, and why.
    Halted { token: u64, cause: Cause },
}

impl Refusal {
    /// Returns the status.
    pub fn status(self) -> Status
        ensures { result ≡ refusal_status self }
    {
        match self {
            Refusal::NotPages { .. } => Status::NotPages,
            Refusal::Halted { .. } => Status::Halted,
        }
    }

    /// Adds the report line, with its line feed. On an error a part of it has been added.
    pub fn put_line(self, out: &mut Text) -> Result<(), Memory>
        ensures { OnOk result (out.new ≡ out.old ++ refusal_line self) }
    {
        match self {
            Refusal::NotPages { line } => put_not_pages(out, line),
            Refusal::Halted { token, cause } => put_halt(out, token, cause),
        }
    }
}

/// Adds the line that reports where an input isn't a document, or isn't a listing.
fn put_not_pages(out: &mut Text, line: u64) -> Result<(), Memory>
    ensures { OnOk result (out.new ≡ out.old ++ not_pages_line line) }
{
    out.append(b"not pages at line ")?;
    put_number(out, line)?;
    out.push(b'\n')
}
