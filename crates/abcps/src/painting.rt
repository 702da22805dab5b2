ghost use Rattle.std.specs.Prelude.{◌≡◌, ◌≤◌, [], IfOk, length};
ghost use Rattle.ps_reports.specs.PaintText.{paint_text};
ghost use Rattle.eng_io.specs.Streams.{observed};
ghost use Rattle.abcps.specs.Calls.{budget_of};
ghost use Rattle.abcps.specs.Outcome.{IsAnswer, IsAnswered};
ghost use Rattle.abcps.specs.declared.status.Status.{Status};
ghost use Rattle.abcps_words.specs.declared.command.Command.{Command};

use crate::refusing::Refusal;
use crate::reporting::{refuse, write_both};
use crate::status::Status;
use eng_io::Sink;
use mus_units::{Memory, Text};
use ps_machine::{MachineError, PagePaint, run_machine};
use ps_reports::put_pages;
use std::alloc::Global;

/// The number of tokens that may be executed for each byte of a text.
const TOKENS_PER_BYTE: u64 = 100;

/// Returns how many tokens of a text may be executed.
fn budget_of(text: &[u8]) -> u64
    requires { length text.now ≤ 268435456 }
    ensures { result ≡ budget_of text.now }
{
    TOKENS_PER_BYTE * text.len() as u64
}

/// Returns the text of the painted pages.
fn text_of(alloc: Global, pages: &[PagePaint]) -> Result<Text, Memory>
    ensures { IfOk result (λ text. text ≡ paint_text pages.now) }
{
    let mut text = Text::new(alloc);
    put_pages(&mut text, pages)?;
    Ok(text)
}

/// Prints the painted pages.
fn print<O: Sink, E: Sink>(
    alloc: Global,
    pages: &[PagePaint],
    output: &mut O,
    errors: &mut E,
) -> Status
    ensures { IsAnswered
        (λ called. called ≡ record { page = paint_text pages.now; reported = []; status = Status.Done })
        result (observed O.taken O.faults output.old output.new) (observed E.taken E.faults errors.old errors.new) }
{
    let Ok(text) = text_of(alloc, pages) else {
        return Status::Memory;
    };
    write_both(output, errors, text.as_slice(), b"", Status::Done)
}

/// Runs a text on the machine and prints the pages that it paints, or reports where it halts.
pub(crate) fn paint<O: Sink, E: Sink>(
    alloc: Global,
    text: &[u8],
    output: &mut O,
    errors: &mut E,
) -> Status
    requires { length text.now ≤ 268435456 }
    ensures { IsAnswer Command.Paint result text.now (observed O.taken O.faults output.old output.new)
        (observed E.taken E.faults errors.old errors.new) }
{
    match run_machine(alloc, text, budget_of(text)) {
        Ok(pages) => print(alloc, pages.as_slice(), output, errors),
        Err(MachineError::Halt { token, cause }) => {
            refuse(alloc, Refusal::Halted { token, cause }, errors)
        }
        Err(MachineError::Memory) => Status::Memory,
    }
}
