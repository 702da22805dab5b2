ghost use Rattle.std.specs.Prelude.{◌≡◌, ◌⊎◌, IfOk};
ghost use Rattle.eng_io.specs.Streams.{FailedAfterPrefix, IsQuiet, WroteWhole, observed};
ghost use Rattle.abcps_words.specs.Usage.{usage_line};
ghost use Rattle.abcps.specs.Outcome.{IsAnswered, IsCompleteStatus};
ghost use Rattle.abcps.specs.Outcome.{ReportsLine};
ghost use Rattle.abcps.specs.Refusals.{refusal_line, refusal_status};
ghost use Rattle.abcps.specs.declared.status.Status.{Status};

use crate::refusing::Refusal;
use crate::status::Status;
use abcps_words::usage;
use eng_io::{Sink, write_all};
use mus_units::{Memory, Text};
use std::alloc::Global;

/// Writes a report line to a sink. A failure of the sink is ignored: the caller's status stands.
pub(crate) fn report<E: Sink>(errors: &mut E, line: &[u8])
    ensures { ReportsLine (observed E.taken E.faults errors.old errors.new) line.now }
{
    let _ = write_all(errors, line);
}

/// Writes the usage line to a sink. A failure of the sink is ignored: the caller's status stands.
pub(crate) fn report_usage<E: Sink>(errors: &mut E)
    ensures { ReportsLine (observed E.taken E.faults errors.old errors.new) usage_line }
{
    report(errors, usage());
}

/// Writes the last text of a run to errors. Returns the status of the run unless errors fails.
pub(crate) fn report_last<E: Sink>(errors: &mut E, reported: &[u8], with: Status) -> Status
    ensures { ((result ≡ with) × WroteWhole (observed E.taken E.faults errors.old errors.new) reported.now)
        ⊎ ((result ≡ Status.WriteFault)
        × FailedAfterPrefix (observed E.taken E.faults errors.old errors.new) reported.now) }
{
    match write_all(errors, reported) {
        Ok(()) => with,
        Err(_) => Status::WriteFault,
    }
}

/// Writes a text on output, then another on errors.
#[tactic(auto, using(crate::proofs::Answered::answered_end))]
pub(crate) fn write_both<O: Sink, E: Sink>(
    output: &mut O,
    errors: &mut E,
    page: &[u8],
    reported: &[u8],
    with: Status,
) -> Status
    requires { IsCompleteStatus with }
    ensures { IsAnswered (λ called. called ≡ record { page = page.now; reported = reported.now; status = with }) result
        (observed O.taken O.faults output.old output.new) (observed E.taken E.faults errors.old errors.new) }
{
    match write_all(output, page) {
        Ok(()) => report_last(errors, reported, with),
        Err(_) => Status::WriteFault,
    }
}

/// Returns the line of a refusal.
fn line_of(alloc: Global, refusal: Refusal) -> Result<Text, Memory>
    ensures { IfOk result (λ line. line ≡ refusal_line refusal) }
{
    let mut line = Text::new(alloc);
    refusal.put_line(&mut line)?;
    Ok(line)
}

/// Reports why an input is refused. A failure of the sink is ignored: the refusal's status stands.
pub(crate) fn refuse<E: Sink>(alloc: Global, refusal: Refusal, errors: &mut E) -> Status
    ensures { ((result ≡ Status.Memory) × IsQuiet (observed E.taken E.faults errors.old errors.new))
        ⊎ ((result ≡ refusal_status refusal)
        × ReportsLine (observed E.taken E.faults errors.old errors.new) (refusal_line refusal)) }
{
    let Ok(line) = line_of(alloc, refusal) else {
        return Status::Memory;
    };
    report(errors, line.as_slice());
    refusal.status()
}
