ghost use Rattle.std.specs.{Prelude.{◌≡◌, [], IfOk}, List.list_any};
ghost use Rattle.eng_io.specs.Streams.{observed};
ghost use Rattle.abcps.specs.Calls.{is_dearer, is_dearer_choice, status_by, verdicts_text};
ghost use Rattle.abcps.specs.Outcome.{IsAnswer, IsAnswered, IsCompleteStatus};
ghost use Rattle.abcps_words.specs.declared.command.Command.{Command};

use crate::refusing::Refusal;
use crate::reporting::{refuse, write_both};
use crate::status::Status;
use eng_io::Sink;
use lay_cert::{CertError, Judged, Verdict, check_listing, put_verdict};
use mus_units::{Memory, Text};
use std::alloc::Global;

/// Returns whether a verdict says that a choice isn't least.
fn is_dearer(judged: &Judged) -> bool
    ensures { result ≡ is_dearer_choice judged.now }
{
    match judged.verdict {
        Verdict::Least { .. } => false,
        Verdict::NotLeast { .. } => true,
    }
}

/// Returns whether some choice isn't least.
fn some_dearer(judged: &[Judged]) -> bool
    ensures { result ≡ list_any is_dearer_choice judged.now }
{
    judged.iter().any(is_dearer)
}

/// Returns the status for some verdicts.
fn status_by(judged: &[Judged]) -> Status
    ensures value { result ≡ status_by judged.now }
    ensures end { IsCompleteStatus result }
{
    if some_dearer(judged) {
        Status::NotLeast
    } else {
        Status::Done
    }
}

/// Returns the verdicts, one per line.
fn verdicts_text(alloc: Global, judged: &[Judged]) -> Result<Text, Memory>
    ensures { IfOk result (λ text. text ≡ verdicts_text judged.now) }
{
    let mut text = Text::new(alloc);
    for verdict in judged {
        put_verdict(&mut text, verdict)?;
    }
    Ok(text)
}

/// Prints verdicts.
fn print<O: Sink, E: Sink>(
    alloc: Global,
    judged: &[Judged],
    output: &mut O,
    errors: &mut E,
) -> Status
    ensures { IsAnswered
        (λ called. called ≡ record { page = verdicts_text judged.now; reported = []; status = status_by judged.now })
        result
        (observed O.taken O.faults output.old output.new) (observed E.taken E.faults errors.old errors.new) }
{
    let Ok(text) = verdicts_text(alloc, judged) else {
        return Status::Memory;
    };
    write_both(output, errors, text.as_slice(), b"", status_by(judged))
}

/// Judges a listing, or reports where an input isn't one.
pub(crate) fn check<O: Sink, E: Sink>(
    alloc: Global,
    text: &[u8],
    output: &mut O,
    errors: &mut E,
) -> Status
    ensures { IsAnswer Command.Check result text.now (observed O.taken O.faults output.old output.new)
        (observed E.taken E.faults errors.old errors.new) }
{
    match check_listing(alloc, text) {
        Ok(judged) => print(alloc, judged.as_slice(), output, errors),
        Err(CertError::NotListing { line }) => refuse(alloc, Refusal::NotPages { line }, errors),
        Err(CertError::Memory) => Status::Memory,
    }
}
