ghost use Rattle.std.specs.Prelude.{◌≡◌, [], IfOk};
ghost use Rattle.ps_reports.specs.SheetText.{sheet_report};
ghost use Rattle.eng_io.specs.Streams.{observed};
ghost use Rattle.abcps.specs.Calls.{Shows};
ghost use Rattle.abcps.specs.Outcome.{IsAnswer, IsAnswered};
ghost use Rattle.abcps.specs.declared.status.Status.{Status};
ghost use Rattle.abcps_words.specs.declared.command.Command.{Command};

use crate::refusing::Refusal;
use crate::reporting::{refuse, write_both};
use crate::status::Status;
use eng_io::Sink;
use ps_read::{PagesError, read_document};
use ps_reports::report_of;
use ps_text::Sheet;
use std::alloc::Global;

/// Prints what a sheet shows.
fn print<O: Sink, E: Sink>(alloc: Global, sheet: &Sheet, output: &mut O, errors: &mut E) -> Status
    ensures { IsAnswered
        (λ called. called ≡ record { page = sheet_report sheet.now; reported = []; status = Status.Done })
        result (observed O.taken O.faults output.old output.new) (observed E.taken E.faults errors.old errors.new) }
{
    let Ok(report) = report_of(alloc, sheet) else {
        return Status::Memory;
    };
    write_both(output, errors, report.as_slice(), b"", Status::Done)
}

/// Prints everything that pages show, or reports where an input isn't a document.
pub(crate) fn inspect<O: Sink, E: Sink>(
    alloc: Global,
    text: &[u8],
    output: &mut O,
    errors: &mut E,
) -> Status
    ensures { IsAnswer Command.Inspect result text.now (observed O.taken O.faults output.old output.new)
        (observed E.taken E.faults errors.old errors.new) }
{
    match read_document(alloc, text) {
        Ok(sheet) => print(alloc, &sheet, output, errors),
        Err(PagesError::NotPages { line }) => refuse(alloc, Refusal::NotPages { line }, errors),
        Err(PagesError::Memory) => Status::Memory,
    }
}
