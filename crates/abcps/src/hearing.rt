ghost use Rattle.std.specs.Prelude.{◌≡◌, [], IfOk};
ghost use Rattle.ps_heard.specs.HeardText.{heard_text};
ghost use Rattle.eng_io.specs.Streams.{observed};
ghost use Rattle.abcps.specs.Outcome.{IsAnswer, IsAnswered};
ghost use Rattle.abcps.specs.declared.status.Status.{Status};
ghost use Rattle.abcps_words.specs.declared.command.Command.{Command};

use crate::refusing::Refusal;
use crate::reporting::{refuse, write_both};
use crate::status::Status;
use eng_io::Sink;
use mus_units::{Memory, Spread, Text};
use ps_read::{PagesError, put_heard, read_document};
use ps_text::Sheet;
use std::alloc::Global;

/// Returns the text of what a sheet sounds.
fn text_of(alloc: Global, spread: Spread, sheet: &Sheet) -> Result<Text, Memory>
    ensures { IfOk result (λ text. text ≡ heard_text spread sheet.now) }
{
    let mut text = Text::new(alloc);
    put_heard(alloc, &mut text, sheet, spread)?;
    Ok(text)
}

/// Prints what a sheet sounds.
fn print<O: Sink, E: Sink>(
    alloc: Global,
    spread: Spread,
    sheet: &Sheet,
    output: &mut O,
    errors: &mut E,
) -> Status
    ensures { IsAnswered
        (λ called. called ≡ record { page = heard_text spread sheet.now; reported = []; status = Status.Done }) result
        (observed O.taken O.faults output.old output.new) (observed E.taken E.faults errors.old errors.new) }
{
    let Ok(text) = text_of(alloc, spread, sheet) else {
        return Status::Memory;
    };
    write_both(output, errors, text.as_slice(), b"", Status::Done)
}

/// Prints what the tunes of pages sound, or reports where an input isn't a document.
pub(crate) fn hear<O: Sink, E: Sink>(
    alloc: Global,
    spread: Spread,
    text: &[u8],
    output: &mut O,
    errors: &mut E,
) -> Status
    ensures { IsAnswer (Command.Hear spread) result text.now (observed O.taken O.faults output.old output.new)
        (observed E.taken E.faults errors.old errors.new) }
{
    match read_document(alloc, text) {
        Ok(sheet) => print(alloc, spread, &sheet, output, errors),
        Err(PagesError::NotPages { line }) => refuse(alloc, Refusal::NotPages { line }, errors),
        Err(PagesError::Memory) => Status::Memory,
    }
}
