ghost use Rattle.abcps_words.specs.Limits.{tune_limit};
ghost use Rattle.std.specs.Prelude.{◌≡◌, ◌≤◌, []};
ghost use Rattle.eng_io.specs.Streams.{observed};
ghost use Rattle.abcps_words.specs.declared.command.Command.{Command};
ghost use Rattle.abcps.specs.Outcome.{IsAnswer};

use crate::reporting::write_both;
use crate::status::Status;
use eng_io::Sink;
use gen_book::make;
use std::alloc::Global;

/// Writes the generated book of the given number of tunes.
pub(crate) fn make_book<O: Sink, E: Sink>(
    alloc: Global,
    tunes: u32,
    output: &mut O,
    errors: &mut E,
) -> Status
    requires some { 1 ≤ tunes }
    requires few { tunes ≤ tune_limit }
    ensures { IsAnswer (Command.Make tunes) result [] (observed O.taken O.faults output.old output.new)
        (observed E.taken E.faults errors.old errors.new) }
{
    let Ok(book) = make(alloc, tunes) else {
        return Status::Memory;
    };
    write_both(output, errors, book.as_slice(), b"", Status::Done)
}
