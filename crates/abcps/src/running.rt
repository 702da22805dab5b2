ghost use Rattle.std.specs.Prelude.{◌≡◌, ◌≤◌, length, map, string_bytes};
ghost use Rattle.eng_io.specs.Streams.{observed};
ghost use Rattle.abcps_words.specs.Command.{IsGoodCommand, limit_of};
ghost use Rattle.abcps.specs.Calls.{CallsOne, NeverBoth};
ghost use Rattle.abcps.specs.Outcome.{IsAnswer, IsCommandAnswer, ReadsInput, IsRunAnswer};
ghost use Rattle.abcps.specs.Promises.{Promises};

use crate::books::{set, systems, trial};
use crate::hearing::hear;
use crate::inspecting::inspect;
use crate::judging::check;
use crate::making::make_book;
use crate::painting::paint;
use crate::reporting::report_usage;
use crate::status::Status;
use abcps_words::{Command, asks_one, command_of};
use eng_io::{ReadError, Sink, Source, read_all};
use eng_jobs::Jobs;
use law_one_outcome::every_tune_has_one_outcome;
use mus_units::Text;
use ps_machine::one_answer;
use set_book::Gate;
use set_tune::How;
use std::alloc::Global;
use std::thread::Threads;

/// Does what a reading command asks, with input that was read.
fn answer<R: Threads + Sync, O: Sink, E: Sink, G: Gate + Sync>(
    rt: &R,
    alloc: Global,
    command: Command,
    text: Text,
    output: &mut O,
    errors: &mut E,
    gate: &G,
) -> Status
    requires reader { ReadsInput command }
    requires good { IsGoodCommand command }
    requires within { length text ≤ limit_of command }
    ensures { IsAnswer command result text (observed O.taken O.faults output.old output.new)
        (observed E.taken E.faults errors.old errors.new) }
{
    match command {
        Command::Set {
            flow,
            jobs,
            by,
            even,
        } => {
            let jobs = Jobs { count: jobs };
            let how = How { flow, by, jobs };
            set(rt, alloc, text, how, even, output, errors, gate)
        }
        Command::Systems { flow, table, by } => {
            let jobs = Jobs { count: 1 };
            let how = How { flow, by, jobs };
            systems(rt, alloc, text, how, table, output, errors)
        }
        Command::Inspect => inspect(alloc, text.as_slice(), output, errors),
        Command::Check => check(alloc, text.as_slice(), output, errors),
        Command::Paint => paint(alloc, text.as_slice(), output, errors),
        Command::Hear { spread } => hear(alloc, spread, text.as_slice(), output, errors),
        Command::Make { .. } | Command::Trial { .. } => unreachable!(),
    }
}

/// Reads the input of a reading command, and does what the command asks.
fn read_and_answer<R: Threads + Sync, S: Source, O: Sink, E: Sink, G: Gate + Sync>(
    rt: &R,
    alloc: Global,
    command: Command,
    input: &mut S,
    output: &mut O,
    errors: &mut E,
    gate: &G,
) -> Status
    requires reader { ReadsInput command }
    requires good { IsGoodCommand command }
    ensures { IsCommandAnswer command result (observed S.left S.faults input.old input.new)
        (observed O.taken O.faults output.old output.new) (observed E.taken E.faults errors.old errors.new) }
{
    match read_all(alloc, input, command.limit()) {
        Err(ReadError::Fault) => Status::ReadFault,
        Err(ReadError::TooLong) => Status::TooLong,
        Err(ReadError::Memory) => Status::Memory,
        Ok(text) => answer(rt, alloc, command, text, output, errors, gate),
    }
}

/// Does what a command asks.
fn obey<R: Threads + Sync, S: Source, O: Sink, E: Sink, G: Gate + Sync>(
    rt: &R,
    alloc: Global,
    command: Command,
    input: &mut S,
    output: &mut O,
    errors: &mut E,
    gate: &G,
) -> Status
    requires { IsGoodCommand command }
    ensures { IsCommandAnswer command result (observed S.left S.faults input.old input.new)
        (observed O.taken O.faults output.old output.new) (observed E.taken E.faults errors.old errors.new) }
{
    match command {
        Command::Make { tunes } => make_book(alloc, tunes, output, errors),
        Command::Trial {
            tunes,
            flow,
            jobs,
            even,
        } => {
            let jobs = Jobs { count: jobs };
            trial(rt, alloc, tunes, flow, even, jobs, output, errors, gate)
        }
        _ => read_and_answer(rt, alloc, command, input, output, errors, gate),
    }
}

/// Does what the words say, by cases on the status.
fn run_words<R: Threads + Sync, S: Source, O: Sink, E: Sink, G: Gate + Sync>(
    rt: &R,
    alloc: Global,
    words: &[String],
    input: &mut S,
    output: &mut O,
    errors: &mut E,
    gate: &G,
) -> Status
    ensures { IsRunAnswer result (map string_bytes words.now) (observed S.left S.faults input.old input.new)
        (observed O.taken O.faults output.old output.new) (observed E.taken E.faults errors.old errors.new) }
{
    let Some(command) = command_of(words) else {
        report_usage(errors);
        return Status::Usage;
    };
    obey(rt, alloc, command, input, output, errors, gate)
}

/// The law that commands that differ only in their jobs call for the same answer to an input: a tune has one outcome,
/// a sheet spells one text, a listing has one list of verdicts, and a text is painted in one way.
pub fn calls_one()
    ensures { CallsOne }
{
    every_tune_has_one_outcome();
    one_answer();
}

/// The law that a refused input calls for nothing.
pub fn never_both()
    ensures { NeverBoth }
{
    one_answer();
}

/// Does what the words say. `set` reads a book of at most 8,388,608 bytes and writes its document. `systems` reads
/// the same, and writes its systems or the listing of its spans. `inspect` reads a document of at most 268,435,456
/// bytes and writes everything that it shows. `check` reads a listing with the same limit, and writes the verdict on
/// each of its tunes. `make` writes a generated book; `trial` sets one and writes a line on it. `paint` reads any
/// bytes, with the limit of a document, runs them on the machine, and writes what they paint. `hear` reads a
/// document, and writes what its tunes sound.
///
/// `set` reads its whole book, then writes the pages that one batch of tunes fills before it sets the next batch. It
/// reports faults after the document is written. If a write fails or memory runs out while tunes are left, the bytes
/// written are a prefix of the whole book's document, since each tune has an outcome, set or not. They are no document
/// themselves, and nothing is reported then.
///
/// Faulty tunes of `set` and `systems` are reported on `errors`, one line each. With `flow` no bar is forced. A score
/// is moved by `by` semitones before it is set. With `even` the groups of blocks are divided into pages so that no
/// other division that fits has a smaller total. `jobs` tunes are set in parallel if threads can be made; the bytes
/// written are the same for every number of jobs. Each tune enters `gate` before it is set: once, or twice by `set`
/// with `even`, which first sets the tunes for their heights. The promises define by name what each status means and
/// what it leaves on each stream.
pub fn run<R: Threads + Sync, S: Source, O: Sink, E: Sink, G: Gate + Sync>(
    rt: &R,
    alloc: Global,
    words: &[String],
    input: &mut S,
    output: &mut O,
    errors: &mut E,
    gate: &G,
) -> Status
    ensures { Promises result (map string_bytes words.now) (observed S.left S.faults input.old input.new)
        (observed O.taken O.faults output.old output.new) (observed E.taken E.faults errors.old errors.new) }
{
    asks_one();
    calls_one();
    never_both();
    run_words(rt, alloc, words, input, output, errors, gate)
}
