//! The words of the command line, and generated books.

use abcps_words::{Command, command_of, usage};
use case_texts::{CaseError, Report};
use gen_book::make;
use mus_units::{Memory, Spread};
use std::alloc::Global;

/// Returns the words of a line; a line of `-` has none.
fn words_of(alloc: Global, line: &str) -> Result<Vec<String>, Memory> {
    let mut words = Vec::new(alloc);
    if line != "-" {
        for word in line.split(' ') {
            words.push(String::from_str(alloc, word)?)?;
        }
    }
    Ok(words)
}

fn spread_name(spread: Spread) -> &'static str {
    match spread {
        Spread::Not => "not",
        Spread::Octave => "octave",
        Spread::Pitch => "pitch",
    }
}

fn put_command(out: &mut Report, command: Command) -> Result<(), CaseError> {
    match command {
        Command::Set {
            flow,
            jobs,
            by,
            even,
        } => {
            out.next(b"set")?;
            out.flag(flow, b"flow")?;
            out.flag(even, b"even")?;
            out.tell(format_args!("{jobs} {by}"))
        }
        Command::Systems { flow, table, by } => {
            out.next(b"systems")?;
            out.flag(flow, b"flow")?;
            out.flag(table, b"table")?;
            out.tell(by)
        }
        Command::Inspect => out.next(b"inspect"),
        Command::Check => out.next(b"check"),
        Command::Paint => out.next(b"paint"),
        Command::Hear { spread } => {
            out.next(b"hear")?;
            out.tell(spread_name(spread))
        }
        Command::Make { tunes } => out.next_number(b"make ", tunes),
        Command::Trial {
            tunes,
            flow,
            jobs,
            even,
        } => {
            out.next_number(b"trial ", tunes)?;
            out.flag(flow, b"flow")?;
            out.flag(even, b"even")?;
            out.tell(jobs)
        }
    }
}

/// Adds for each line what its words ask for, and how much input may be read for it.
pub(crate) fn put_commands(out: &mut Report, text: &str) -> Result<(), CaseError> {
    for line in text.lines() {
        let words = words_of(out.alloc, line)?;
        match command_of(&words) {
            Some(command) => {
                put_command(out, command)?;
                out.next_number(b"of ", command.limit())?;
            }
            None => out.next(b"usage")?,
        }
        out.end_line()?;
    }
    out.next(usage())
}

/// Adds the generated book of a number of tunes: how many bytes it has, its beginning and its end.
pub(crate) fn put_made(out: &mut Report, tunes: u32) -> Result<(), CaseError> {
    if tunes < 1 || tunes > 500 {
        return out.next(b"no book\n");
    }
    let book = make(out.alloc, tunes)?;
    let bytes = book.as_slice();
    out.tell(bytes.len())?;
    out.end_line()?;
    out.next(&bytes[..bytes.len().min(80)])?;
    out.next(b"..")?;
    out.next(&bytes[bytes.len().saturating_sub(80)..])
}
