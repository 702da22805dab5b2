ghost use Rattle.std.specs.Prelude.{◌≡◌, ◌++◌, ◌∷◌, ℕ, List, IfSome, IfNone, MatchOption, map, string_bytes};
ghost use Rattle.abcps_words.specs.Words.{name_bytes, spread_word, prefix_of, HasTunes, SaysCommand};
ghost use Rattle.abcps_words.specs.Command.{Asks, IsListed, IsGoodCommand, limit_of, AsksOne, AskedIsGood};
ghost use Rattle.abcps_words.specs.Usage.{usage_line};

use crate::options::{Options, options_of};
use crate::words::{is_word, take_number};
use mus_units::Spread;

/// The name of a command.
#[derive(Clone, Copy, PartialEq, Eq)]
enum Name {
    Set,
    Systems,
    Inspect,
    Check,
    Make,
    Trial,
    Paint,
    Hear,
}

/// What the program is asked to do.
#[derive(Clone, Copy, PartialEq, Eq)]
pub enum Command {
    /// Read a book and write its pages by 1 to 64 `jobs`, -12 to 12 half steps higher, with `even` on even pages;
    /// with `flow` no line break is forced.
    Set {
        flow: bool,
        jobs: u8,
        by: i8,
        even: bool,
    },
    /// Read a book and write its systems: with `table` as a listing, and -12 to 12 half steps higher.
    Systems {
        flow: bool,
        table: bool,
        by: i8,
    },
    /// Read pages and print what they show.
    Inspect,
    /// Read a listing and judge it.
    Check,
    /// Write the generated book of 1 to 500 tunes.
    Make {
        tunes: u32,
    },
    /// Set the generated book of 1 to 500 tunes by 1 to 64 `jobs`, with `even` on even pages, and write one line
    /// about it.
    Trial {
        tunes: u32,
        flow: bool,
        jobs: u8,
        even: bool,
    },
    /// Run any bytes as pages and print what they paint.
    Paint,
    /// Read pages and print what their tunes sound, if an accidental reaches as far as `spread` says.
    Hear {
        spread: Spread,
    },
}

/// The most bytes that a book may have.
pub const BOOK_LIMIT: u64 = 8_388_608;

/// The most bytes that pages, a listing or the input of `paint` may have.
pub const PAGES_LIMIT: u64 = 268_435_456;

const MOST_TUNES: u32 = 500;

/// The number of jobs if no option gives it.
const DEFAULT_JOBS: u8 = 1;

/// The half steps if no option gives them.
const DEFAULT_HALF_STEPS: i8 = 0;

/// The text of the usage line, which `usage` returns.
const USAGE: &[u8] =
    b"usage: abcps set [--flow] [--jobs N] [--transpose N] [--even] | systems [--flow] [--table] [--transpose N] | \
      inspect | check | make N | trial N [--flow] [--jobs N] [--even] | paint | hear W\n";

impl Command {
    /// Returns the most bytes that the command's input may have; 0 if it reads none.
    pub fn limit(self) -> u64
        ensures { result ≡ limit_of self }
    {
        match self {
            Command::Set { .. } | Command::Systems { .. } => BOOK_LIMIT,
            Command::Inspect | Command::Check | Command::Paint | Command::Hear { .. } =>
                PAGES_LIMIT,
            Command::Make { .. } | Command::Trial { .. } => 0,
        }
    }

    /// Returns the same command with what its options say, if it takes them.
    fn with_options(self, options: Options) -> Option<Command>
        requires { HasTunes self }
        ensures { MatchOption result
            ((c : Command) → prefix_of c ≡ prefix_of self → SaysCommand options c → ⊥)
            (λ c. (prefix_of c ≡ prefix_of self) × HasTunes c × SaysCommand options c) }
    {
        match self {
            Command::Set { .. } if !options.table => Some(Command::Set {
                flow: options.flow,
                jobs: options.jobs.unwrap_or(DEFAULT_JOBS),
                by: options.by.unwrap_or(DEFAULT_HALF_STEPS),
                even: options.even,
            }),
            Command::Systems { .. } if options.jobs.is_none() && !options.even => Some(
                Command::Systems {
                    flow: options.flow,
                    table: options.table,
                    by: options.by.unwrap_or(DEFAULT_HALF_STEPS),
                },
            ),
            Command::Trial { tunes, .. } if !options.table && options.by.is_none() => Some(
                Command::Trial {
                    tunes,
                    flow: options.flow,
                    jobs: options.jobs.unwrap_or(DEFAULT_JOBS),
                    even: options.even,
                },
            ),
            Command::Inspect
            | Command::Check
            | Command::Make { .. }
            | Command::Paint
            | Command::Hear { .. }
                if options == Options::none() => Some(self),
            _ => None,
        }
    }
}

/// Returns the name that a word is.
fn name_of(word: &[u8]) -> Option<Name>
    ensures { MatchOption result ((name : Name) → word.now ≡ name_bytes name → ⊥) (λ name. word.now ≡ name_bytes name) }
{
    if is_word(word, b"set") {
        Some(Name::Set)
    } else if is_word(word, b"systems") {
        Some(Name::Systems)
    } else if is_word(word, b"inspect") {
        Some(Name::Inspect)
    } else if is_word(word, b"check") {
        Some(Name::Check)
    } else if is_word(word, b"make") {
        Some(Name::Make)
    } else if is_word(word, b"trial") {
        Some(Name::Trial)
    } else if is_word(word, b"paint") {
        Some(Name::Paint)
    } else if is_word(word, b"hear") {
        Some(Name::Hear)
    } else {
        None
    }
}

/// Returns the spread that a word is.
fn spread_of(word: &[u8]) -> Option<Spread>
    ensures { MatchOption result ((spread : Spread) → word.now ≡ spread_word spread → ⊥)
        (λ spread. word.now ≡ spread_word spread) }
{
    if is_word(word, b"not") {
        Some(Spread::Not)
    } else if is_word(word, b"octave") {
        Some(Spread::Octave)
    } else if is_word(word, b"pitch") {
        Some(Spread::Pitch)
    } else {
        None
    }
}

/// Returns the spread that the first word is, and the words after it.
fn take_spread(words: &[String]) -> Option<(Spread, &[String])>
    ensures { MatchOption result
        ((spread : Spread) (rest : List (List ℕ)) → map string_bytes words.now ≡ spread_word spread ∷ rest → ⊥)
        (λ z. map string_bytes words.now ≡ spread_word z.0 ∷ map string_bytes z.1.now) }
{
    let (word, rest) = words.split_first()?;
    Some((spread_of(word.as_bytes())?, rest))
}

/// Returns the command that the first words name, without options, and the words after them.
fn take_prefix(words: &[String]) -> Option<(Command, &[String])>
    ensures { MatchOption result
        ((c : Command) (rest : List (List ℕ)) → HasTunes c → map string_bytes words.now ≡ prefix_of c ++ rest → ⊥)
        (λ z. HasTunes z.0 × (map string_bytes words.now ≡ prefix_of z.0 ++ map string_bytes z.1.now)) }
{
    let (word, rest) = words.split_first()?;
    match name_of(word.as_bytes())? {
        Name::Set => Some((
            Command::Set {
                flow: false,
                jobs: DEFAULT_JOBS,
                by: DEFAULT_HALF_STEPS,
                even: false,
            },
            rest,
        )),
        Name::Systems => Some((
            Command::Systems {
                flow: false,
                table: false,
                by: DEFAULT_HALF_STEPS,
            },
            rest,
        )),
        Name::Inspect => Some((Command::Inspect, rest)),
        Name::Check => Some((Command::Check, rest)),
        Name::Paint => Some((Command::Paint, rest)),
        Name::Hear => {
            let (spread, rest) = take_spread(rest)?;
            Some((Command::Hear { spread }, rest))
        }
        Name::Make => {
            let (tunes, rest) = take_number(MOST_TUNES, rest)?;
            Some((Command::Make { tunes }, rest))
        }
        Name::Trial => {
            let (tunes, rest) = take_number(MOST_TUNES, rest)?;
            Some((
                Command::Trial {
                    tunes,
                    flow: false,
                    jobs: DEFAULT_JOBS,
                    even: false,
                },
                rest,
            ))
        }
    }
}

/// Returns the command that the words ask for; `None` exactly if they ask for none. Takes no memory.
pub fn command_of(words: &[String]) -> Option<Command>
    ensures asks { IfSome result (λ c. Asks (map string_bytes words.now) c) }
    ensures ranges { IfSome result IsGoodCommand }
    ensures none { IfNone result (IsListed (map string_bytes words.now) → ⊥) }
{
    let (command, rest) = take_prefix(words)?;
    command.with_options(options_of(rest)?)
}

/// Returns the line that lists the forms of the words, with its line feed.
#[tactic(auto, unfolding(crate::specs::Usage::usage_line))]
pub fn usage() -> &'static [u8]
    ensures { result.now ≡ usage_line }
{
    USAGE
}

/// The law that words ask for at most one command.
pub fn asks_one()
    ensures { AsksOne }
{}

/// The law that a command that words ask for has its numbers in range.
pub fn asked_is_good()
    ensures { AskedIsGood }
{}
