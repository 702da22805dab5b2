ghost use Rattle.abcps_words.specs.Limits.{job_limit};
ghost use Rattle.std.specs.Prelude.{◌≡◌, ◌++◌, ◌∷◌, ◌↔◌, ℕ, ℤ, List, IsTrue, MatchOption, decimal, map, string_bytes};
ghost use Rattle.std.specs.Fmt.{signed_decimal};
ghost use Rattle.abcps_words.specs.Words.{IsUpTo, IsMove, flag_words, IsFlag, IsSpelled, said};
ghost use Rattle.abcps_words.specs.Adding.{with_option, no_options};

use crate::words::{is_word, take_half_steps, take_number};

/// An option among the words.
#[derive(Clone, Copy, PartialEq, Eq)]
pub enum Flag {
    /// `--flow`
    Flow,
    /// `--table`
    Table,
    /// `--even`
    Even,
    /// `--jobs` and a number.
    Jobs(u8),
    /// `--transpose` and a number of half steps.
    Transpose(i8),
}

/// What the options say together.
#[derive(Clone, Copy, PartialEq, Eq)]
pub struct Options {
    /// Whether `--flow` is given.
    pub flow: bool,
    /// Whether `--table` is given.
    pub table: bool,
    /// Whether `--even` is given.
    pub even: bool,
    /// The number of `--jobs`, if given.
    pub jobs: Option<u8>,
    /// The half steps of `--transpose`, if given.
    pub by: Option<i8>,
}

const MOST_JOBS: u32 = 64;

/// Returns the number of jobs at the start of the words, and the words after it.
fn take_jobs(words: &[String]) -> Option<(u8, &[String])>
    ensures { MatchOption result
        ((n : ℕ) (rest : List (List ℕ)) → IsUpTo job_limit n → map string_bytes words.now ≡ decimal n ∷ rest → ⊥)
        (λ z. IsUpTo job_limit z.0 × (map string_bytes words.now ≡ decimal z.0 ∷ map string_bytes z.1.now)) }
{
    let (jobs, rest) = take_number(MOST_JOBS, words)?;
    Some((jobs as u8, rest))
}

/// Returns the option at the start of the words, and the words after it.
fn take_flag(words: &[String]) -> Option<(Flag, &[String])>
    ensures { MatchOption result
        ((flag : Flag) (rest : List (List ℕ)) → IsFlag flag → map string_bytes words.now ≡ flag_words flag ++ rest → ⊥)
        (λ z. IsFlag z.0 × (map string_bytes words.now ≡ flag_words z.0 ++ map string_bytes z.1.now)) }
{
    let (word, rest) = words.split_first()?;
    if is_word(word.as_bytes(), b"--flow") {
        Some((Flag::Flow, rest))
    } else if is_word(word.as_bytes(), b"--table") {
        Some((Flag::Table, rest))
    } else if is_word(word.as_bytes(), b"--even") {
        Some((Flag::Even, rest))
    } else if is_word(word.as_bytes(), b"--jobs") {
        let (jobs, rest) = take_jobs(rest)?;
        Some((Flag::Jobs(jobs), rest))
    } else if is_word(word.as_bytes(), b"--transpose") {
        let (by, rest) = take_half_steps(rest)?;
        Some((Flag::Transpose(by), rest))
    } else {
        None
    }
}

impl Options {
    /// Returns what no options say.
    pub const fn none() -> Options
        ensures { result ≡ no_options }
    {
        Options {
            flow: false,
            table: false,
            even: false,
            jobs: None,
            by: None,
        }
    }

    /// Returns what the options say with one more, if none of its kind is among them.
    fn with(self, flag: Flag) -> Option<Options>
        ensures { result ≡ with_option self flag }
    {
        match flag {
            Flag::Flow if !self.flow => Some(Options { flow: true, ..self }),
            Flag::Table if !self.table => Some(Options {
                table: true,
                ..self
            }),
            Flag::Even if !self.even => Some(Options { even: true, ..self }),
            Flag::Jobs(jobs) if self.jobs.is_none() => Some(Options {
                jobs: Some(jobs),
                ..self
            }),
            Flag::Transpose(by) if self.by.is_none() => Some(Options {
                by: Some(by),
                ..self
            }),
            _ => None,
        }
    }
}

/// Returns what the options spelled by these words say, each given at most once.
pub fn options_of(words: &[String]) -> Option<Options>
    ensures { MatchOption result
        ((flags : List Flag) → IsSpelled flags (map string_bytes words.now) → ⊥)
        (λ options. (flags : List Flag) × IsSpelled flags (map string_bytes words.now) × (options ≡ said flags)) }
{
    let mut options = Options::none();
    let mut rest = words;
    while !rest.is_empty() {
        let (flag, following) = take_flag(rest)?;
        options = options.with(flag)?;
        rest = following;
    }
    Some(options)
}
