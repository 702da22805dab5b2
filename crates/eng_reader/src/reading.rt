ghost use Rattle.std.specs.Prelude.{◌≡◌, IfOk, IfErr};
ghost use Rattle.eng_lines.specs.Lines.{Lacks};
ghost use Rattle.eng_reader.specs.Grammar.{Grammar, IsUnambiguous};
ghost use Rattle.eng_reader.specs.Answers.{IsGoodThroughout, IsCause, IsStep, IsFinish};
ghost use Rattle.eng_reader.specs.declared.reading.LineError.TheVariants as answer;

use eng_lines::cut_at;
use mus_units::Memory;
use std::alloc::Global;

/// Why a text says nothing.
#[derive(Clone, Copy, PartialEq, Eq)]
pub enum LineError {
    /// `line` is the first line that isn't good given the lines before it, or one past the last if the text ends
    /// early.
    Bad { line: u64 },
    /// Memory ran out.
    Memory,
}

impl From<Memory> for LineError {
    ghost from_gives = { λ _ e. e ≡ answer.Memory };

    fn from(_: Memory) -> Self {
        LineError::Memory
    }
}

/// What is known from the lines so far of a text.
pub trait LineReader<S> {
    // The texts that are read.
    ghost grammar: { Grammar };

    // What is known, as a state of the grammar.
    ghost is_at: { Self → grammar.State → Type 0 };

    // What is returned of what a text says.
    ghost says: { grammar.Whole → S → Type 0 };

    /// Returns what is known after one more line, or `None` if the line isn't good. Errors: only `Memory`.
    fn step(self, alloc: Global, raw: &[u8]) -> Result<Option<Self>, Memory>
        requires unbroken { Lacks 10 raw.now }
        requires at { (p : grammar.State) × is_at self p }
        ensures { (p : grammar.State) → is_at self p → IfOk result (IsStep grammar is_at p raw.now) };

    /// Returns what the text says, or `None` if the last line doesn't end it.
    fn finish(self) -> Option<S>
        ensures { (p : grammar.State) → is_at self p → IsFinish grammar says p result };
}

/// Returns what the text says.
///
/// A last piece without an LF is a line that isn't good. Each line is read once.
pub fn read_lines<S, R: LineReader<S> + Drop>(
    alloc: Global,
    mut reader: R,
    text: &[u8],
) -> Result<S, LineError>
    requires begun { R.is_at reader R.grammar.begun }
    requires unambiguous { IsUnambiguous R.grammar }
    ensures said { IfOk result
        (λ said. (whole : R.grammar.Whole) × IsGoodThroughout R.grammar text.now whole × R.says whole said) }
    ensures cause { IfErr result (IsCause R.grammar text.now) }
{
    let mut rest = text;
    let mut line: u64 = 1;
    while let Some((raw, following)) = cut_at(b'\n', rest) {
        let Some(next) = reader.step(alloc, raw)? else {
            return Err(LineError::Bad { line });
        };
        reader = next;
        rest = following;
        line += 1;
    }
    if !rest.is_empty() {
        return Err(LineError::Bad { line });
    }
    match reader.finish() {
        Some(said) => Ok(said),
        None => Err(LineError::Bad { line }),
    }
}
