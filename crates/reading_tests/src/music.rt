ghost use Rattle.{abc_lines.specs.Good.{IsGoodLine}, abc_music.specs.Tokens.{IsWithinLine}};

use crate::books::line_of;
use crate::tokens::put_tokens;
use abc_lines::{Fault, Line, TuneError};
use abc_music::{LineRest, Placed, Token, TokenCursor, read_music, read_part, read_prefix, start};
use abc_tokens::spell;
use case_texts::{CaseError, Report, is_given, number_of, put_fault};
use mus_units::{Memory, Row, Text};
use std::alloc::Global;

/// Returns whether an argument says that an exclamation mark is a line break.
fn is_bang(word: &str) -> Result<bool, CaseError> {
    is_given(word, "bang")
}

/// Returns the tokens of a music line.
fn music_of(alloc: Global, bang: bool, bytes: &[u8]) -> Result<Row<Placed>, TuneError> {
    read_music(alloc, &line_of(alloc, bytes)?, bang)
}

/// Adds the tokens of a music line, or its fault.
pub(crate) fn put_music(out: &mut Report, word: &str, bytes: &[u8]) -> Result<(), CaseError> {
    match music_of(out.alloc, is_bang(word)?, bytes) {
        Ok(tokens) => put_tokens(out, tokens.as_slice()),
        Err(error) => put_fault(out, error),
    }
}

/// Adds the tokens of a music line up to its first fault, and that fault if it has one.
pub(crate) fn put_prefix(out: &mut Report, word: &str, bytes: &[u8]) -> Result<(), CaseError> {
    let prefix = read_prefix(out.alloc, &line_of(out.alloc, bytes)?, is_bang(word)?)?;
    put_tokens(out, prefix.tokens.as_slice())?;
    put_end(out, prefix.fault)
}

fn put_end(out: &mut Report, fault: Option<Fault>) -> Result<(), CaseError> {
    match fault {
        Some(fault) => {
            out.line(b"then")?;
            put_fault(out, TuneError::Fault(fault))
        }
        None => Ok(()),
    }
}

/// Adds the number of tokens of the first part of a music line, which is a text repeated a number of times, and then
/// those of the second, or the fault.
pub(crate) fn put_line_parts(out: &mut Report, times: &str, bytes: &[u8]) -> Result<(), CaseError> {
    let text = repeated(out.alloc, number_of::<u64>(times)?, bytes)?;
    put_parts(out, &line_of(out.alloc, text.as_slice())?)
}

fn put_parts(out: &mut Report, line: &Line) -> Result<(), CaseError>
    requires { IsGoodLine line.now }
{
    let first = read_part(out.alloc, line, false, start(line))?;
    out.show(first.tokens.len())?;
    match first.following {
        LineRest::More(place) => put_part(out, line, place),
        LineRest::End(fault) => put_end(out, fault),
    }
}

fn put_part(out: &mut Report, line: &Line, place: TokenCursor<'_>) -> Result<(), CaseError>
    requires line { IsGoodLine line.now }
    requires place { IsWithinLine line.now place }
{
    let part = read_part(out.alloc, line, false, place)?;
    put_tokens(out, part.tokens.as_slice())
}

fn repeated(alloc: Global, times: u64, bytes: &[u8]) -> Result<Text, Memory> {
    let mut text = Text::new(alloc);
    for _ in 0..times {
        text.append(bytes)?;
    }
    Ok(text)
}

/// Adds the plain spelling of the tokens of a music line, or its fault.
pub(crate) fn put_spelling(out: &mut Report, word: &str, bytes: &[u8]) -> Result<(), CaseError> {
    match music_of(out.alloc, is_bang(word)?, bytes) {
        Ok(placed) => put_spelled(out, tokens_of(out.alloc, placed)?.as_slice()),
        Err(error) => put_fault(out, error),
    }
}

fn put_spelled(out: &mut Report, tokens: &[Token]) -> Result<(), CaseError> {
    out.append(spell(out.alloc, tokens)?.as_slice())
}

fn tokens_of(alloc: Global, placed: Row<Placed>) -> Result<Vec<Token>, Memory> {
    let mut tokens = Vec::new(alloc);
    for one in placed.items {
        tokens.push(one.token)?;
    }
    Ok(tokens)
}
