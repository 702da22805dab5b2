//! Strings, as words are spelled in parentheses.

ghost use Rattle.std.specs.Prelude.{codes, ◌++◌};
ghost use Rattle.std.specs.Prelude.{◌≡◌, ◌∷◌, ◌≤◌, true, false, IfOk};
ghost use Rattle.ps_text.specs.Fields.{is_special};
ghost use Rattle.ps_steps.specs.Tokens.{Front};
ghost use Rattle.ps_tokens.specs.Reading.{read_of};
ghost use Rattle.ps_tokens.specs.Spelling.{IsSpelling, is_bare, is_lead, is_octal};

use crate::front::TokenStart;
use mus_units::{Memory, Text};
use ps_steps::{Cause, SimpleToken};
use std::alloc::Global;

/// What the bytes within a string begin with: a spelled byte, the closing parenthesis, the beginning of a spelled
/// byte cut off by the end of the bytes, or something that no string has.
#[derive(Drop)]
pub enum Spelling<'a> {
    Byte(u8, &'a [u8]),
    Close(&'a [u8]),
    Cut,
    Broken,
}

fn is_special(b: u8) -> bool
    ensures { result ≡ is_special b }
{
    b == b'(' || b == b')' || b == b'\\'
}

/// Returns whether a byte stands for itself.
fn is_bare(b: u8) -> bool
    ensures { result ≡ is_bare b }
{
    b' ' <= b && b <= b'~' && !is_special(b)
}

/// Returns whether a byte is the first octal digit of a spelled byte.
fn is_lead(b: u8) -> bool
    ensures { result ≡ is_lead b }
{
    b'2' <= b && b <= b'3'
}

fn is_octal(b: u8) -> bool
    ensures { result ≡ is_octal b }
{
    b'0' <= b && b <= b'7'
}

/// The first of the bytes that are spelled by three octal digits.
const FIRST_HIGH: u8 = 160;

/// Reads on after a backslash and two octal digits.
fn third(a: u8, b: u8, bytes: &[u8]) -> Spelling<'_>
    requires lead { is_lead a ≡ true }
    requires octal { is_octal b ≡ true }
    ensures { IsSpelling (codes "\\" ++ a ∷ b ∷ bytes.now) result }
{
    let value = (a - b'0') * 64 + (b - b'0') * 8;
    if value < FIRST_HIGH {
        return Spelling::Broken;
    }
    match bytes.split_first() {
        None => Spelling::Cut,
        Some((c, rest)) => {
            if is_octal(*c) {
                Spelling::Byte(value + (*c - b'0'), rest)
            } else {
                Spelling::Broken
            }
        }
    }
}

/// Reads on after a backslash and a byte that is neither a parenthesis nor a backslash.
fn second(a: u8, bytes: &[u8]) -> Spelling<'_>
    requires { is_special a ≡ false }
    ensures { IsSpelling (codes "\\" ++ a ∷ bytes.now) result }
{
    if !is_lead(a) {
        return Spelling::Broken;
    }
    match bytes.split_first() {
        None => Spelling::Cut,
        Some((b, rest)) => {
            if is_octal(*b) {
                third(a, *b, rest)
            } else {
                Spelling::Broken
            }
        }
    }
}

/// Reads on after a backslash.
fn escaped(bytes: &[u8]) -> Spelling<'_>
    ensures { IsSpelling (codes "\\" ++ bytes.now) result }
{
    match bytes.split_first() {
        None => Spelling::Cut,
        Some((a, rest)) => {
            if is_special(*a) {
                Spelling::Byte(*a, rest)
            } else {
                second(*a, rest)
            }
        }
    }
}

/// Reads what the bytes within a string begin with.
fn read_spelling(bytes: &[u8]) -> Spelling<'_>
    ensures { IsSpelling bytes.now result }
{
    match bytes.split_first() {
        None => Spelling::Cut,
        Some((b, rest)) => match *b {
            b')' => Spelling::Close(rest),
            b'\\' => escaped(rest),
            byte => {
                if is_bare(byte) {
                    Spelling::Byte(byte, rest)
                } else {
                    Spelling::Broken
                }
            }
        },
    }
}

/// Reads what follows a `(`.
pub fn string(alloc: Global, bytes: &[u8]) -> Result<TokenStart<'_>, Memory>
    ensures { IfOk result (λ r. Front (codes "(" ++ bytes.now) (read_of r)) }
{
    let mut words = Text::new(alloc);
    let mut rest = bytes;
    loop {
        match read_spelling(rest) {
            Spelling::Byte(b, after) => {
                words.push(b)?;
                rest = after;
            }
            Spelling::Close(after) => return Ok(TokenStart::Found(
                SimpleToken::Words(words),
                after,
            )),
            Spelling::Cut => return Ok(TokenStart::Unread(Cause::Unclosed)),
            Spelling::Broken => return Ok(TokenStart::Unread(Cause::BadToken)),
        }
    }
}
