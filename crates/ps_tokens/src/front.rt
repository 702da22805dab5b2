//! What a text begins with.

ghost use Rattle.std.specs.Prelude.{codes};
ghost use Rattle.std.specs.Prelude.{◌≡◌, ◌≤◌, ◌++◌, ◌∷◌, ℕ, List, length, true, false, IfOk, MatchOption};
ghost use Rattle.ps_steps.specs.Tokens.{font_line, begins, is_regular, is_skipped, Front};
ghost use Rattle.ps_tokens.specs.Reading.{read_of};

use crate::number::word_token;
use crate::scan::{is_name, word};
use crate::string::string;
use mus_units::{Memory, Text};
use ps_steps::{Cause, SimpleToken};
use std::alloc::Global;

/// What some bytes begin with.
#[derive(Drop)]
pub enum TokenStart<'a> {
    Found(SimpleToken, &'a [u8]),
    Opening(&'a [u8]),
    Closing(&'a [u8]),
    Unread(Cause),
}

const FONT: &[u8] =
    b"/Courier findfont dup length dict begin {1 index /FID ne {def} {pop pop} ifelse} forall /Encoding \
      ISOLatin1Encoding def currentdict end /EngFont exch definefont pop";

fn font_bytes() -> &'static [u8]
    ensures { result.now ≡ font_line }
{
    FONT
}

fn strip<'a>(prefix: &[u8], bytes: &'a [u8]) -> Option<&'a [u8]>
    ensures { MatchOption result ((rest : List ℕ) → bytes.now ≡ prefix.now ++ rest → ⊥)
        (λ rest. bytes.now ≡ prefix.now ++ rest.now) }
{
    bytes.strip_prefix(prefix)
}

/// Reads what begins with a slash.
fn slash<'a>(alloc: Global, bytes: &'a [u8], after: &'a [u8]) -> Result<TokenStart<'a>, Memory>
    requires { bytes.now ≡ codes "/" ++ after.now }
    ensures { IfOk result (λ r. Front bytes.now (read_of r)) }
{
    if let Some(rest) = strip(font_bytes(), bytes) {
        return Ok(TokenStart::Found(SimpleToken::Font, rest));
    }
    let (name, rest) = word(after);
    if !is_name(name) {
        return Ok(TokenStart::Unread(Cause::BadToken));
    }
    Ok(TokenStart::Found(SimpleToken::Label(Text::from_slice(alloc, name)?), rest))
}

/// Reads what begins with a byte of a word.
fn regular(alloc: Global, bytes: &[u8]) -> Result<TokenStart<'_>, Memory>
    requires { begins is_regular bytes.now ≡ true }
    ensures { IfOk result (λ r. Front bytes.now (read_of r)) }
{
    let (w, rest) = word(bytes);
    match word_token(alloc, w)? {
        Some(t) => Ok(TokenStart::Found(t, rest)),
        None => Ok(TokenStart::Unread(Cause::BadToken)),
    }
}

/// Reads what begins the bytes, which don't begin with a blank or a comment.
pub fn front(alloc: Global, bytes: &[u8]) -> Result<TokenStart<'_>, Memory>
    requires some { 1 ≤ length bytes.now }
    requires starts { begins is_skipped bytes.now ≡ false }
    ensures { IfOk result (λ r. Front bytes.now (read_of r)) }
{
    match bytes.split_first() {
        None => Ok(TokenStart::Unread(Cause::BadToken)),
        Some((b, rest)) => match *b {
            b'(' => string(alloc, rest),
            b')' => Ok(TokenStart::Unread(Cause::BadToken)),
            b'{' => Ok(TokenStart::Opening(rest)),
            b'}' => Ok(TokenStart::Closing(rest)),
            b'/' => slash(alloc, bytes, rest),
            _ => regular(alloc, bytes),
        },
    }
}
