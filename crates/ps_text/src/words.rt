ghost use Rattle.std.specs.Prelude.{◌≡◌, ℕ, ◌<◌, ◌≤◌, ◌+◌, ◌/◌, ◌%◌, ◌++◌, ◌∷◌, [], List, Some, IfSome, IfOk};
ghost use Rattle.std.specs.Prelude.{IsSomeAnd, IsNone, length, IsTrue};
ghost use Rattle.std.specs.List.{flat_map, list_all};
ghost use Rattle.glyph_paths.specs.Characters.{backslash, close_parenthesis, digit};
ghost use Rattle.ps_text.specs.Fields.{is_special, shown, in_parentheses};
ghost use Rattle.ps_text.specs.Range.{is_shown, IsWords};
ghost use Rattle.ps_text.specs.Scanning.{IsOctal};

use mus_units::{Memory, Text};
use std::alloc::Global;

fn octal(a: u8, b: u8, c: u8) -> Option<u8>
    ensures { (z : ℕ)
        → 160 ≤ z → z < 256 → a ≡ digit (z / 64) → b ≡ digit (z / 8 % 8) → c ≡ digit (z % 8) → result ≡ Some z }
{
    if !(b'2' <= a && a <= b'3') {
        return None;
    }
    if !(b'0' <= b && b <= b'7') {
        return None;
    }
    if !(b'0' <= c && c <= b'7') {
        return None;
    }
    Some((a - b'0') * 64 + (b - b'0') * 8 + (c - b'0'))
}

fn is_special(b: u8) -> bool
    ensures { result ≡ is_special b }
{
    b == b'(' || b == b')' || b == b'\\'
}

/// Returns the byte that three octal digits show, the first of which is `a`, and the rest.
fn take_octal(a: u8, bytes: &[u8]) -> Option<(u8, &[u8])>
    ensures shorter { IfSome result (λ r. length r.1.now < length bytes.now) }
    ensures reads { (z : ℕ) (rest : List ℕ)
        → IsOctal z rest a bytes.now → IsSomeAnd result (λ r. (r.0 ≡ z) × (r.1.now ≡ rest)) }
{
    match bytes {
        [b, c, rest @ ..] => {
            let byte = octal(a, *b, *c)?;
            Some((byte, rest))
        }
        _ => None,
    }
}

/// Returns the byte that follows a backslash, as it is or as three octal digits, and the rest.
fn take_escaped(bytes: &[u8]) -> Option<(u8, &[u8])>
    ensures shorter { IfSome result (λ r. length r.1.now < length bytes.now) }
    ensures reads { (b : ℕ) (rest : List ℕ)
        → IsTrue (is_shown b) → backslash ∷ bytes.now ≡ shown b ++ rest
        → IsSomeAnd result (λ r. (r.0 ≡ b) × (r.1.now ≡ rest)) }
{
    match bytes {
        [] => None,
        [first, rest @ ..] => {
            if is_special(*first) {
                Some((*first, rest))
            } else {
                take_octal(*first, rest)
            }
        }
    }
}

/// Returns the byte that is shown at the start of words, and the rest; `None` if the words end.
fn take_shown(bytes: &[u8]) -> Option<(u8, &[u8])>
    ensures shorter { IfSome result (λ r. length r.1.now < length bytes.now) }
    ensures reads { (b : ℕ) (rest : List ℕ)
        → IsTrue (is_shown b) → bytes.now ≡ shown b ++ rest → IsSomeAnd result (λ r. (r.0 ≡ b) × (r.1.now ≡ rest)) }
    ensures ends { (rest : List ℕ) → bytes.now ≡ close_parenthesis ∷ rest → IsNone result }
{
    match bytes {
        [] => None,
        [first, rest @ ..] => match *first {
            b')' => None,
            b'\\' => take_escaped(rest),
            byte => Some((byte, rest)),
        },
    }
}

/// Returns the words at the start of these bytes, and the rest from their closing parenthesis on.
pub fn take_words(alloc: Global, bytes: &[u8]) -> Result<(Text, &[u8]), Memory>
    ensures { IfOk result (λ r.
        (words : List ℕ) (tail : List ℕ)
        → IsTrue (list_all is_shown words)
        → bytes.now ≡ flat_map shown words ++ close_parenthesis ∷ tail
        → (r.0 ≡ words) × (r.1.now ≡ close_parenthesis ∷ tail)) }
{
    let mut text = Text::new(alloc);
    let mut rest = bytes;
    while let Some((b, after)) = take_shown(rest) {
        text.push(b)?;
        rest = after;
    }
    Ok((text, rest))
}
