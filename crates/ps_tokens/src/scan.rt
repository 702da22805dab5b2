//! Bytes of blanks, comments and words.

ghost use Rattle.std.specs.Prelude.{◌≡◌, ◌≤◌, ◌++◌, ◌||◌, length, true, false};
ghost use Rattle.std.specs.List.{list_all, prefix_len};
ghost use Rattle.mus_units.specs.Bytes.{is_digit, is_letter};
ghost use Rattle.ps_steps.specs.Tokens.{is_white_space, is_delimiter, is_regular, is_skipped, passed, begins};
ghost use Rattle.ps_steps.specs.Tokens.{some_digits, unsigned, is_whole, is_fraction, is_pointed, is_name};

use mus_units::bytes::{is_digit, is_letter};

/// Returns whether a byte is a space, a tab, a CR or an LF.
pub fn is_blank(b: u8) -> bool
    ensures { result ≡ is_white_space b }
{
    b == b' ' || b == b'\t' || b == b'\r' || b == b'\n'
}

/// Returns whether a byte is a parenthesis, a brace, a slash or a %.
pub fn is_delimiter(b: u8) -> bool
    ensures { result ≡ is_delimiter b }
{
    b == b'(' || b == b')' || b == b'{' || b == b'}' || b == b'/' || b == b'%'
}

/// Returns whether a byte is one of a word.
pub fn is_regular(b: u8) -> bool
    ensures { result ≡ is_regular b }
{
    !(is_blank(b) || is_delimiter(b))
}

/// Returns the bytes after the leading blanks and comments.
pub fn skip(bytes: &[u8]) -> &[u8]
    ensures passed { result.now ≡ passed false bytes.now }
    ensures starts { begins is_skipped result.now ≡ false }
{
    let mut inside = false;
    let mut rest = bytes;
    while let Some((b, after)) = rest.split_first() {
        if inside {
            inside = *b != b'\n';
        } else if *b == b'%' {
            inside = true;
        } else if !is_blank(*b) {
            return rest;
        }
        rest = after;
    }
    rest
}

fn word_len(bytes: &[u8]) -> usize
    ensures value { result ≡ prefix_len is_regular bytes.now }
    ensures within { result ≤ length bytes.now }
{
    bytes.iter().take_while(|b| is_regular(**b)).count()
}

/// Splits the bytes into their first word, which may be empty, and the rest.
pub fn word(bytes: &[u8]) -> (&[u8], &[u8])
    ensures cut { bytes.now ≡ result.0.now ++ result.1.now }
    ensures regular { list_all is_regular result.0.now ≡ true }
    ensures maximal { begins is_regular result.1.now ≡ false }
{
    bytes.split_at(word_len(bytes))
}

fn are_digits(w: &[u8]) -> bool
    ensures { result ≡ list_all is_digit w.now }
{
    w.iter().all(|b| is_digit(*b))
}

fn are_some_digits(w: &[u8]) -> bool
    ensures { result ≡ some_digits w.now }
{
    !w.is_empty() && are_digits(w)
}

/// Returns the word without a leading minus.
pub fn unsigned(w: &[u8]) -> &[u8]
    ensures { result.now ≡ unsigned w.now }
{
    match w.split_first() {
        Some((b, rest)) if *b == b'-' => rest,
        _ => w,
    }
}

/// Returns whether a word is a whole number.
pub fn is_whole(w: &[u8]) -> bool
    ensures { result ≡ is_whole w.now }
{
    are_some_digits(unsigned(w))
}

fn are_letters_or_digits(w: &[u8]) -> bool
    ensures { result ≡ list_all (λ c. is_letter c || is_digit c) w.now }
{
    w.iter().all(|c| is_letter(*c) || is_digit(*c))
}

/// Returns whether a word is a name.
pub fn is_name(w: &[u8]) -> bool
    ensures { result ≡ is_name w.now }
{
    match w.split_first() {
        Some((b, rest)) => is_letter(*b) && are_letters_or_digits(rest),
        None => false,
    }
}

fn is_fraction(w: &[u8]) -> bool
    ensures { result ≡ is_fraction w.now }
{
    match w {
        [p, a, b] => *p == b'.' && is_digit(*a) && is_digit(*b),
        _ => false,
    }
}

/// Returns whether a word is a number with a point.
pub fn is_pointed(w: &[u8]) -> bool
    ensures { result ≡ is_pointed w.now }
{
    let digits = unsigned(w);
    let (front, back) = digits.split_at(digits.len().saturating_sub(3));
    are_some_digits(front) && is_fraction(back)
}
