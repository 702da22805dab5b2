//! Words that are numbers and names.

ghost use Rattle.std.specs.Prelude.{◌≡◌, ◌≤◌, ◌^◌, ◌+ℤ◌, ℤ, pos, true, false, List, ℕ, MatchOption, IfOk, Some, None};
ghost use Rattle.std.specs.Prelude.{if◌then◌else◌};
ghost use Rattle.std.specs.Str.Parse.{digits_value};
ghost use Rattle.ps_steps.specs.Tokens.{some_digits, has_minus, unsigned, is_whole, is_pointed, number_written};
ghost use Rattle.ps_steps.specs.Tokens.{hundredths_written, whole_number, pointed_number, without_point, word_token};

use crate::scan::{is_name, is_pointed, is_whole, unsigned};
use mus_units::{Memory, Text};
use ps_steps::{Hundredths, Number, SimpleToken};
use std::alloc::Global;

/// Returns the number that digits spell; `None` if it exceeds 128 bits.
fn digits_number(ds: &[u8]) -> Option<u128>
    requires { some_digits ds.now ≡ true }
    ensures { MatchOption result (2 ^ 128 ≤ digits_value 10 ds.now) (λ v. v ≡ digits_value 10 ds.now) }
{
    match std::str::from_utf8(ds) {
        Ok(text) => text.parse::<u128>().ok(),
        Err(_) => None,
    }
}

fn has_minus(w: &[u8]) -> bool
    ensures { result ≡ has_minus w.now }
{
    match w.split_first() {
        Some((b, _)) => *b == b'-',
        None => false,
    }
}

fn whole(value: i128) -> SimpleToken
    ensures { result ≡ whole_number value }
{
    match Number::new(value) {
        Some(number) => SimpleToken::Whole(number),
        None => SimpleToken::Far,
    }
}

/// Returns the number of a word that is a whole number.
fn whole_token(w: &[u8]) -> SimpleToken
    requires { is_whole w.now ≡ true }
    ensures { result ≡ whole_number (number_written w.now) }
{
    match digits_number(unsigned(w)) {
        Some(v) if v <= 1 << 60 => {
            if has_minus(w) {
                whole(-(v as i128))
            } else {
                whole(v as i128)
            }
        }
        _ => SimpleToken::Far,
    }
}

/// Returns digits without their point.
fn without_point(alloc: Global, digits: &[u8]) -> Result<Text, Memory>
    ensures { IfOk result (λ t. t ≡ without_point digits.now) }
{
    let mut text = Text::new(alloc);
    text.append(digits.split_at(digits.len().saturating_sub(3)).0)?;
    text.append(digits.split_at(digits.len().saturating_sub(2)).1)?;
    Ok(text)
}

fn hundredths(count: i128) -> SimpleToken
    ensures { result ≡ pointed_number count }
{
    match Hundredths::new(count) {
        Some(number) => SimpleToken::Pointed(number),
        None => SimpleToken::Far,
    }
}

/// Returns the number of a word that is a number with a point, in hundredths.
fn pointed_token(alloc: Global, w: &[u8]) -> Result<SimpleToken, Memory>
    requires { is_pointed w.now ≡ true }
    ensures { IfOk result (λ t. t ≡ pointed_number (hundredths_written w.now)) }
{
    let digits = without_point(alloc, unsigned(w))?;
    match digits_number(digits.as_slice()) {
        Some(v) if v <= 100 << 60 => {
            if has_minus(w) {
                Ok(hundredths(-(v as i128)))
            } else {
                Ok(hundredths(v as i128))
            }
        }
        _ => Ok(SimpleToken::Far),
    }
}

/// Returns the token that a word is.
pub fn word_token(alloc: Global, w: &[u8]) -> Result<Option<SimpleToken>, Memory>
    ensures { IfOk result (λ t. t ≡ word_token w.now) }
{
    if is_whole(w) {
        Ok(Some(whole_token(w)))
    } else if is_pointed(w) {
        Ok(Some(pointed_token(alloc, w)?))
    } else if is_name(w) {
        Ok(Some(SimpleToken::Name(Text::from_slice(alloc, w)?)))
    } else {
        Ok(None)
    }
}
