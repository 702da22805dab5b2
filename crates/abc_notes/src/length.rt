//! The length of a note.

ghost use Rattle.std.specs.Prelude.{◌≡◌, ℕ, List, ◌<◌, ◌≤◌, ◌^◌, length, take, true};
ghost use Rattle.std.specs.List.{prefix_len, list_all};
ghost use Rattle.std.specs.Str.Parse.{digits_value};
ghost use Rattle.mus_units.specs.Bytes.{is_digit};
ghost use Rattle.abc_notes.specs.Runs.{span};
ghost use Rattle.abc_notes.specs.Lengths.{AreNumberDigits, IsCount, limit_at, count_of, number_at, length_from, len_of};
ghost use Rattle.abc_notes.specs.Lengths.{is_slash, length_read};

use crate::bytes::digits_off;
use crate::part::Len;

/// Reads a length at the start, which may be empty, and returns it with the rest.
#[inline(always)]
#[tactic(auto, unfolding(crate::specs::Lengths::length_from))]
pub fn length_from(bytes: &[u8]) -> (Len, &[u8])
    ensures { let read = length_from bytes.now in
        length_read result.0 result.1.now ≡ length_read (len_of read.0) read.1 }
{
    let (count, rest) = number_at(4, bytes);
    let num = value_of(count);
    let (slashes, rest) = slashes_off(rest);
    match slashes {
        [] => (Len { num, den: 1 }, rest),
        [_] => {
            let (below, after) = number_at(4, rest);
            if below.is_empty() {
                (Len { num, den: 2 }, rest)
            } else {
                let den = value_of(below);
                (Len { num, den }, after)
            }
        }
        _ => {
            let den = 1u32 << slashes.len();
            (Len { num, den }, rest)
        }
    }
}

/// Reads a number of at most `most` digits at the start, or no digit, and returns it with the rest.
pub fn number_at(most: usize, bytes: &[u8]) -> (&[u8], &[u8])
    ensures read { (result.0.now, result.1.now) ≡ number_at most bytes.now }
    ensures good { IsCount most result.0.now }
    ensures few { length result.0.now ≤ most }
    ensures digits { list_all is_digit result.0.now ≡ true }
{
    digits_at(most, bytes)
}

#[tactic(auto, unfolding(crate::specs::Lengths::number_at))]
fn digits_at(most: usize, bytes: &[u8]) -> (&[u8], &[u8])
    ensures { (result.0.now, result.1.now) ≡ number_at most bytes.now }
{
    match bytes.first() {
        Some(b'0') => (&[], bytes),
        _ => digits_off(most, bytes),
    }
}

#[tactic(auto, unfolding(crate::specs::Runs::span))]
fn slashes_off(bytes: &[u8]) -> (&[u8], &[u8])
    ensures read { (result.0.now, result.1.now) ≡ span is_slash 6 bytes.now }
    ensures few { length result.0.now ≤ 6 }
{
    bytes.split_at(slash_count(bytes))
}

fn slash_count(bytes: &[u8]) -> usize
    ensures value { result ≡ prefix_len is_slash (take 6 bytes.now) }
    ensures within { result ≤ length bytes.now }
    ensures few { result ≤ 6 }
{
    bytes.iter().take(6).take_while(|b| **b == b'/').count()
}

/// Returns the value of a number; 1 if it has no digit.
pub fn value_of(digits: &[u8]) -> u32
    requires { IsCount 4 digits.now }
    ensures { result ≡ count_of digits.now }
{
    if digits.is_empty() {
        1
    } else {
        number_value(digits)
    }
}

fn number_value(digits: &[u8]) -> u32
    requires { AreNumberDigits 4 digits.now }
    ensures value { result ≡ digits_value 10 digits.now }
    ensures small { result < limit_at (length digits.now) }
{
    let mut value = 0u32;
    for digit in digits {
        value = value * 10 + u32::from(*digit - b'0');
    }
    value
}

/// Returns the value of a number of at most three digits; 1 if it has no digit.
pub fn count_of(digits: &[u8]) -> u16
    requires { IsCount 3 digits.now }
    ensures { result ≡ count_of digits.now }
{
    if digits.is_empty() {
        return 1;
    }
    number_value(digits) as u16
}
