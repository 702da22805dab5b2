//! Numbers as written.

ghost use Rattle.std.specs.Prelude.{◌≡◌, ◌≤◌, ◌<◌, IfSome, IsTrue, length, nat_le, ◌&&◌, not, ◌==◌, ◌+◌, ◌*◌, ◌-◌, min};
ghost use Rattle.std.specs.List.{list_all};
ghost use Rattle.abc_lines.specs.Kinds.{code};
ghost use Rattle.abc_field.specs.Numbers.{is_digit, begins_zero, is_number, number_of, value_of, place_of_byte, before};
ghost use Rattle.abc_field.specs.Numbers.{from_first, after_one};

use mus_units::bytes::is_digit;

pub fn all_digits(text: &[u8]) -> bool
    ensures { result ≡ list_all is_digit text.now }
{
    text.iter().all(|byte| is_digit(*byte))
}

fn begins_zero(text: &[u8]) -> bool
    ensures { result ≡ begins_zero text.now }
{
    match text.split_first() {
        Some((first, _)) => *first == b'0',
        None => false,
    }
}

fn has_digits_of_number(text: &[u8]) -> bool
    ensures { result ≡ (list_all is_digit text.now && not (begins_zero text.now)) }
{
    all_digits(text) && !begins_zero(text)
}

fn is_short(text: &[u8]) -> bool
    ensures { result ≡ (nat_le 1 (length text.now) && nat_le (length text.now) 4) }
{
    1 <= text.len() && text.len() <= 4
}

/// Returns whether a text is a number as in music: one to four digits, the first of them not zero.
fn is_number(text: &[u8]) -> bool
    ensures { result ≡ is_number text.now }
{
    is_short(text) && has_digits_of_number(text)
}

/// Returns the number that a text writes as in music, if it writes one.
#[tactic(auto, unfolding(crate::specs::Numbers::number_of), using(crate::proofs::NumberLaws::number_small))]
pub fn number_of(text: &[u8]) -> Option<u64>
    ensures value { result ≡ number_of text.now }
    ensures small { IfSome result (λ n. n < 10000) }
{
    if is_number(text) {
        Some(capped_value(text))
    } else {
        None
    }
}

/// The cap on the value of digits.
const LIMIT: u64 = 10_000_000;

/// Returns the value of the digits if it is below the limit, otherwise the limit.
pub fn capped_value(digits: &[u8]) -> u64
    ensures { result ≡ min (value_of digits.now) 10000000 }
{
    let mut value = 0;
    for digit in digits {
        value = with_digit(value, *digit);
    }
    value
}

fn with_digit(value: u64, digit: u8) -> u64
    requires { value ≤ 10000000 }
    ensures value { result ≡ min (value * 10 + (digit - code "0")) 10000000 }
    ensures small { result ≤ 10000000 }
{
    (value * 10 + u64::from(digit.saturating_sub(b'0'))).min(LIMIT)
}

/// Splits a text before the first such byte: returns what precedes the byte and the rest, which begins with it. If
/// there is none, returns the whole text and nothing.
#[tactic(auto, unfolding(crate::specs::Numbers::before, crate::specs::Numbers::from_first))]
pub fn cut_at(byte: u8, text: &[u8]) -> (&[u8], &[u8])
    ensures before { result.0.now ≡ before byte text.now }
    ensures rest { result.1.now ≡ from_first byte text.now }
    ensures less { length result.1.now ≤ length text.now }
{
    text.split_at(place_of_byte(byte, text))
}

fn place_of_byte(byte: u8, text: &[u8]) -> usize
    ensures value { result ≡ place_of_byte byte text.now }
    ensures within { result ≤ length text.now }
{
    text.iter().take_while(|b| **b != byte).count()
}

/// Returns the rest after the first byte.
pub fn after_one(text: &[u8]) -> &[u8]
    ensures { result.now ≡ after_one text.now }
{
    match text.split_first() {
        Some((_, rest)) => rest,
        None => text,
    }
}
