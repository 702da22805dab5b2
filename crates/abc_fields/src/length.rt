//! Paper lengths and the paper scale.

ghost use Rattle.std.specs.Prelude.{◌≡◌, ◌≤◌, ◌&&◌, nat_le, length, IfSome, IsTrue, take, drop, codes, ◌-◌};
ghost use Rattle.std.specs.List.{prefix_len};
ghost use Rattle.std.specs.Option.{option_map};
ghost use Rattle.abc_lines.specs.Kinds.{code};
ghost use Rattle.abc_field.specs.Numbers.{is_digit, value_of};
ghost use Rattle.abc_field.specs.Words.{after_prefix};
ghost use Rattle.abc_fields.specs.Lengths.{digit_len, with_decimals, decimals, whole_of, hundredths_of, in_units};
ghost use Rattle.abc_fields.specs.Lengths.{within_paper, length_of, is_scale, scale_by, scale_of};

use abc_field::numbers::capped_value;
use abc_field::words::after_prefix;
use mus_units::bytes::{is_digit, is_same};

/// Reads a length of at most 100,000 hundredths of a point.
#[tactic(auto, unfolding(crate::specs::Lengths::length_of))]
pub(crate) fn read_length(text: &[u8]) -> Option<u32>
    ensures value { result ≡ length_of text.now }
    ensures small { IfSome result (λ u. u ≤ 100000) }
{
    let (number, unit) = hundredths_of(text)?;
    within_paper(in_units(number, unit)?)
}

fn within_paper(length: u64) -> Option<u32>
    ensures value { result ≡ within_paper length }
    ensures small { IfSome result (λ u. u ≤ 100000) }
{
    if length <= 100_000 {
        Some(length as u32)
    } else {
        None
    }
}

fn in_units(number: u64, unit: &[u8]) -> Option<u64>
    requires { number ≤ 20000000 }
    ensures { result ≡ in_units number unit.now }
{
    if is_same(unit, b"pt") {
        Some(number)
    } else if is_same(unit, b"in") {
        Some(72 * number)
    } else if is_same(unit, b"cm") {
        Some(number * 3600 / 127)
    } else {
        None
    }
}

/// Reads a scale of 40 to 150 percent.
#[tactic(auto, unfolding(crate::specs::Lengths::scale_of))]
pub(crate) fn read_scale(text: &[u8]) -> Option<u16>
    ensures value { result ≡ scale_of text.now }
    ensures low { IfSome result (λ v. 40 ≤ v) }
    ensures high { IfSome result (λ v. v ≤ 150) }
{
    let (number, rest) = hundredths_of(text)?;
    scale_by(number, rest)
}

fn scale_by(number: u64, rest: &[u8]) -> Option<u16>
    ensures value { result ≡ scale_by (number, rest.now) }
    ensures low { IfSome result (λ v. 40 ≤ v) }
    ensures high { IfSome result (λ v. v ≤ 150) }
{
    if is_scale(number) && is_same(rest, b"") {
        Some(number as u16)
    } else {
        None
    }
}

fn is_scale(number: u64) -> bool
    ensures value { result ≡ is_scale number }
    ensures low { IsTrue result → 40 ≤ number }
    ensures high { IsTrue result → number ≤ 150 }
{
    40 <= number && number <= 150
}

/// Reads a number with up to two decimals. Returns it in hundredths, with what follows it.
#[tactic(auto, unfolding(crate::specs::Lengths::hundredths_of))]
fn hundredths_of(text: &[u8]) -> Option<(u64, &[u8])>
    ensures value { option_map (λ w. (w.0, w.1.now)) result ≡ hundredths_of text.now }
    ensures small { IfSome result (λ w. w.0 ≤ 20000000) }
{
    let (digits, rest) = text.split_at(digit_len(text));
    decimals(whole_of(digits)?, rest)
}

fn whole_of(digits: &[u8]) -> Option<u64>
    ensures value { result ≡ whole_of digits.now }
    ensures small { IfSome result (λ n. n ≤ 100000) }
{
    if digits.is_empty() {
        return None;
    }
    let value = capped_value(digits);
    if value <= 100_000 { Some(value) } else { None }
}

/// Returns the number with this whole part, with the decimals after a point.
fn decimals(whole: u64, rest: &[u8]) -> Option<(u64, &[u8])>
    requires { whole ≤ 100000 }
    ensures value { option_map (λ w. (w.0, w.1.now)) result
        ≡ decimals whole rest.now (after_prefix (codes ".") rest.now) }
    ensures small { IfSome result (λ w. w.0 ≤ 20000000) }
{
    match after_prefix(rest, b".") {
        Some(after_point) => {
            let (digits, left) = after_point.split_at(digit_len(after_point));
            with_decimals(whole, digits, left)
        }
        None => Some((whole * 100, rest)),
    }
}

fn with_decimals<'a>(whole: u64, digits: &[u8], rest: &'a [u8]) -> Option<(u64, &'a [u8])>
    requires { whole ≤ 100000 }
    ensures value { option_map (λ w. (w.0, w.1.now)) result ≡ with_decimals whole digits.now rest.now }
    ensures small { IfSome result (λ w. w.0 ≤ 20000000) }
{
    let (tenths, others) = digits.split_first()?;
    let Some((last, more)) = others.split_first() else {
        return Some((whole * 100 + digit(*tenths) * 10, rest));
    };
    if more.is_empty() {
        Some((whole * 100 + (digit(*tenths) * 10 + digit(*last)), rest))
    } else {
        None
    }
}

/// Returns the value of a digit.
fn digit(byte: u8) -> u64
    ensures value { result ≡ byte - code "0" }
    ensures small { result ≤ 207 }
{
    u64::from(byte.saturating_sub(b'0'))
}

fn digit_len(text: &[u8]) -> usize
    ensures value { result ≡ digit_len text.now }
    ensures within { result ≤ length text.now }
{
    text.iter().take_while(|byte| is_digit(**byte)).count()
}
