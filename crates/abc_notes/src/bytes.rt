//! The start of a list of bytes.

ghost use Rattle.std.specs.{Prelude.◌≡◌, Prelude.◌≤◌, Prelude.◌==◌, Prelude.length, Prelude.take, List.prefix_len};
ghost use Rattle.{mus_units.specs.Bytes.{is_digit}, abc_notes.specs.Runs.{run_off, skip, span, span_all, is_mark}};

use mus_units::bytes::is_digit;

/// Counts how often this byte is repeated at the start, and returns the count with the rest.
#[tactic(auto, unfolding(crate::specs::Runs::run_off))]
pub fn run_off(byte: u8, bytes: &[u8]) -> (usize, &[u8])
    ensures read { (result.0, result.1.now) ≡ run_off byte bytes.now }
    ensures within { length result.1.now ≤ length bytes.now }
{
    let n = run_len(byte, bytes);
    (n, bytes.split_at(n).1)
}

fn run_len(byte: u8, bytes: &[u8]) -> usize
    ensures value { result ≡ prefix_len (λ x. x == byte) bytes.now }
    ensures within { result ≤ length bytes.now }
{
    bytes.iter().take_while(|b| **b == byte).count()
}

/// Returns whether this byte comes first, and the rest.
#[tactic(auto, unfolding(crate::specs::Runs::skip))]
pub fn skip(byte: u8, bytes: &[u8]) -> (bool, &[u8])
    ensures read { (result.0, result.1.now) ≡ skip byte bytes.now }
    ensures within { length result.1.now ≤ length bytes.now }
{
    match bytes.split_first() {
        Some((first, rest)) if *first == byte => (true, rest),
        _ => (false, bytes),
    }
}

/// Returns the digits at the start, at most `limit` of them, and the rest.
#[tactic(auto, unfolding(crate::specs::Runs::span))]
pub fn digits_off(limit: usize, bytes: &[u8]) -> (&[u8], &[u8])
    ensures { (result.0.now, result.1.now) ≡ span is_digit limit bytes.now }
{
    bytes.split_at(digit_count(limit, bytes))
}

fn digit_count(limit: usize, bytes: &[u8]) -> usize
    ensures value { result ≡ prefix_len is_digit (take limit bytes.now) }
    ensures within { result ≤ length bytes.now }
{
    bytes
        .iter()
        .take(limit)
        .take_while(|b| is_digit(**b))
        .count()
}

/// Returns the octave marks at the start, and the rest.
#[tactic(auto, unfolding(crate::specs::Runs::span_all))]
pub fn marks_off(bytes: &[u8]) -> (&[u8], &[u8])
    ensures read { (result.0.now, result.1.now) ≡ span_all is_mark bytes.now }
    ensures within { length result.0.now ≤ length bytes.now }
{
    bytes.split_at(mark_count(bytes))
}

fn mark_count(bytes: &[u8]) -> usize
    ensures value { result ≡ prefix_len is_mark bytes.now }
    ensures within { result ≤ length bytes.now }
{
    bytes
        .iter()
        .take_while(|b| **b == b'\'' || **b == b',')
        .count()
}
