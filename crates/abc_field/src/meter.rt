ghost use Rattle.std.specs.Prelude.{◌≡◌, ◌≤◌, ◌<◌, ◌==◌, IfSome, IsTrue, length, codes, [], ◌∷◌};
ghost use Rattle.abc_field.specs.Numbers.{number_of};
ghost use Rattle.abc_field.specs.Words.{after_prefix};
ghost use Rattle.abc_field.specs.Meters.{below_of, below_after, plus, with_terms, sum_of, ratio, plain_ratio};
ghost use Rattle.abc_field.specs.Meters.{wrapped_ratio, ratio_of, meter_at, meter_of, one_over, unit_at, unit_of};
ghost use Rattle.abc_field.specs.Meters.{default_unit};
ghost use Rattle.mus_units.specs.Good.{IsGoodMeter, IsGoodUnit, is_halving};

use crate::numbers::{after_one, cut_at, number_of};
use crate::words::{after_prefix, is_same, trimmed};
use mus_units::{Frac, Meter};

/// Reads the meter that a text spells, if it spells one.
pub fn read_meter(text: &[u8]) -> Option<Meter>
    ensures value { result ≡ meter_of text.now }
    ensures good { IfSome result (λ m. IsGoodMeter m) }
{
    meter_of(text)
}

#[tactic(auto, unfolding(crate::specs::Meters::meter_of))]
fn meter_of(text: &[u8]) -> Option<Meter>
    ensures { result ≡ meter_of text.now }
{
    meter_at(trimmed(text))
}

#[tactic(auto, unfolding(crate::specs::Meters::meter_at))]
fn meter_at(text: &[u8]) -> Option<Meter>
    ensures { result ≡ meter_at text.now }
{
    if is_same(text, b"C") {
        Some(Meter::Common)
    } else if is_same(text, b"C|") {
        Some(Meter::Cut)
    } else if is_same(text, b"none") {
        Some(Meter::Free)
    } else if is_same(text, b"") {
        Some(Meter::Free)
    } else {
        ratio_of(text)
    }
}

/// Reads a number or a sum over a number that halves a whole note.
#[tactic(auto, unfolding(crate::specs::Meters::ratio_of))]
fn ratio_of(text: &[u8]) -> Option<Meter>
    ensures { result ≡ ratio_of text.now }
{
    match after_prefix(text, b"(") {
        Some(inside) => wrapped_ratio(inside),
        None => plain_ratio(text),
    }
}

#[tactic(auto, unfolding(crate::specs::Meters::plain_ratio))]
fn plain_ratio(text: &[u8]) -> Option<Meter>
    ensures { result ≡ plain_ratio text.now }
{
    let (sum, rest) = cut_at(b'/', text);
    ratio(sum_of(sum), below_of(after_one(rest)))
}

#[tactic(auto, unfolding(crate::specs::Meters::wrapped_ratio))]
fn wrapped_ratio(text: &[u8]) -> Option<Meter>
    ensures { result ≡ wrapped_ratio text.now }
{
    let (sum, rest) = cut_at(b')', text);
    ratio(sum_of(sum), below_after(after_one(rest), b"/"))
}

fn ratio(num: Option<u8>, den: Option<u8>) -> Option<Meter>
    ensures { result ≡ ratio num den }
{
    let num = num?;
    let den = den?;
    Some(Meter::Ratio { num, den })
}

/// Returns the sum of the numbers between plus signs, if it is at most 99.
#[tactic(auto, unfolding(crate::specs::Meters::sum_of), using(crate::proofs::MeterLaws::split_cut))]
fn sum_of(text: &[u8]) -> Option<u8>
    ensures { result ≡ sum_of text.now }
{
    let (first, mut rest) = cut_at(b'+', text);
    let mut total = add(0, first)?;
    while let Some((_, others)) = rest.split_first() {
        let (term, left) = cut_at(b'+', others);
        total = add(total, term)?;
        rest = left;
    }
    Some(total)
}

/// Adds a number to a total, if the sum is at most 99.
fn add(total: u8, term: &[u8]) -> Option<u8>
    requires { total ≤ 99 }
    ensures value { result ≡ plus total (number_of term.now) }
    ensures small { IfSome result (λ n. n ≤ 99) }
{
    let number = number_of(term)?;
    if u64::from(total) + number <= 99 {
        Some(total + number as u8)
    } else {
        None
    }
}

/// Returns the number that a text spells, if it halves a whole note.
fn below_of(text: &[u8]) -> Option<u8>
    ensures { result ≡ below_of text.now }
{
    let number = number_of(text)?;
    if is_halving(number) {
        Some(number as u8)
    } else {
        None
    }
}

fn below_after(text: &[u8], leading: &[u8]) -> Option<u8>
    ensures { result ≡ below_after (after_prefix leading.now text.now) }
{
    match after_prefix(text, leading) {
        Some(rest) => below_of(rest),
        None => None,
    }
}

fn is_halving(number: u64) -> bool
    ensures value { result ≡ is_halving number }
    ensures small { IsTrue result → number < 256 }
{
    matches!(number, 1 | 2 | 4 | 8 | 16 | 32 | 64)
}

/// Reads the unit length that a text spells, if it spells one.
pub fn read_unit(text: &[u8]) -> Option<Frac>
    ensures value { result ≡ unit_of text.now }
    ensures good { IfSome result (λ u. IsGoodUnit u) }
{
    unit_of(text)
}

#[tactic(auto, unfolding(crate::specs::Meters::unit_of))]
fn unit_of(text: &[u8]) -> Option<Frac>
    ensures { result ≡ unit_of text.now }
{
    unit_at(trimmed(text))
}

#[tactic(auto, unfolding(crate::specs::Meters::unit_at))]
fn unit_at(text: &[u8]) -> Option<Frac>
    ensures { result ≡ unit_at text.now }
{
    if is_same(text, b"1") {
        Some(Frac { num: 1, den: 1 })
    } else {
        let den = below_after(text, b"1/")?;
        Some(Frac {
            num: 1,
            den: u64::from(den),
        })
    }
}

/// Returns the unit length without an `L:` line: a sixteenth if the meter is below 3/4, otherwise an eighth.
pub fn default_unit(meter: Meter) -> Frac
    ensures value { result ≡ default_unit meter }
    ensures good { IsGoodUnit result }
{
    match meter {
        Meter::Ratio { num, den } if 4 * u32::from(num) < 3 * u32::from(den) => {
            Frac { num: 1, den: 16 }
        }
        _ => Frac { num: 1, den: 8 },
    }
}
