ghost use Rattle.std.specs.Prelude.{codes};
ghost use Rattle.std.specs.Prelude.{◌≡◌, ◌<◌, ◌^◌, ◌++◌, ◌∷◌, ℕ, List, decimal, MatchOption, OnErr, OnOk, Some, ◌==◌};
ghost use Rattle.std.specs.List.{position};
ghost use Rattle.eng_lines.specs.Lines.{Lacks};

use itoa::Buffer;
use mus_units::{Memory, Text};

/// Adds a number at the end of a text, in decimal without leading zeros.
///
/// On an error the text is unchanged.
pub fn put_number(out: &mut Text, number: u64) -> Result<(), Memory>
    ensures ok { OnOk result (out.new ≡ out.old ++ decimal number) }
    ensures err { OnErr result (out.new ≡ out.old) }
{
    out.append(Buffer::new().format(number).as_bytes())
}

/// Adds a word and then a number at the end of a text.
pub fn put_named(out: &mut Text, name: &[u8], number: u64) -> Result<(), Memory>
    ensures { OnOk result (out.new ≡ out.old ++ name.now ++ decimal number) }
{
    out.append(name)?;
    put_number(out, number)
}

/// Adds a space and then a number at the end of a text.
pub fn put_next(out: &mut Text, number: u64) -> Result<(), Memory>
    ensures { OnOk result (out.new ≡ out.old ++ (codes " " ++ decimal number)) }
{
    out.push(b' ')?;
    put_number(out, number)
}

fn first_at(byte: u8, bytes: &[u8]) -> Option<usize>
    ensures { result ≡ position (λ b. b == byte) bytes.now }
{
    bytes.iter().position(|b| *b == byte)
}

/// Splits at the first occurrence of a byte: returns the bytes before it and those after it. `None` exactly when
/// there is none.
pub fn cut_at(byte: u8, bytes: &[u8]) -> Option<(&[u8], &[u8])>
    ensures { MatchOption result (Lacks byte bytes.now)
        (λ z. (bytes.now ≡ z.0.now ++ byte ∷ z.1.now) × Lacks byte z.0.now) }
{
    match first_at(byte, bytes) {
        Some(at) => Some((bytes.split_at(at).0, bytes.split_at(at + 1).1)),
        None => None,
    }
}

/// Returns the rest after the prefix. `None` exactly when the bytes don't begin with it.
pub fn strip<'a>(prefix: &[u8], bytes: &'a [u8]) -> Option<&'a [u8]>
    ensures { MatchOption result ((rest : List ℕ) → bytes.now ≡ prefix.now ++ rest → ⊥)
        (λ rest. bytes.now ≡ prefix.now ++ rest.now) }
{
    bytes.strip_prefix(prefix)
}

fn parsed(bytes: &[u8]) -> Option<u64>
    ensures { (n : ℕ) → n < 2 ^ 64 → bytes.now ≡ decimal n → result ≡ Some n }
{
    match std::str::from_utf8(bytes) {
        Ok(text) => text.parse::<u64>().ok(),
        Err(_) => None,
    }
}

/// Returns the number that the bytes print: decimal, without a sign or leading zeros, and below 2^64. `None` exactly
/// when they print none.
pub fn number(bytes: &[u8]) -> Option<u64>
    ensures { MatchOption result ((n : ℕ) → n < 2 ^ 64 → bytes.now ≡ decimal n → ⊥)
        (λ n. (bytes.now ≡ decimal n) × (n < 2 ^ 64)) }
{
    match parsed(bytes) {
        Some(number) if Buffer::new().format(number).as_bytes() == bytes => Some(number),
        _ => None,
    }
}

/// Returns the number below 2^32 that the bytes print. `None` exactly when they print none.
pub fn small_number(bytes: &[u8]) -> Option<u32>
    ensures { MatchOption result ((n : ℕ) → n < 2 ^ 32 → bytes.now ≡ decimal n → ⊥)
        (λ n. (bytes.now ≡ decimal n) × (n < 2 ^ 32)) }
{
    match number(bytes) {
        Some(number) if number <= u32::MAX as u64 => Some(number as u32),
        _ => None,
    }
}

/// Returns the number below 2^32 before the first space, and the rest after the space. `None` exactly when the bytes
/// don't begin so.
pub fn number_and_rest(bytes: &[u8]) -> Option<(u32, &[u8])>
    ensures { MatchOption result
        ((n : ℕ) (rest : List ℕ) → n < 2 ^ 32 → bytes.now ≡ decimal n ++ (codes " " ++ rest) → ⊥)
        (λ z. (bytes.now ≡ decimal z.0 ++ (codes " " ++ z.1.now)) × (z.0 < 2 ^ 32)) }
{
    let (start, rest) = cut_at(b' ', bytes)?;
    Some((small_number(start)?, rest))
}

/// Returns the two numbers below 2^32 after the prefix, with a space between them. `None` exactly when the bytes are
/// no such line.
pub fn numbers_after(prefix: &[u8], bytes: &[u8]) -> Option<(u32, u32)>
    ensures { MatchOption result
        ((a b : ℕ) → a < 2 ^ 32 → b < 2 ^ 32 → bytes.now ≡ prefix.now ++ decimal a ++ (codes " " ++ decimal b) → ⊥)
        (λ z. (bytes.now ≡ prefix.now ++ decimal z.0 ++ (codes " " ++ decimal z.1)) × (z.0 < 2 ^ 32) × (z.1 < 2 ^ 32)) }
{
    let rest = strip(prefix, bytes)?;
    let (a, rest) = number_and_rest(rest)?;
    let b = small_number(rest)?;
    Some((a, b))
}

/// Returns the number below 2^32 after the prefix. `None` exactly when the bytes are no such line.
pub fn number_after(prefix: &[u8], bytes: &[u8]) -> Option<u32>
    ensures { MatchOption result ((a : ℕ) → a < 2 ^ 32 → bytes.now ≡ prefix.now ++ decimal a → ⊥)
        (λ a. (bytes.now ≡ prefix.now ++ decimal a) × (a < 2 ^ 32)) }
{
    small_number(strip(prefix, bytes)?)
}
