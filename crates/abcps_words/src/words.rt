ghost use Rattle.std.specs.Prelude.{◌≡◌, ◌<◌, ◌≤◌, ◌∷◌, ◌↔◌, ℕ, ℤ, negsuc, List, IsTrue, MatchOption, decimal, map};
ghost use Rattle.std.specs.Prelude.{string_bytes};
ghost use Rattle.std.specs.Fmt.{signed_decimal};
ghost use Rattle.abcps_words.specs.Words.{IsUpTo, IsMove};

use eng_lines::{small_number, strip};

/// The most half steps, up or down.
const MOST_HALF_STEPS: u32 = 12;

/// Returns whether a word is this one.
pub fn is_word(word: &[u8], this: &[u8]) -> bool
    ensures { IsTrue result ↔ (word.now ≡ this.now) }
{
    word == this
}

/// Returns the number between two bounds that a word spells in decimal, without leading zeros.
#[tactic(auto, using(std::proofs::lemmas::Fmt::decimal_injective))]
fn number(least: u32, most: u32, word: &[u8]) -> Option<u32>
    ensures { MatchOption result
        ((n : ℕ) → least ≤ n → n ≤ most → word.now ≡ decimal n → ⊥)
        (λ n. (least ≤ n) × (n ≤ most) × (word.now ≡ decimal n)) }
{
    match small_number(word) {
        Some(number) if least <= number && number <= most => Some(number),
        _ => None,
    }
}

/// Returns the number from 1 to `most` that the first word spells, and the words after it.
pub fn take_number(most: u32, words: &[String]) -> Option<(u32, &[String])>
    ensures { MatchOption result
        ((n : ℕ) (rest : List (List ℕ)) → IsUpTo most n → map string_bytes words.now ≡ decimal n ∷ rest → ⊥)
        (λ z. IsUpTo most z.0 × (map string_bytes words.now ≡ decimal z.0 ∷ map string_bytes z.1.now)) }
{
    let (word, rest) = words.split_first()?;
    Some((number(1, most, word.as_bytes())?, rest))
}

/// Returns the half steps below 0 that a word spells.
fn half_steps_down(word: &[u8]) -> Option<i8>
    ensures { MatchOption result
        ((n : ℕ) → n < 12 → word.now ≡ signed_decimal (negsuc n) → ⊥)
        (λ z. IsMove z × (word.now ≡ signed_decimal z)) }
{
    let down = number(1, MOST_HALF_STEPS, strip(b"-", word)?)?;
    Some(-(down as i8))
}

/// Returns the half steps from 0 on that a word spells.
fn half_steps_up(word: &[u8]) -> Option<i8>
    ensures { MatchOption result
        ((n : ℕ) → n ≤ 12 → word.now ≡ decimal n → ⊥)
        (λ z. IsMove z × (word.now ≡ signed_decimal z)) }
{
    let up = number(0, MOST_HALF_STEPS, word)?;
    Some(up as i8)
}

/// Returns the half steps from -12 to 12 that a word spells in decimal, without leading zeros.
fn half_steps(word: &[u8]) -> Option<i8>
    ensures { MatchOption result ((z : ℤ) → IsMove z → word.now ≡ signed_decimal z → ⊥)
        (λ z. IsMove z × (word.now ≡ signed_decimal z)) }
{
    match half_steps_down(word) {
        Some(down) => Some(down),
        None => half_steps_up(word),
    }
}

/// Returns the half steps from -12 to 12 that the first word spells, and the words after it.
pub fn take_half_steps(words: &[String]) -> Option<(i8, &[String])>
    ensures { MatchOption result
        ((z : ℤ) (rest : List (List ℕ)) → IsMove z → map string_bytes words.now ≡ signed_decimal z ∷ rest → ⊥)
        (λ z. IsMove z.0 × (map string_bytes words.now ≡ signed_decimal z.0 ∷ map string_bytes z.1.now)) }
{
    let (word, rest) = words.split_first()?;
    Some((half_steps(word.as_bytes())?, rest))
}
