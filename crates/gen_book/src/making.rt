ghost use Rattle.std.specs.Prelude.{◌≡◌, ◌≤◌, ◌<◌, ◌^◌, ◌++◌, ◌∷◌, [], OnOk, IfOk, decimal, length};
ghost use Rattle.gen_book.specs.Book.{next_number, letter_of_note, number_after_steps, half_after, measure_after};
ghost use Rattle.gen_book.specs.Book.{measures_after, line_after, lines_after, key_of_tune, heading_of_tune, tune};
ghost use Rattle.gen_book.specs.Book.{tunes, book};

use eng_lines::put_number;
use mus_units::{Memory, Text};
use std::alloc::Global;

const LETTERS: [u8; 7] = *b"GABcdef";

const KEYS: [u8; 4] = *b"CGDF";

/// Returns the number after a number.
#[tactic(auto, unfolding(crate::specs::Book::next_number))]
fn next_of(s: u64) -> u64
    requires { s < 2 ^ 31 }
    ensures value { result ≡ next_number s }
    ensures small { result < 2 ^ 31 }
{
    (s * 1_103_515_245 + 12_345) % 2_147_483_648
}

/// Returns the letter of a number.
#[tactic(auto, unfolding(crate::specs::Book::letter_of_note))]
fn letter(s: u64) -> u8
    ensures { result ≡ letter_of_note s }
{
    LETTERS[(s / 65_536 % 7) as usize]
}

/// Adds the letter of the number after `s`, and returns that number.
fn put_letter(out: &mut Text, s: u64) -> Result<u64, Memory>
    requires { s < 2 ^ 31 }
    ensures text { OnOk result (out.new ≡ out.old ++ letter_of_note (next_number s) ∷ []) }
    ensures value { IfOk result (λ t. t ≡ next_number s) }
    ensures small { IfOk result (λ t. t < 2 ^ 31) }
{
    let t = next_of(s);
    out.push(letter(t))?;
    Ok(t)
}

/// Adds four letters.
#[tactic(auto, unfolding(crate::specs::Book::half_after))]
fn put_half(out: &mut Text, s: u64) -> Result<u64, Memory>
    requires { s < 2 ^ 31 }
    ensures text { OnOk result (out.new ≡ out.old ++ half_after s) }
    ensures value { IfOk result (λ t. t ≡ number_after_steps 4 s) }
    ensures small { IfOk result (λ t. t < 2 ^ 31) }
{
    let first = put_letter(out, s)?;
    let second = put_letter(out, first)?;
    let third = put_letter(out, second)?;
    put_letter(out, third)
}

/// Adds a measure.
#[tactic(auto, unfolding(crate::specs::Book::measure_after))]
fn put_measure(out: &mut Text, s: u64) -> Result<u64, Memory>
    requires { s < 2 ^ 31 }
    ensures text { OnOk result (out.new ≡ out.old ++ measure_after s) }
    ensures value { IfOk result (λ t. t ≡ number_after_steps 8 s) }
    ensures small { IfOk result (λ t. t < 2 ^ 31) }
{
    let half = put_half(out, s)?;
    out.push(b' ')?;
    let whole = put_half(out, half)?;
    out.push(b'|')?;
    Ok(whole)
}

/// Adds a line of four measures.
#[tactic(auto, unfolding(crate::specs::Book::line_after))]
fn put_line(out: &mut Text, s: u64) -> Result<u64, Memory>
    requires { s < 2 ^ 31 }
    ensures text { OnOk result (out.new ≡ out.old ++ line_after s) }
    ensures value { IfOk result (λ t. t ≡ number_after_steps 32 s) }
    ensures small { IfOk result (λ t. t < 2 ^ 31) }
{
    let first = put_measure(out, s)?;
    let second = put_measure(out, first)?;
    let third = put_measure(out, second)?;
    let fourth = put_measure(out, third)?;
    out.push(b'\n')?;
    Ok(fourth)
}

/// Adds the sixteen lines of a tune.
fn put_lines(out: &mut Text, i: u32) -> Result<(), Memory>
    requires { i ≤ 500 }
    ensures { OnOk result (out.new ≡ out.old ++ lines_after 16 i) }
{
    let mut s = u64::from(i);
    for k in 0_usize..16 {
        s = put_line(out, s)?;
    }
    Ok(())
}

/// Returns the letter of a tune's key.
#[tactic(auto, unfolding(crate::specs::Book::key_of_tune))]
fn key(i: u32) -> u8
    ensures { result ≡ key_of_tune i }
{
    KEYS[(i % 4) as usize]
}

/// Adds the lines of a tune before its music.
#[tactic(auto, unfolding(crate::specs::Book::heading_of_tune))]
fn put_heading(out: &mut Text, i: u32) -> Result<(), Memory>
    ensures { OnOk result (out.new ≡ out.old ++ heading_of_tune i) }
{
    out.append(b"X:")?;
    put_number(out, u64::from(i))?;
    out.append(b"\nT:Tune ")?;
    put_number(out, u64::from(i))?;
    out.append(b"\nM:4/4\nL:1/8\nK:")?;
    out.push(key(i))?;
    out.push(b'\n')
}

/// Adds a tune.
#[tactic(auto, unfolding(crate::specs::Book::tune))]
fn put_tune(out: &mut Text, i: u32) -> Result<(), Memory>
    requires { i ≤ 500 }
    ensures { OnOk result (out.new ≡ out.old ++ tune i) }
{
    put_heading(out, i)?;
    put_lines(out, i)?;
    out.push(b'\n')
}

/// Returns the generated book of 1 to 500 tunes, in ABC notation: at most 350,000 bytes.
#[tactic(auto, unfolding(crate::specs::Book::book))]
pub fn make(alloc: Global, n: u32) -> Result<Text, Memory>
    requires some { 1 ≤ n }
    requires few { n ≤ 500 }
    ensures value { IfOk result (λ text. text ≡ book n) }
    ensures short { IfOk result (λ text. length text ≤ 350000) }
{
    let mut out = Text::new(alloc);
    for i in 1..n + 1 {
        put_tune(&mut out, i)?;
    }
    Ok(out)
}
