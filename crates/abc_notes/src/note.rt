//! Notes and rests.

ghost use Rattle.std.specs.Prelude.{◌≡◌, ◌≤◌, ◌^◌, length, Some, option_map, count_by, ◌==◌, pos, ◌≤ℤ◌};
ghost use Rattle.abc_notes.specs.Runs.{is_mark};
ghost use Rattle.abc_notes.specs.Lengths.{len_of};
ghost use Rattle.abc_notes.specs.Notes.{sign_at, letter_at, octave_of, note_at, head_of, note_read};

use crate::bytes::{marks_off, skip};
use crate::length::length_from;
use crate::part::Len;
use mus_units::{Alter, Head, Letter, Pitch};

/// Reads the note at the start, as long as it can be, and returns it with the rest.
#[tactic(auto, unfolding(crate::specs::Notes::note_at))]
#[inline(always)]
pub fn note_at(bytes: &[u8]) -> Option<(Head, Len, &[u8])>
    requires { length bytes.now ≤ 2 ^ 30 }
    ensures { option_map (λ x. note_read x.0 x.1 x.2.now) result
        ≡ option_map (λ x. note_read (head_of x.0) (len_of x.0.length) x.1) (note_at bytes.now) }
{
    let (sign, rest) = sign_at(bytes);
    let (first, rest) = rest.split_first()?;
    let (low, letter) = letter_at(*first)?;
    let (marks, rest) = marks_off(rest);
    let octave = octave_of(low, marks);
    let (len, rest) = length_from(rest);
    let head = Head {
        pitch: Pitch { letter, octave },
        sign,
        tied: false,
    };
    Some((head, len, rest))
}

#[tactic(auto, unfolding(crate::specs::Notes::sign_at))]
fn sign_at(bytes: &[u8]) -> (Option<Alter>, &[u8])
    ensures read { (result.0, result.1.now) ≡ sign_at bytes.now }
    ensures within { length result.1.now ≤ length bytes.now }
{
    let (up, after_up) = skip(b'^', bytes);
    if up {
        let (two, rest) = skip(b'^', after_up);
        return if two {
            (Some(Alter::Sharp2), rest)
        } else {
            (Some(Alter::Sharp), after_up)
        };
    }
    let (down, after_down) = skip(b'_', bytes);
    if down {
        let (two, rest) = skip(b'_', after_down);
        return if two {
            (Some(Alter::Flat2), rest)
        } else {
            (Some(Alter::Flat), after_down)
        };
    }
    let (plain, rest) = skip(b'=', bytes);
    if plain {
        (Some(Alter::Natural), rest)
    } else {
        (None, bytes)
    }
}

#[tactic(auto, unfolding(crate::specs::Notes::letter_at))]
fn letter_at(byte: u8) -> Option<(bool, Letter)>
    ensures { result ≡ letter_at byte }
{
    let letter = match byte.to_ascii_uppercase() {
        b'C' => Letter::C,
        b'D' => Letter::D,
        b'E' => Letter::E,
        b'F' => Letter::F,
        b'G' => Letter::G,
        b'A' => Letter::A,
        b'B' => Letter::B,
        _ => return None,
    };
    Some((byte.is_ascii_lowercase(), letter))
}

fn octave_of(low: bool, marks: &[u8]) -> i32
    requires { length marks.now ≤ 2 ^ 30 }
    ensures { result ≡ octave_of low marks.now }
{
    let middle = if low { 5 } else { 4 };
    middle + count_of(b'\'', marks) - count_of(b',', marks)
}

fn count_of(byte: u8, marks: &[u8]) -> i32
    requires { length marks.now ≤ 2 ^ 30 }
    ensures value { result ≡ pos (count_by (λ b. b == byte) marks.now) }
    ensures most { result ≤ℤ pos (2 ^ 30) }
{
    marks.iter().filter(|b| **b == byte).count() as i32
}
