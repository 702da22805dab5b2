//! What a sheet sounds, as text.

ghost use Rattle.std.specs.Prelude.{◌≡◌, ◌++◌, codes, decimal, flat_map, OnOk};
ghost use Rattle.std.specs.Fmt.{signed_decimal};
ghost use Rattle.ps_text.specs.Document.{numbered};
ghost use Rattle.ps_heard.specs.HeardText.{half_steps, head_line, heard_text, letter_text, heard_staff_text};
ghost use Rattle.ps_heard.specs.HeardText.{heard_tune_text};

use crate::column::Heard;
use crate::sheets::hear_tune;
use crate::tunes::{SheetTune, tunes_of};
use eng_lines::put_number;
use itoa::Buffer;
use mus_units::{Alter, Letter, Memory, Row, Spread, Text};
use ps_text::Sheet;
use std::alloc::Global;

/// Returns the capital of a letter.
fn letter_text(letter: Letter) -> &'static [u8]
    ensures { result.now ≡ letter_text letter }
{
    match letter {
        Letter::C => b"C",
        Letter::D => b"D",
        Letter::E => b"E",
        Letter::F => b"F",
        Letter::G => b"G",
        Letter::A => b"A",
        Letter::B => b"B",
    }
}

/// Returns the half steps of an alteration, upwards.
fn half_steps(alter: Alter) -> i32
    ensures { result ≡ half_steps alter }
{
    match alter {
        Alter::Flat2 => -2,
        Alter::Flat => -1,
        Alter::Natural => 0,
        Alter::Sharp => 1,
        Alter::Sharp2 => 2,
    }
}

/// Adds a space and a number.
fn put_next(out: &mut Text, number: i32) -> Result<(), Memory>
    ensures { OnOk result (out.new ≡ out.old ++ codes " " ++ signed_decimal number) }
{
    out.append(b" ")?;
    let mut buffer = Buffer::new();
    out.append(buffer.format(number).as_bytes())
}

/// Adds the line of a head.
fn put_head(out: &mut Text, head: Heard) -> Result<(), Memory>
    ensures { OnOk result (out.new ≡ out.old ++ head_line head) }
{
    out.append(letter_text(head.pitch.letter))?;
    put_next(out, half_steps(head.alter))?;
    put_next(out, head.pitch.octave)?;
    out.append(b"\n")
}

/// Adds a line per head: its letter, its alteration in half steps and its octave, as `F 1 5`. On an error, part of
/// the text was added.
pub fn put_heads(out: &mut Text, heads: &[Heard]) -> Result<(), Memory>
    ensures { OnOk result (out.new ≡ out.old ++ flat_map head_line heads.now) }
{
    for head in heads {
        put_head(out, *head)?;
    }
    Ok(())
}

/// Adds the lines of staff `k` of a tune.
fn put_staff(out: &mut Text, k: u64, heads: &[Heard]) -> Result<(), Memory>
    ensures { OnOk result (out.new ≡ out.old ++ heard_staff_text k heads.now) }
{
    out.append(b"staff ")?;
    put_number(out, k)?;
    out.append(b"\n")?;
    put_heads(out, heads)
}

fn put_staves(out: &mut Text, staves: &[Row<Heard>]) -> Result<(), Memory>
    ensures { OnOk result (out.new ≡ out.old ++ numbered heard_staff_text 0 staves.now) }
{
    let mut k = 0;
    for heads in staves {
        put_staff(out, k, heads.as_slice())?;
        k += 1;
    }
    Ok(())
}

fn put_tune_line(out: &mut Text, ordinal: u32) -> Result<(), Memory>
    ensures { OnOk result (out.new ≡ out.old ++ codes "tune " ++ decimal ordinal ++ codes "\n") }
{
    out.append(b"tune ")?;
    put_number(out, u64::from(ordinal))?;
    out.append(b"\n")
}

/// Adds the lines of a tune.
fn put_tune(
    alloc: Global,
    out: &mut Text,
    spread: Spread,
    tune: &SheetTune<'_>,
) -> Result<(), Memory>
    ensures { OnOk result (out.new ≡ out.old ++ heard_tune_text spread tune.now) }
{
    put_tune_line(out, tune.ordinal)?;
    let staves = hear_tune(alloc, spread, tune.systems.as_slice())?;
    put_staves(out, staves.as_slice())
}

/// Adds the text of what a sheet sounds: for each tune a line `tune` and its ordinal; for each of its staves, from 0,
/// a line `staff` and its number; and for each head a line with its letter, its alteration in half steps and its
/// octave, as `F 1 5`. On an error, part of the text was added.
pub fn put_heard(alloc: Global, out: &mut Text, s: &Sheet, spread: Spread) -> Result<(), Memory>
    ensures { OnOk result (out.new ≡ out.old ++ heard_text spread s.now) }
{
    let tunes = tunes_of(alloc, s)?;
    for tune in tunes.as_slice() {
        put_tune(alloc, out, spread, tune)?;
    }
    Ok(())
}
