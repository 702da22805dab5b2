ghost use Rattle.std.specs.Prelude.{◌≡◌, ◌≤◌, ◌∷◌, [], length, decimal, IfOk, OnOk};
ghost use Rattle.mus_ink.specs.Signatures.{clef_mark, entry_dy, entry_mark, entry_marks, height_at, meter_if};
ghost use Rattle.mus_ink.specs.Signatures.{shown_alter};
ghost use Rattle.mus_laid.specs.Ranked.{inked};

use crate::distances::{ENTRY_STEP, LOWER_NUMBER_LINE, METER_SIGN_LINE, UPPER_NUMBER_LINE};
use crate::drawing::{put_big_text, put_glyph, steps_dy};
use crate::kinds::sign_glyph;
use mus_laid::MarkPen;
use mus_units::{Alter, Clef, Entries, Letter, Memory, Meter, Sign, Text, clef_row};
use std::alloc::Global;

/// Draws a clef at the line that it names.
pub fn put_clef(pen: &mut MarkPen, dx: u32, clef: Clef) -> Result<(), Memory>
    requires { dx ≤ 10000 }
    ensures { OnOk result (pen.new ≡ inked pen.old (clef_mark dx clef ∷ [])) }
{
    let row = clef_row(clef);
    put_glyph(pen, row.glyph, dx as i32, steps_dy(row.line))
}

fn height_at(letter: Letter, entries: Entries) -> i32
    ensures { result ≡ height_at letter entries }
{
    match letter {
        Letter::F => entries.f,
        Letter::C => entries.c,
        Letter::G => entries.g,
        Letter::D => entries.d,
        Letter::A => entries.a,
        Letter::E => entries.e,
        Letter::B => entries.b,
    }
}

/// Returns the dy of an entry of a signature: flats have heights of their own, all others are where sharps are.
#[tactic(auto, unfolding(crate::specs::Signatures::entry_dy))]
fn entry_dy(clef: Clef, alter: Alter, letter: Letter) -> i32
    ensures { result ≡ entry_dy clef alter letter }
{
    let row = clef_row(clef);
    let entries = match alter {
        Alter::Flat2 | Alter::Flat => row.flats,
        _ => row.sharps,
    };
    steps_dy(height_at(letter, entries))
}

/// Draws an entry of a signature, as a natural if its key ends.
#[tactic(auto, unfolding(crate::specs::Signatures::entry_mark))]
fn put_entry(pen: &mut MarkPen, clef: Clef, ends: bool, sign: Sign, dx: u32) -> Result<(), Memory>
    requires { dx ≤ 10000 }
    ensures { OnOk result
        (pen.new ≡ inked pen.old (entry_mark clef (shown_alter ends sign.alter) sign.letter dx ∷ [])) }
{
    let alter = if ends { Alter::Natural } else { sign.alter };
    let dy = entry_dy(clef, alter, sign.letter);
    put_glyph(pen, sign_glyph(alter), dx as i32, dy)
}

/// Draws the entries of a signature, the first at dx `first`; if the key ends, a natural for each.
pub fn put_entries(
    pen: &mut MarkPen,
    clef: Clef,
    ends: bool,
    first: u32,
    signs: &[Sign],
) -> Result<(), Memory>
    requires near { first ≤ 2000 }
    requires few { length signs.now ≤ 7 }
    ensures { OnOk result (pen.new ≡ inked pen.old (entry_marks clef ends first 0 signs.now)) }
{
    let mut k = 0;
    for sign in signs {
        put_entry(pen, clef, ends, *sign, first + ENTRY_STEP * k)?;
        k += 1;
    }
    Ok(())
}

/// Returns the digits of a number.
fn digits(alloc: Global, number: u8) -> Result<Text, Memory>
    ensures { IfOk result (λ t. t ≡ decimal number) }
{
    let digits = format!(in alloc; "{number}")?;
    Text::from_slice(alloc, digits.as_bytes())
}

/// Draws a meter at dx `dx`, if there is one to draw: its two numbers, or its sign, and nothing for a free meter.
#[tactic(auto, unfolding(crate::specs::Signatures::meter_marks))]
pub fn put_meter_if(pen: &mut MarkPen, dx: u32, meter: Option<Meter>) -> Result<(), Memory>
    requires { dx ≤ 10000 }
    ensures { OnOk result (pen.new ≡ inked pen.old (meter_if dx meter)) }
{
    let dx = dx as i32;
    match meter {
        None | Some(Meter::Free) => Ok(()),
        Some(Meter::Common) => {
            let sign = Text::from_slice(pen.alloc, b"C")?;
            put_big_text(pen, dx, METER_SIGN_LINE, sign)
        }
        Some(Meter::Cut) => {
            let sign = Text::from_slice(pen.alloc, b"C|")?;
            put_big_text(pen, dx, METER_SIGN_LINE, sign)
        }
        Some(Meter::Ratio { num, den }) => {
            put_big_text(pen, dx, UPPER_NUMBER_LINE, digits(pen.alloc, num)?)?;
            put_big_text(pen, dx, LOWER_NUMBER_LINE, digits(pen.alloc, den)?)
        }
    }
}
