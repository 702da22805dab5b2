ghost use Rattle.std.specs.Prelude.{◌≡◌, ◌∷◌, ◌++◌, [], OnOk, replicate};
ghost use Rattle.abc_notes.specs.Notes.{sign_then, letter_byte};
ghost use Rattle.abc_pieces.specs.declared.token.Token.TheVariants.{Note, Rest, Measures};
ghost use Rattle.abc_tokens.specs.Plain.{PutsBytes, len_then, pitch_then, head_then, is_small_letter, number_or_empty};
ghost use Rattle.abc_tokens.specs.Plain.{token_then};

use abc_music::Len;
use eng_lines::put_number;
use mus_units::{Alter, Head, Letter, Memory, Text};

/// Adds a number, or nothing if it is 0.
pub fn put_number_or_nothing(out: &mut Text, number: u64) -> Result<(), Memory>
    ensures { OnOk result (out.new ≡ out.old ++ number_or_empty number) }
{
    if number == 0 {
        return Ok(());
    }
    put_number(out, number)
}

/// Adds a length: its two numbers with a slash between.
pub fn put_len(out: &mut Text, len: Len) -> Result<(), Memory>
    ensures { OnOk result (PutsBytes out.old out.new (len_then len)) }
{
    put_number(out, u64::from(len.num))?;
    out.push(b'/')?;
    put_number(out, u64::from(len.den))
}

/// Adds the given number of copies of the byte.
pub fn put_copies(out: &mut Text, byte: u8, count: usize) -> Result<(), Memory>
    ensures { OnOk result (out.new ≡ out.old ++ replicate count byte) }
{
    for _ in 0..count {
        out.push(byte)?;
    }
    Ok(())
}

fn put_sign(out: &mut Text, sign: Option<Alter>) -> Result<(), Memory>
    ensures { OnOk result (PutsBytes out.old out.new (sign_then sign)) }
{
    match sign {
        None => Ok(()),
        Some(Alter::Sharp2) => out.append(b"^^"),
        Some(Alter::Sharp) => out.push(b'^'),
        Some(Alter::Flat2) => out.append(b"__"),
        Some(Alter::Flat) => out.push(b'_'),
        Some(Alter::Natural) => out.push(b'='),
    }
}

/// Returns the byte of a letter, small or capital.
fn byte_of(small: bool, letter: Letter) -> u8
    ensures { result ≡ letter_byte small letter }
{
    match (small, letter) {
        (false, Letter::C) => b'C',
        (false, Letter::D) => b'D',
        (false, Letter::E) => b'E',
        (false, Letter::F) => b'F',
        (false, Letter::G) => b'G',
        (false, Letter::A) => b'A',
        (false, Letter::B) => b'B',
        (true, Letter::C) => b'c',
        (true, Letter::D) => b'd',
        (true, Letter::E) => b'e',
        (true, Letter::F) => b'f',
        (true, Letter::G) => b'g',
        (true, Letter::A) => b'a',
        (true, Letter::B) => b'b',
    }
}

fn put_pitch(out: &mut Text, head: Head) -> Result<(), Memory>
    ensures { OnOk result (PutsBytes out.old out.new (pitch_then head)) }
{
    let octave = head.pitch.octave;
    if octave >= 5 {
        out.push(byte_of(true, head.pitch.letter))?;
        put_copies(out, b'\'', (octave - 5) as usize)
    } else {
        out.push(byte_of(false, head.pitch.letter))?;
        put_copies(out, b',', (4 - i64::from(octave)) as usize)
    }
}

/// Adds a head: its accidental, its letter, and its octave marks.
pub fn put_head(out: &mut Text, head: Head) -> Result<(), Memory>
    ensures { OnOk result (PutsBytes out.old out.new (head_then head)) }
{
    put_sign(out, head.sign)?;
    put_pitch(out, head)
}

/// Adds a note.
pub fn put_note(out: &mut Text, head: Head, len: Len) -> Result<(), Memory>
    ensures { OnOk result (PutsBytes out.old out.new (token_then (Note head len))) }
{
    put_head(out, head)?;
    put_len(out, len)
}

/// Adds a rest, visible or invisible.
pub fn put_rest(out: &mut Text, seen: bool, len: Len) -> Result<(), Memory>
    ensures { OnOk result (PutsBytes out.old out.new (token_then (Rest seen len))) }
{
    out.push(if seen { b'z' } else { b'x' })?;
    put_len(out, len)
}

/// Adds whole measures of rest, visible or invisible.
pub fn put_measures(out: &mut Text, seen: bool, count: u16) -> Result<(), Memory>
    ensures { OnOk result (PutsBytes out.old out.new (token_then (Measures seen count))) }
{
    out.push(if seen { b'Z' } else { b'X' })?;
    put_number(out, u64::from(count))
}
