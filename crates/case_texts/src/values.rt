use crate::error::{CaseError, Mistake};
use crate::report::Report;
use mus_units::{Alter, Clef, Frac, Letter, Meter, Sign, Spread, Wish, clef_row};

/// Returns whether a case gives the word that its call knows; it may give no other.
pub fn is_given(word: &str, known: &str) -> Result<bool, CaseError> {
    if word.is_empty() || word == known {
        Ok(word == known)
    } else {
        Err(CaseError::Wrong(Mistake::UnknownWord))
    }
}

/// Adds a word and a text after it.
pub fn put_text(out: &mut Report, name: &[u8], text: &[u8]) -> Result<(), CaseError> {
    out.next(name)?;
    out.next(text)
}

/// Adds a letter's name.
pub fn put_letter(out: &mut Report, letter: Letter) -> Result<(), CaseError> {
    out.push(match letter {
        Letter::C => b'C',
        Letter::D => b'D',
        Letter::E => b'E',
        Letter::F => b'F',
        Letter::G => b'G',
        Letter::A => b'A',
        Letter::B => b'B',
    })
}

/// Returns the letter of a name.
pub fn letter_named(name: &str) -> Result<Letter, CaseError> {
    match name {
        "C" => Ok(Letter::C),
        "D" => Ok(Letter::D),
        "E" => Ok(Letter::E),
        "F" => Ok(Letter::F),
        "G" => Ok(Letter::G),
        "A" => Ok(Letter::A),
        "B" => Ok(Letter::B),
        _ => Err(CaseError::Wrong(Mistake::UnknownLetter)),
    }
}

/// Returns the name of an alteration, which is only a mark.
pub fn alter_name(alter: Alter) -> &'static [u8] {
    match alter {
        Alter::Flat2 => b"bb",
        Alter::Flat => b"b",
        Alter::Natural => b"=",
        Alter::Sharp => b"#",
        Alter::Sharp2 => b"##",
    }
}

/// Returns the alteration of a name; a natural has none.
pub fn alter_named(name: &str) -> Result<Alter, CaseError> {
    match name {
        "bb" => Ok(Alter::Flat2),
        "b" => Ok(Alter::Flat),
        "" => Ok(Alter::Natural),
        "#" => Ok(Alter::Sharp),
        "##" => Ok(Alter::Sharp2),
        _ => Err(CaseError::Wrong(Mistake::UnknownAlteration)),
    }
}

/// Adds a word and signs after it, such as `F# Bb C=`.
pub fn put_signs(out: &mut Report, name: &[u8], signs: &[Sign]) -> Result<(), CaseError> {
    out.next(name)?;
    for sign in signs {
        out.push(b' ')?;
        put_letter(out, sign.letter)?;
        out.append(alter_name(sign.alter))?;
    }
    Ok(())
}

/// Adds `clef` and the clef's name.
pub fn put_clef(out: &mut Report, clef: Clef) -> Result<(), CaseError> {
    out.next(b"clef ")?;
    out.append(clef_row(clef).name)
}

/// Returns the clef of a name.
pub fn clef_named(name: &str) -> Result<Clef, CaseError> {
    mus_units::clef_named(name.as_bytes()).ok_or(CaseError::Wrong(Mistake::UnknownClef))
}

/// Adds `meter` and the meter.
pub fn put_meter(out: &mut Report, meter: Meter) -> Result<(), CaseError> {
    match meter {
        Meter::Free => out.next(b"meter free"),
        Meter::Common => out.next(b"meter C"),
        Meter::Cut => out.next(b"meter C|"),
        Meter::Ratio { num, den } => out.tell(format_args!("meter {num}/{den}")),
    }
}

/// Adds a word and a fraction after it.
pub fn put_frac(out: &mut Report, name: &[u8], frac: Frac) -> Result<(), CaseError> {
    out.next(name)?;
    out.tell(format_args!("{}/{}", frac.num, frac.den))
}

/// Adds `spread` and how far signs reach.
pub fn put_spread(out: &mut Report, spread: Spread) -> Result<(), CaseError> {
    out.next(match spread {
        Spread::Not => b"spread not",
        Spread::Octave => b"spread octave",
        Spread::Pitch => b"spread pitch",
    })
}

/// Adds `stem` and the direction that the stems of a voice are asked to take.
pub fn put_wish(out: &mut Report, wish: Wish) -> Result<(), CaseError> {
    out.next(match wish {
        Wish::Auto => b"stem auto",
        Wish::Up => b"stem up",
        Wish::Down => b"stem down",
    })
}
