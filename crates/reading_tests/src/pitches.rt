ghost use Rattle.mus_units.specs.Good.{IsGoodKey};

use crate::books::line_of;
use abc_field::directive::read_spread;
use abc_field::key::read_key;
use abc_music::{Head, Placed, Token, read_prefix};
use case_texts::{
    CaseError, Mistake, Report, alter_name, alter_named, clef_named, letter_named, number_of,
    put_signs,
};
use mus_pitch::{Mode, in_force, key_of, signature, with_signs};
use mus_units::{Key, Memory, Row, Sign, Spread, height};
use std::alloc::Global;

/// Adds the height of the first note of a line in a clef.
pub(crate) fn put_height(out: &mut Report, word: &str, bytes: &[u8]) -> Result<(), CaseError> {
    let clef = clef_named(word)?;
    let heads = heads_of(out.alloc, bytes)?;
    match heads.as_slice().first() {
        Some(head) => out.show(height(head.pitch, clef)),
        None => out.append(b"none"),
    }
}

/// Returns the heads of the notes of a line.
fn heads_of(alloc: Global, bytes: &[u8]) -> Result<Row<Head>, Memory> {
    let prefix = read_prefix(alloc, &line_of(alloc, bytes)?, false)?;
    let mut heads = Row::new(alloc);
    for placed in prefix.tokens.as_slice() {
        if let Some(head) = head_of(placed) {
            heads.push(head)?;
        }
    }
    Ok(heads)
}

fn head_of(placed: &Placed) -> Option<Head> {
    match &placed.token {
        Token::Note { head, .. } => Some(*head),
        _ => None,
    }
}

/// Adds the number of sharps of a tonic, such as `F#`, in a mode, or `none`.
pub(crate) fn put_signature(out: &mut Report, mode: &str, tonic: &str) -> Result<(), CaseError> {
    let (letter, alter) = tonic.split_at_checked(1).unwrap_or((tonic, ""));
    let (letter, alter) = (letter_named(letter)?, alter_named(alter)?);
    match signature(letter, alter, mode_named(mode)?) {
        Some(sharps) => out.show(sharps),
        None => out.append(b"none"),
    }
}

fn mode_named(name: &str) -> Result<Mode, CaseError> {
    match name {
        "Maj" => Ok(Mode::Maj),
        "Min" => Ok(Mode::Min),
        "Mix" => Ok(Mode::Mix),
        "Dor" => Ok(Mode::Dor),
        "Phr" => Ok(Mode::Phr),
        "Loc" => Ok(Mode::Loc),
        "Lyd" => Ok(Mode::Lyd),
        _ => Err(CaseError::Wrong(Mistake::UnknownMode)),
    }
}

/// Adds the key of a number of sharps.
pub(crate) fn put_key(out: &mut Report, sharps: &str) -> Result<(), CaseError> {
    let key = key_of(out.alloc, number_of::<i8>(sharps)?)?;
    put_signs(out, b"key", key.signs.as_slice())
}

/// Adds the key of a number of sharps with further signs added to it, such as `=F _B`.
pub(crate) fn put_laid_key(out: &mut Report, sharps: &str, signs: &[u8]) -> Result<(), CaseError> {
    let key = key_of(out.alloc, number_of::<i8>(sharps)?)?;
    match read_key(out.alloc, signs)? {
        Some(text) => put_laid(out, &key, text.adds.as_slice()),
        None => out.append(b"no signs"),
    }
}

fn put_laid(out: &mut Report, key: &Key, adds: &[Sign]) -> Result<(), CaseError>
    requires { IsGoodKey key.now }
{
    let laid = with_signs(out.alloc, key, adds)?;
    put_signs(out, b"key", laid.signs.as_slice())
}

/// Adds the alteration of the last note of a line after the others: the argument says how far signs reach and the
/// key's number of sharps, such as `octave 1`.
pub(crate) fn put_alteration(out: &mut Report, word: &str, bytes: &[u8]) -> Result<(), CaseError> {
    let (reach, sharps) = word
        .split_once(" ")
        .ok_or(CaseError::Wrong(Mistake::MissingNumber))?;
    let spread = read_spread(reach.as_bytes()).ok_or(CaseError::Wrong(Mistake::UnknownReach))?;
    let key = key_of(out.alloc, number_of::<i8>(sharps)?)?;
    put_last_alteration(out, heads_of(out.alloc, bytes)?.as_slice(), spread, &key)
}

fn put_last_alteration(
    out: &mut Report,
    heads: &[Head],
    spread: Spread,
    key: &Key,
) -> Result<(), CaseError> {
    match heads.split_last() {
        Some((head, said)) => out.append(alter_name(in_force(
            head.pitch, head.sign, said, spread, key,
        ))),
        None => out.append(b"none"),
    }
}
