ghost use Rattle.std.specs.Prelude.{◌≡◌, ◌&&◌, find, reverse, is_some, unwrap_or};
ghost use Rattle.std.specs.Option.{option_map, option_copied, option_and_then};
ghost use Rattle.mus_units.specs.Good.{same_letter};
ghost use Rattle.mus_pitch.specs.Alteration.{reaches, is_said, said_sign, key_sign, alteration_of};

use crate::signs::same_letter;
use mus_units::{Alter, Head, Key, Pitch, Sign, Spread};

/// Returns the alteration of a note at `p`, ties aside: its own accidental, else the last accidental among the
/// earlier heads of its measure whose spread reaches it, else its key's, else natural. Takes no memory.
pub fn in_force(p: Pitch, own: Option<Alter>, said: &[Head], spread: Spread, key: &Key) -> Alter
    ensures { result ≡ alteration_of p own said.now spread key.now.signs }
{
    match own {
        Some(sign) => sign,
        None => match said_sign(spread, p, said) {
            Some(sign) => sign,
            None => key_sign(p, key.signs.as_slice()).unwrap_or(Alter::Natural),
        },
    }
}

/// Returns the last accidental among earlier heads that reaches the pitch.
fn said_sign(spread: Spread, p: Pitch, said: &[Head]) -> Option<Alter>
    ensures { result ≡ said_sign spread p said.now }
{
    last_said(spread, p, said)?.sign
}

/// Returns the last head whose accidental reaches the pitch.
fn last_said(spread: Spread, p: Pitch, said: &[Head]) -> Option<&Head>
    ensures { option_copied result ≡ find (is_said spread p) (reverse said.now) }
{
    said.iter().rev().find(|head| is_said(spread, p, head))
}

/// Returns whether a head has an accidental that reaches the pitch.
fn is_said(spread: Spread, p: Pitch, head: &Head) -> bool
    ensures { result ≡ is_said spread p head.now }
{
    head.sign.is_some() && reaches(spread, head.pitch, p)
}

/// Returns the accidental that a key has for the pitch's letter.
fn key_sign(p: Pitch, signs: &[Sign]) -> Option<Alter>
    ensures { result ≡ key_sign p signs.now }
{
    let sign = signs
        .iter()
        .find(|sign| same_letter(sign.letter, p.letter))?;
    Some(sign.alter)
}

/// Returns whether an accidental at one pitch reaches another pitch.
fn reaches(spread: Spread, from: Pitch, to: Pitch) -> bool
    ensures { result ≡ reaches spread from to }
{
    match spread {
        Spread::Not => false,
        Spread::Octave => same_letter(from.letter, to.letter) && from.octave == to.octave,
        Spread::Pitch => same_letter(from.letter, to.letter),
    }
}
