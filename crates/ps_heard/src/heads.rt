//! How a head of a column sounds.

ghost use Rattle.std.specs.{Prelude.◌≡◌, List.find, List.list_any, Option.option_map, Ordering.int_eq};
ghost use Rattle.mus_pitch.specs.Alteration.{key_sign, said_sign};
ghost use Rattle.ps_heard.specs.Hearing.{sign_of_glyph, is_same_pitch, tied_from, head_of_glyph, heard_of_glyph};
ghost use Rattle.ps_heard.specs.Hearing.{first_there};

use crate::column::{Heard, HeardColumn, HeardGlyph, Listener, Role};
use crate::pitches::pitch_at;
use mus_pitch::in_force;
use mus_units::{Alter, Clef, Head, Key, Pitch, Spread};

/// Returns the first accidental at a height.
fn sign_of_glyph(dy: i32, notes: &[HeardGlyph]) -> Option<Alter>
    ensures { result ≡ sign_of_glyph dy notes.now }
{
    for note in notes {
        if let Role::Sign(alter) = note.role {
            if note.dy == dy {
                return Some(alter);
            }
        }
    }
    None
}

/// Returns whether a head has this letter and octave.
fn is_same_pitch(pitch: Pitch, head: &Heard) -> bool
    ensures { result ≡ is_same_pitch pitch head.now }
{
    head.pitch.letter == pitch.letter && head.pitch.octave == pitch.octave
}

/// Returns the first head with this letter and octave.
fn head_before(pitch: Pitch, before: &[Heard]) -> Option<Heard>
    ensures { result ≡ find (is_same_pitch pitch) before.now }
{
    for head in before {
        if is_same_pitch(pitch, head) {
            return Some(*head);
        }
    }
    None
}

/// Returns the head before a tie that ends at a head of this pitch, if a tie ends there.
fn tied_from(tied: bool, before: &[Heard], pitch: Pitch) -> Option<Heard>
    ensures { result ≡ tied_from tied before.now pitch }
{
    if tied {
        head_before(pitch, before)
    } else {
        None
    }
}

/// Returns the first of these that exists: the head's own accidental, the alteration of the head before its tie, the
/// last accidental that reaches the pitch, the key's, natural.
fn sounded(
    own: Option<Alter>,
    tied: Option<Heard>,
    pitch: Pitch,
    said: &[Head],
    spread: Spread,
    key: &Key,
) -> Alter
    ensures { result
        ≡ first_there own (option_map (λ x. x.alter) tied) (said_sign spread pitch said.now)
        (key_sign pitch key.now.signs) }
{
    match (own, tied) {
        (Some(own), _) => own,
        (None, Some(head)) => head.alter,
        (None, None) => in_force(pitch, None, said, spread, key),
    }
}

/// Returns whether a tie ends at this height.
fn ends_tie(dy: i32, ties: &[i64]) -> bool
    ensures { result ≡ list_any (int_eq dy) ties.now }
{
    ties.iter().any(|at| i64::from(dy) == *at)
}

/// Returns the head at a height of a column: its pitch and its accidental.
pub fn head_of_glyph(clef: Clef, dy: i32, notes: &[HeardGlyph]) -> Head
    ensures { result ≡ head_of_glyph clef dy notes.now }
{
    Head {
        pitch: pitch_at(clef, dy),
        sign: sign_of_glyph(dy, notes),
        tied: false,
    }
}

/// Returns how a head at a height of a column sounds.
pub fn heard_of_glyph(spread: Spread, col: &HeardColumn, ear: &Listener, dy: i32) -> Heard
    ensures { result ≡ heard_of_glyph spread col.now ear.now.clef ear.now.key.signs ear.now.before ear.now.said dy }
{
    let pitch = pitch_at(ear.clef, dy);
    let tied = tied_from(
        ends_tie(dy, col.ties.as_slice()),
        ear.before.as_slice(),
        pitch,
    );
    let own = sign_of_glyph(dy, col.notes.as_slice());
    Heard {
        pitch,
        alter: sounded(own, tied, pitch, ear.said.as_slice(), spread, &ear.key),
    }
}
