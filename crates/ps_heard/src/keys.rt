//! The clef and the key of a column.

ghost use Rattle.std.specs.{Prelude.◌≡◌, Prelude.IfOk, List.list_any};
ghost use Rattle.ps_heard.specs.Hearing.{clef_or, clef_after, entries, is_sign, is_head, gives_key};

use crate::column::{HeardGlyph, Role};
use crate::pitches::pitch_at;
use mus_units::{Clef, Memory, Row, Sign};
use std::alloc::Global;

fn clef_or(clef: Clef, role: Role) -> Clef
    ensures { result ≡ clef_or clef role }
{
    match role {
        Role::Clef(new) => new,
        _ => clef,
    }
}

/// Returns the last clef among these glyphs, or else the one before.
pub fn clef_after(clef: Clef, notes: &[HeardGlyph]) -> Clef
    ensures { result ≡ clef_after clef notes.now }
{
    let mut last = clef;
    for note in notes {
        last = clef_or(last, note.role);
    }
    last
}

/// Returns the accidentals of a column as entries of a key.
pub fn entries(alloc: Global, clef: Clef, notes: &[HeardGlyph]) -> Result<Row<Sign>, Memory>
    ensures { IfOk result (λ r. r ≡ entries clef notes.now) }
{
    let mut out = Row::new(alloc);
    for note in notes {
        if let Role::Sign(alter) = note.role {
            out.push(Sign {
                letter: pitch_at(clef, note.dy).letter,
                alter,
            })?;
        }
    }
    Ok(out)
}

fn is_sign(role: Role) -> bool
    ensures { result ≡ is_sign role }
{
    match role {
        Role::Sign(_) => true,
        _ => false,
    }
}

fn is_head(role: Role) -> bool
    ensures { result ≡ is_head role }
{
    match role {
        Role::Head | Role::Grace => true,
        _ => false,
    }
}

fn has_signs(notes: &[HeardGlyph]) -> bool
    ensures { result ≡ list_any (λ n. is_sign n.role) notes.now }
{
    notes.iter().any(|note| is_sign(note.role))
}

fn has_heads(notes: &[HeardGlyph]) -> bool
    ensures { result ≡ list_any (λ n. is_head n.role) notes.now }
{
    notes.iter().any(|note| is_head(note.role))
}

/// Returns whether a column with these glyphs sets the key: it leads its system, or has accidentals and no heads.
pub fn gives_key(leads: bool, notes: &[HeardGlyph]) -> bool
    ensures { result ≡ gives_key leads notes.now }
{
    leads || has_signs(notes) && !has_heads(notes)
}
