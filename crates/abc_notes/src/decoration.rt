//! The table of decorations: what names each, for the readers and for the speller.

ghost use Rattle.std.specs.Prelude.{◌≡◌, IfOk, find, map};
ghost use Rattle.std.specs.Option.{option_copied};
ghost use Rattle.abc_notes.specs.Decorations.{deco_name, deco_of_letter, deco_of_name, deco_of_text, deco_row};
ghost use Rattle.abc_notes.specs.Decorations.{drawn_decos, has_letter, has_name, is_deco_letter, is_dynamic, is_finger};
ghost use Rattle.abc_notes.specs.Decorations.{is_named, is_one_of};

use mus_units::{Deco, Memory, Text};
use std::alloc::Global;

/// What names a decoration: a letter or none; its plain name, which is the one that is written; and its other names.
#[derive(Clone, Copy)]
struct DecoRow<'a> {
    letter: Option<u8>,
    name: &'a [u8],
    others: &'static [&'static [u8]],
}

fn row<'a>(letter: Option<u8>, name: &'a [u8], others: &'static [&'static [u8]]) -> DecoRow<'a>
    ensures letter { result.letter ≡ letter }
    ensures name { result.name.now ≡ name.now }
    ensures others { map (λ name. name.now) result.others.now ≡ map (λ name. name.now) others.now }
{
    DecoRow {
        letter,
        name,
        others,
    }
}

fn deco_row(deco: &Deco) -> DecoRow<'_>
    ensures letter { result.letter ≡ (deco_row deco.now).letter }
    ensures name { result.name.now ≡ (deco_row deco.now).name }
    ensures others { map (λ name. name.now) result.others.now ≡ (deco_row deco.now).others }
{
    match deco {
        Deco::Ks => row(Some(b'.'), b"staccato", &[]),
        Deco::Kr => row(Some(b'~'), b"roll", &[]),
        Deco::Kf => row(Some(b'H'), b"fermata", &[]),
        Deco::Ka => row(Some(b'L'), b"accent", &[b"emphasis", b">"]),
        Deco::Km => row(Some(b'M'), b"lowermordent", &[b"mordent"]),
        Deco::Kc => row(Some(b'O'), b"coda", &[]),
        Deco::Kp => row(Some(b'P'), b"uppermordent", &[b"pralltriller"]),
        Deco::Kg => row(Some(b'S'), b"segno", &[]),
        Deco::Kt => row(Some(b'T'), b"trill", &[]),
        Deco::Ku => row(Some(b'u'), b"upbow", &[]),
        Deco::Kd => row(Some(b'v'), b"downbow", &[]),
        Deco::Kn => row(None, b"tenuto", &[]),
        Deco::Below(text) => row(None, text.as_slice(), &[]),
        Deco::Above(text) => row(None, text.as_slice(), &[]),
        Deco::Quiet(text) => row(None, text.as_slice(), &[]),
    }
}

/// Returns the decorations that have a glyph.
#[tactic(auto, unfolding(crate::specs::Decorations::drawn_decos))]
fn drawn_decos() -> [Deco; 12]
    ensures { result ≡ drawn_decos }
{
    [
        Deco::Ks,
        Deco::Kr,
        Deco::Kf,
        Deco::Ka,
        Deco::Km,
        Deco::Kc,
        Deco::Kp,
        Deco::Kg,
        Deco::Kt,
        Deco::Ku,
        Deco::Kd,
        Deco::Kn,
    ]
}

/// Returns the plain name of a decoration, or a text's own name.
pub fn deco_name(deco: &Deco) -> &[u8]
    ensures { result.now ≡ deco_name deco.now }
{
    deco_row(deco).name
}

/// Returns whether this is a letter that names a decoration. The dot is none, since it means other things too.
pub fn is_deco_letter(byte: u8) -> bool
    ensures { result ≡ is_deco_letter byte }
{
    byte == b'~'
        || byte == b'H'
        || byte == b'L'
        || byte == b'M'
        || byte == b'O'
        || byte == b'P'
        || byte == b'S'
        || byte == b'T'
        || byte == b'u'
        || byte == b'v'
}

fn has_letter(byte: u8, deco: &Deco) -> bool
    ensures { result ≡ has_letter byte deco.now }
{
    deco_row(deco).letter == Some(byte)
}

fn with_letter(byte: u8, decos: &[Deco]) -> Option<&Deco>
    ensures { option_copied result ≡ find (has_letter byte) decos.now }
{
    decos.iter().find(|deco| has_letter(byte, deco))
}

/// Returns the decoration that a letter names.
#[tactic(auto, unfolding(crate::specs::Decorations::deco_of_letter))]
pub fn deco_of_letter(alloc: Global, byte: u8) -> Result<Deco, Memory>
    ensures { IfOk result (λ it. it ≡ deco_of_letter byte) }
{
    match with_letter(byte, &drawn_decos()) {
        Some(deco) => deco.copy(alloc),
        None => Ok(Deco::Ks),
    }
}

fn has_name(name: &[u8], deco: &Deco) -> bool
    ensures { result ≡ has_name name.now deco.now }
{
    let row = deco_row(deco);
    is_word(name, row.name) || is_one_of(row.others, name)
}

fn is_one_of(words: &[&[u8]], name: &[u8]) -> bool
    ensures { result ≡ is_one_of (map (λ word. word.now) words.now) name.now }
{
    for word in words {
        if is_word(name, word) {
            return true;
        }
    }
    false
}

fn with_name<'a>(name: &[u8], decos: &'a [Deco]) -> Option<&'a Deco>
    ensures { option_copied result ≡ find (has_name name.now) decos.now }
{
    decos.iter().find(|deco| has_name(name, deco))
}

/// Returns the decoration that a name between exclamation marks means.
#[tactic(auto, unfolding(crate::specs::Decorations::deco_of_name))]
pub fn deco_of_name(alloc: Global, name: &[u8]) -> Result<Deco, Memory>
    ensures { IfOk result (λ it. it ≡ deco_of_name name.now) }
{
    match with_name(name, &drawn_decos()) {
        Some(deco) => deco.copy(alloc),
        None => deco_of_text(alloc, name),
    }
}

#[tactic(auto, unfolding(crate::specs::Decorations::deco_of_text))]
fn deco_of_text(alloc: Global, name: &[u8]) -> Result<Deco, Memory>
    ensures { IfOk result (λ it. it ≡ deco_of_text name.now) }
{
    let text = Text::from_slice(alloc, name)?;
    Ok(if is_dynamic(name) {
        Deco::Below(text)
    } else if is_finger(name) {
        Deco::Above(text)
    } else {
        Deco::Quiet(text)
    })
}

#[tactic(auto, unfolding(crate::specs::Decorations::is_dynamic))]
fn is_dynamic(name: &[u8]) -> bool
    ensures { result ≡ is_dynamic name.now }
{
    is_word(name, b"ppp")
        || is_word(name, b"pp")
        || is_word(name, b"p")
        || is_word(name, b"mp")
        || is_word(name, b"mf")
        || is_word(name, b"f")
        || is_word(name, b"ff")
        || is_word(name, b"fff")
        || is_word(name, b"sfz")
}

#[tactic(auto, unfolding(crate::specs::Decorations::is_finger))]
fn is_finger(name: &[u8]) -> bool
    ensures { result ≡ is_finger name.now }
{
    is_word(name, b"1")
        || is_word(name, b"2")
        || is_word(name, b"3")
        || is_word(name, b"4")
        || is_word(name, b"5")
}

fn is_word(name: &[u8], word: &[u8]) -> bool
    ensures { result ≡ is_named name.now word.now }
{
    name == word
}
