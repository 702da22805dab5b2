ghost use Rattle.std.specs.Prelude.{◌≡◌, ◌&&◌, not, nat_le, length, codes, false, true, IfOk, unwrap_or, is_some};
ghost use Rattle.std.specs.Option.{option_map};
ghost use Rattle.abc_field.specs.Last.{last_of};
ghost use Rattle.abc_field.specs.Words.{after_prefix, ends_quoted, properties_of};
ghost use Rattle.abc_field.specs.Keys.{clef_of};
ghost use Rattle.abc_field.specs.Voices.{wish_of, by_stem, by_clef, voice_word, voice_words, clef_in, wish_in};
ghost use Rattle.abc_field.specs.Voices.{voice_def, is_good_voice, voice_of};

use crate::key::clef_of;
use crate::words::{after_prefix, ends_quoted, is_same, next_word};
use mus_units::{Clef, Memory, Row, Text, Wish};
use std::alloc::Global;

/// The meaning of a voice's field: its id of 1 to 20 bytes, the last clef that it names, and the last stem direction.
/// `asks` says whether it names a direction; if it doesn't, `stem` is `Auto`.
#[derive(Drop)]
pub struct VoiceDef {
    pub id: Text,
    pub clef: Option<Clef>,
    pub stem: Wish,
    pub asks: bool,
}

/// A property of a voice: a clef, a stem direction, or one that is ignored.
#[derive(Clone, Copy, PartialEq, Eq)]
pub enum VoiceWord {
    Names(Clef),
    Asks(Wish),
    Passed,
}

/// Reads the text of a voice, if it is one.
#[tactic(auto, unfolding(crate::specs::Voices::voice_of))]
pub fn read_voice(alloc: Global, text: &[u8]) -> Result<Option<VoiceDef>, Memory>
    ensures { IfOk result (λ found. found ≡ voice_of text.now) }
{
    match next_word(false, text) {
        Some((id, rest)) if is_good_voice(id, rest) => voice_with(alloc, id, rest),
        _ => Ok(None),
    }
}

fn is_good_voice(id: &[u8], rest: &[u8]) -> bool
    ensures { result ≡ is_good_voice id.now rest.now }
{
    id.len() <= 20 && !ends_quoted(rest)
}

fn voice_with(alloc: Global, id: &[u8], rest: &[u8]) -> Result<Option<VoiceDef>, Memory>
    ensures { IfOk result (λ found. found ≡ option_map (voice_def id.now) (voice_words (properties_of rest.now))) }
{
    match voice_words(alloc, rest)? {
        Some(words) => Ok(Some(voice_def(alloc, id, words.as_slice())?)),
        None => Ok(None),
    }
}

fn voice_def(alloc: Global, id: &[u8], words: &[VoiceWord]) -> Result<VoiceDef, Memory>
    ensures { IfOk result (λ def. def ≡ voice_def id.now words.now) }
{
    let wish = last_wish(words);
    Ok(VoiceDef {
        id: Text::from_slice(alloc, id)?,
        clef: last_clef(words),
        stem: wish.unwrap_or(Wish::Auto),
        asks: wish.is_some(),
    })
}

/// Reads all properties. `None` if one has an unknown clef or stem direction.
fn voice_words(alloc: Global, text: &[u8]) -> Result<Option<Row<VoiceWord>>, Memory>
    ensures { IfOk result (λ found. found ≡ voice_words (properties_of text.now)) }
{
    let mut words = Row::new(alloc);
    let mut rest = text;
    while let Some((word, others)) = next_word(true, rest) {
        let Some(read) = voice_word(word) else {
            return Ok(None);
        };
        words.push(read)?;
        rest = others;
    }
    Ok(Some(words))
}

#[tactic(auto, unfolding(crate::specs::Voices::voice_word))]
fn voice_word(word: &[u8]) -> Option<VoiceWord>
    ensures { result ≡ voice_word word.now }
{
    match after_prefix(word, b"clef=") {
        Some(name) => Some(VoiceWord::Names(clef_of(name)?)),
        None => by_stem(word),
    }
}

fn by_stem(word: &[u8]) -> Option<VoiceWord>
    ensures { result ≡ by_stem word.now (after_prefix (codes "stem=") word.now) }
{
    match after_prefix(word, b"stem=") {
        Some(way) => Some(VoiceWord::Asks(wish_of(way)?)),
        None => match clef_of(word) {
            Some(clef) => Some(VoiceWord::Names(clef)),
            None => Some(VoiceWord::Passed),
        },
    }
}

fn wish_of(way: &[u8]) -> Option<Wish>
    ensures { result ≡ wish_of way.now }
{
    if is_same(way, b"up") {
        Some(Wish::Up)
    } else if is_same(way, b"down") {
        Some(Wish::Down)
    } else if is_same(way, b"auto") {
        Some(Wish::Auto)
    } else {
        None
    }
}

fn last_clef(words: &[VoiceWord]) -> Option<Clef>
    ensures { result ≡ last_of clef_in words.now }
{
    let mut last = None;
    for word in words {
        last = clef_in(*word).or(last);
    }
    last
}

fn clef_in(word: VoiceWord) -> Option<Clef>
    ensures { result ≡ clef_in word }
{
    match word {
        VoiceWord::Names(clef) => Some(clef),
        _ => None,
    }
}

fn last_wish(words: &[VoiceWord]) -> Option<Wish>
    ensures { result ≡ last_of wish_in words.now }
{
    let mut last = None;
    for word in words {
        last = wish_in(*word).or(last);
    }
    last
}

fn wish_in(word: VoiceWord) -> Option<Wish>
    ensures { result ≡ wish_in word }
{
    match word {
        VoiceWord::Asks(wish) => Some(wish),
        _ => None,
    }
}
