ghost use Rattle.std.specs.Prelude.{◌≡◌, IfOk, IfSome, Some, None, codes, ◌==◌, nat_eq, ◌∷◌, ◌≤◌, length, not};
ghost use Rattle.std.specs.List.{list_any, ends_with, filter_map, suffix_len};
ghost use Rattle.std.specs.Option.{option_map};
ghost use Rattle.abc_lines.specs.Kinds.{code};
ghost use Rattle.abc_field.specs.declared.key.KeyStart.TheVariants as starts;
ghost use Rattle.mus_units.specs.Good.{IsGoodKey};
ghost use Rattle.abc_field.specs.Last.{last_of};
ghost use Rattle.abc_field.specs.Words.{words_of, after_prefix};
ghost use Rattle.abc_field.specs.Keys.{natural_letter, letter_of, letter_alone, signed_letter, sign_of};
ghost use Rattle.abc_field.specs.Keys.{has_octave, without_octave, clef_of, by_name, by_clef, by_sign, key_word};
ghost use Rattle.abc_field.specs.Keys.{key_words, major_like, minor_like, mode_named, mode_by_three, mode_of};
ghost use Rattle.abc_field.specs.Keys.{key_start, mode_on, altered, tonic_of, without_mode, with_next_mode, by_mode};
ghost use Rattle.abc_field.specs.Keys.{by_tonic, by_fixed, fixed_start, first_words, is_exp, sign_in, clef_in};
ghost use Rattle.abc_field.specs.Keys.{listed_signs, start_with, whole_key, pipe_signs, key_by, key_of, GoodKeyIn};
ghost use Rattle.abc_field.specs.Keys.{IsGoodKeyText};

use crate::words::{after_prefix, is_same, next_word};
use mus_pitch::{Mode, key_of, signature, with_signs};
use mus_units::{Alter, Clef, Key, Letter, Memory, Row, Sign, clef_named};
use std::alloc::Global;

/// The meaning of a key's text. If the text has a tonic, `none`, `HP`, `Hp` or `exp`, `key` is the whole key with the
/// listed accidentals added and `adds` is empty. Otherwise `adds` are accidentals to add to the key in force. `clef`
/// is the last clef named.
#[derive(Drop)]
pub struct KeyText {
    pub key: Option<Key>,
    pub adds: Row<Sign>,
    pub clef: Option<Clef>,
}

/// A word after the tonic: `exp`, an accidental, a clef, or a word that is ignored.
#[derive(Clone, Copy, PartialEq, Eq)]
pub enum KeyWord {
    Empties,
    Adds(Sign),
    Names(Clef),
    Passed,
}

/// What a key begins with: the key in force, a number of sharps from -7 to 7, the accidentals of the pipes, or more
/// accidentals than a signature has.
#[derive(Clone, Copy, PartialEq, Eq)]
pub enum KeyStart {
    Kept,
    Sharps(i8),
    Pipes,
    Beyond,
}

/// A tonic as written, with the mode that is written directly after it.
#[derive(Clone, Copy, PartialEq, Eq)]
pub struct Tonic {
    pub letter: Letter,
    pub alter: Alter,
    pub mode: Option<Mode>,
}

/// Reads the text of a key, if it is one.
#[tactic(auto, unfolding(crate::specs::Keys::key_of))]
pub fn read_key(alloc: Global, text: &[u8]) -> Result<Option<KeyText>, Memory>
    ensures value { IfOk result (λ found. found ≡ key_of text.now) }
    ensures good { IfOk result (λ found. IfSome found (λ k. IsGoodKeyText k)) }
{
    let (start, rest) = first_words(text);
    match key_words(alloc, rest)? {
        Some(words) => key_by(alloc, start_with(start, words.as_slice()), words.as_slice()),
        None => Ok(None),
    }
}

fn key_by(alloc: Global, start: KeyStart, words: &[KeyWord]) -> Result<Option<KeyText>, Memory>
    ensures value { IfOk result (λ found. found ≡ key_by start words.now) }
    ensures good { IfOk result (λ found. IfSome found (λ k. IsGoodKeyText k)) }
{
    match start {
        KeyStart::Kept => kept(alloc, words),
        KeyStart::Sharps(sharps) => whole_of(alloc, sharps, words),
        KeyStart::Pipes => pipes(alloc, words),
        KeyStart::Beyond => Ok(None),
    }
}

fn kept(alloc: Global, words: &[KeyWord]) -> Result<Option<KeyText>, Memory>
    ensures value { IfOk result (λ found. found ≡ key_by starts.Kept words.now) }
    ensures good { IfOk result (λ found. IfSome found (λ k. IsGoodKeyText k)) }
{
    let adds = listed_signs(alloc, words)?;
    Ok(Some(KeyText {
        key: None,
        adds,
        clef: last_clef(words),
    }))
}

fn whole_of(alloc: Global, sharps: i8, words: &[KeyWord]) -> Result<Option<KeyText>, Memory>
    ensures value { IfOk result (λ found. found ≡ key_by (starts.Sharps sharps) words.now) }
    ensures good { IfOk result (λ found. IfSome found (λ k. IsGoodKeyText k)) }
{
    let base = key_of(alloc, sharps)?;
    whole_key(alloc, &base, words)
}

/// Returns the key of the Highland pipes: F sharp, C sharp and G natural.
fn pipes(alloc: Global, words: &[KeyWord]) -> Result<Option<KeyText>, Memory>
    ensures value { IfOk result (λ found. found ≡ key_by starts.Pipes words.now) }
    ensures good { IfOk result (λ found. IfSome found (λ k. IsGoodKeyText k)) }
{
    let signs = Row::from_slice(
        alloc,
        &[
            Sign {
                letter: Letter::F,
                alter: Alter::Sharp,
            },
            Sign {
                letter: Letter::C,
                alter: Alter::Sharp,
            },
            Sign {
                letter: Letter::G,
                alter: Alter::Natural,
            },
        ],
    )?;
    whole_key(alloc, &Key { signs }, words)
}

/// Returns a whole key: the listed accidentals added to what it begins with.
fn whole_key(alloc: Global, base: &Key, words: &[KeyWord]) -> Result<Option<KeyText>, Memory>
    requires { IsGoodKey base.now }
    ensures value { IfOk result (λ found. found ≡ whole_key base.now.signs words.now) }
    ensures good { IfOk result (λ found. IfSome found (λ k. IsGoodKeyText k)) }
{
    let adds = listed_signs(alloc, words)?;
    let key = with_signs(alloc, base, adds.as_slice())?;
    Ok(Some(KeyText {
        key: Some(key),
        adds: Row::new(alloc),
        clef: last_clef(words),
    }))
}

/// Returns the start of a key; with an `exp` the signature begins empty.
fn start_with(start: KeyStart, words: &[KeyWord]) -> KeyStart
    ensures { result ≡ start_with start words.now }
{
    if has_exp(words) {
        KeyStart::Sharps(0)
    } else {
        start
    }
}

fn has_exp(words: &[KeyWord]) -> bool
    ensures { result ≡ list_any is_exp words.now }
{
    words.iter().any(|word| is_exp(*word))
}

fn is_exp(word: KeyWord) -> bool
    ensures { result ≡ is_exp word }
{
    match word {
        KeyWord::Empties => true,
        _ => false,
    }
}

/// Returns the accidentals listed after the last `exp`.
#[tactic(auto, unfolding(crate::specs::Keys::listed_signs))]
fn listed_signs(alloc: Global, words: &[KeyWord]) -> Result<Row<Sign>, Memory>
    ensures { IfOk result (λ row. row ≡ listed_signs words.now) }
{
    let (_, counted) = words.split_at(words.len() - after_exp(words));
    signs_in(alloc, counted)
}

fn after_exp(words: &[KeyWord]) -> usize
    ensures value { result ≡ suffix_len (λ word. not (is_exp word)) words.now }
    ensures within { result ≤ length words.now }
{
    words
        .iter()
        .rev()
        .take_while(|word| !is_exp(**word))
        .count()
}

fn signs_in(alloc: Global, words: &[KeyWord]) -> Result<Row<Sign>, Memory>
    ensures { IfOk result (λ row. row ≡ filter_map sign_in words.now) }
{
    let items = words
        .iter()
        .filter_map(|word| sign_in(*word))
        .collect(alloc)?;
    Ok(Row { items })
}

fn sign_in(word: KeyWord) -> Option<Sign>
    ensures { result ≡ sign_in word }
{
    match word {
        KeyWord::Adds(sign) => Some(sign),
        _ => None,
    }
}

fn last_clef(words: &[KeyWord]) -> Option<Clef>
    ensures { result ≡ last_of clef_in words.now }
{
    let mut last = None;
    for word in words {
        last = clef_in(*word).or(last);
    }
    last
}

fn clef_in(word: KeyWord) -> Option<Clef>
    ensures { result ≡ clef_in word }
{
    match word {
        KeyWord::Names(clef) => Some(clef),
        _ => None,
    }
}

/// Reads all words. `None` if one is of no such kind.
fn key_words(alloc: Global, text: &[u8]) -> Result<Option<Row<KeyWord>>, Memory>
    ensures { IfOk result (λ found. found ≡ key_words (words_of text.now)) }
{
    let mut words = Row::new(alloc);
    let mut rest = text;
    while let Some((word, others)) = next_word(false, rest) {
        let Some(read) = key_word(word) else {
            return Ok(None);
        };
        words.push(read)?;
        rest = others;
    }
    Ok(Some(words))
}

#[tactic(auto, unfolding(crate::specs::Keys::key_word))]
fn key_word(word: &[u8]) -> Option<KeyWord>
    ensures { result ≡ key_word word.now }
{
    if is_same(word, b"exp") {
        return Some(KeyWord::Empties);
    }
    match sign_of(word) {
        Some(sign) => Some(KeyWord::Adds(sign)),
        None => by_clef(word),
    }
}

fn by_clef(word: &[u8]) -> Option<KeyWord>
    ensures { result ≡ by_clef word.now (after_prefix (codes "clef=") word.now) }
{
    match after_prefix(word, b"clef=") {
        Some(name) => Some(KeyWord::Names(clef_of(name)?)),
        None => by_name(word),
    }
}

fn by_name(word: &[u8]) -> Option<KeyWord>
    ensures { result ≡ by_name word.now (clef_of word.now) }
{
    match clef_of(word) {
        Some(clef) => Some(KeyWord::Names(clef)),
        None if has_equals(word) => Some(KeyWord::Passed),
        None => None,
    }
}

fn has_equals(word: &[u8]) -> bool
    ensures { result ≡ list_any (λ b. b == code "=") word.now }
{
    word.iter().any(|byte| *byte == b'=')
}

/// Returns the clef of that name; an octave at its end is ignored.
#[tactic(auto, unfolding(crate::specs::Keys::clef_of))]
pub fn clef_of(name: &[u8]) -> Option<Clef>
    ensures { result ≡ clef_of name.now }
{
    clef_named(without_octave(name))
}

fn without_octave(name: &[u8]) -> &[u8]
    ensures { result.now ≡ without_octave name.now }
{
    if has_octave(name) {
        name.split_at(name.len().saturating_sub(2)).0
    } else {
        name
    }
}

fn has_octave(name: &[u8]) -> bool
    ensures { result ≡ has_octave name.now }
{
    name.ends_with(b"+8") || name.ends_with(b"-8")
}

/// Reads a word as an accidental and a letter.
#[tactic(auto, unfolding(crate::specs::Keys::sign_of))]
fn sign_of(word: &[u8]) -> Option<Sign>
    ensures { result ≡ sign_of word.now }
{
    signed_letter(Alter::Sharp2, word, b"^^")
        .or(signed_letter(Alter::Sharp, word, b"^"))
        .or(signed_letter(Alter::Flat2, word, b"__"))
        .or(signed_letter(Alter::Flat, word, b"_"))
        .or(signed_letter(Alter::Natural, word, b"="))
}

fn signed_letter(alter: Alter, word: &[u8], leading: &[u8]) -> Option<Sign>
    ensures { result ≡ signed_letter alter (after_prefix leading.now word.now) }
{
    match after_prefix(word, leading) {
        Some(rest) => Some(Sign {
            letter: letter_alone(rest)?,
            alter,
        }),
        None => None,
    }
}

fn letter_alone(text: &[u8]) -> Option<Letter>
    ensures { result ≡ letter_alone text.now }
{
    let (first, rest) = text.split_first()?;
    if rest.is_empty() {
        letter_of(*first)
    } else {
        None
    }
}

/// Returns the letter of a byte in either case.
fn letter_of(byte: u8) -> Option<Letter>
    ensures { result ≡ letter_of byte }
{
    natural_letter(byte).or(natural_letter(byte.saturating_sub(32)))
}

fn natural_letter(byte: u8) -> Option<Letter>
    ensures { result ≡ natural_letter byte }
{
    match byte {
        b'C' => Some(Letter::C),
        b'D' => Some(Letter::D),
        b'E' => Some(Letter::E),
        b'F' => Some(Letter::F),
        b'G' => Some(Letter::G),
        b'A' => Some(Letter::A),
        b'B' => Some(Letter::B),
        _ => None,
    }
}

/// Returns what the first words begin a key with, and the text of the other words.
#[tactic(auto, unfolding(crate::specs::Keys::first_words))]
fn first_words(text: &[u8]) -> (KeyStart, &[u8])
    ensures { (result.0, words_of result.1.now) ≡ first_words (words_of text.now) }
{
    match next_word(false, text) {
        Some((word, rest)) => by_fixed(text, word, rest),
        None => (KeyStart::Sharps(0), text),
    }
}

fn by_fixed<'a>(text: &'a [u8], word: &[u8], rest: &'a [u8]) -> (KeyStart, &'a [u8])
    requires { words_of text.now ≡ word.now ∷ words_of rest.now }
    ensures { (result.0, words_of result.1.now) ≡ by_fixed (fixed_start word.now) word.now (words_of rest.now) }
{
    match fixed_start(word) {
        Some(start) => (start, rest),
        None => by_tonic(text, word, rest),
    }
}

fn fixed_start(word: &[u8]) -> Option<KeyStart>
    ensures { result ≡ fixed_start word.now }
{
    if is_same(word, b"none") {
        Some(KeyStart::Sharps(0))
    } else if is_same(word, b"HP") {
        Some(KeyStart::Sharps(0))
    } else if is_same(word, b"Hp") {
        Some(KeyStart::Pipes)
    } else {
        None
    }
}

fn by_tonic<'a>(text: &'a [u8], word: &[u8], rest: &'a [u8]) -> (KeyStart, &'a [u8])
    requires { words_of text.now ≡ word.now ∷ words_of rest.now }
    ensures { (result.0, words_of result.1.now) ≡ by_tonic (tonic_of word.now) word.now (words_of rest.now) }
{
    match tonic_of(word) {
        Some(tonic) => by_mode(tonic, rest),
        None => (KeyStart::Kept, text),
    }
}

fn by_mode(tonic: Tonic, rest: &[u8]) -> (KeyStart, &[u8])
    ensures { (result.0, words_of result.1.now) ≡ by_mode tonic.letter tonic.alter tonic.mode (words_of rest.now) }
{
    match tonic.mode {
        Some(mode) => (key_start(tonic.letter, tonic.alter, mode), rest),
        None => without_mode(tonic.letter, tonic.alter, rest),
    }
}

/// Returns the start by a tonic and the mode that the next word names; if it names none, the mode is major.
fn without_mode(letter: Letter, alter: Alter, text: &[u8]) -> (KeyStart, &[u8])
    ensures { (result.0, words_of result.1.now) ≡ without_mode letter alter (words_of text.now) }
{
    match next_word(false, text) {
        Some((word, rest)) => with_next_mode(letter, alter, text, word, rest),
        None => (key_start(letter, alter, Mode::Maj), text),
    }
}

fn with_next_mode<'a>(
    letter: Letter,
    alter: Alter,
    text: &'a [u8],
    word: &[u8],
    rest: &'a [u8],
) -> (KeyStart, &'a [u8])
    requires { words_of text.now ≡ word.now ∷ words_of rest.now }
    ensures { (result.0, words_of result.1.now)
        ≡ with_next_mode letter alter word.now (words_of rest.now) (mode_of word.now) }
{
    match mode_of(word) {
        Some(mode) => (key_start(letter, alter, mode), rest),
        None => (key_start(letter, alter, Mode::Maj), text),
    }
}

fn key_start(letter: Letter, alter: Alter, mode: Mode) -> KeyStart
    ensures { result ≡ key_start letter alter mode }
{
    match signature(letter, alter, mode) {
        Some(sharps) => KeyStart::Sharps(sharps),
        None => KeyStart::Beyond,
    }
}

/// Reads a word as a tonic with the mode written directly after it.
#[tactic(auto, unfolding(crate::specs::Keys::tonic_of))]
fn tonic_of(word: &[u8]) -> Option<Tonic>
    ensures { result ≡ tonic_of word.now }
{
    let (first, rest) = word.split_first()?;
    altered(natural_letter(*first)?, rest)
}

fn altered(letter: Letter, text: &[u8]) -> Option<Tonic>
    ensures { result ≡ altered letter text.now }
{
    match text.split_first() {
        Some((first, rest)) if *first == b'#' => mode_on(letter, Alter::Sharp, rest),
        Some((first, rest)) if *first == b'b' => mode_on(letter, Alter::Flat, rest),
        _ => mode_on(letter, Alter::Natural, text),
    }
}

fn mode_on(letter: Letter, alter: Alter, text: &[u8]) -> Option<Tonic>
    ensures { result ≡ mode_on letter alter text.now }
{
    if text.is_empty() {
        return Some(Tonic {
            letter,
            alter,
            mode: None,
        });
    }
    let mode = mode_of(text)?;
    Some(Tonic {
        letter,
        alter,
        mode: Some(mode),
    })
}

/// Returns the mode that a word names: `m` is minor, and any other word is read by its first three letters in any
/// case.
#[tactic(auto, unfolding(crate::specs::Keys::mode_of))]
fn mode_of(word: &[u8]) -> Option<Mode>
    ensures { result ≡ mode_of word.now }
{
    if is_same(word, b"m") {
        Some(Mode::Min)
    } else {
        mode_by_three(word)
    }
}

fn mode_by_three(word: &[u8]) -> Option<Mode>
    ensures { result ≡ mode_by_three word.now }
{
    let (first, rest) = word.split_first()?;
    let (second, rest) = rest.split_first()?;
    let (third, _) = rest.split_first()?;
    mode_named(&[
        first.to_ascii_lowercase(),
        second.to_ascii_lowercase(),
        third.to_ascii_lowercase(),
    ])
}

fn mode_named(leading: &[u8]) -> Option<Mode>
    ensures { result ≡ mode_named leading.now }
{
    major_like(leading).or(minor_like(leading))
}

fn major_like(leading: &[u8]) -> Option<Mode>
    ensures { result ≡ major_like leading.now }
{
    if is_same(leading, b"maj") {
        Some(Mode::Maj)
    } else if is_same(leading, b"ion") {
        Some(Mode::Maj)
    } else if is_same(leading, b"mix") {
        Some(Mode::Mix)
    } else if is_same(leading, b"lyd") {
        Some(Mode::Lyd)
    } else {
        None
    }
}

fn minor_like(leading: &[u8]) -> Option<Mode>
    ensures { result ≡ minor_like leading.now }
{
    if is_same(leading, b"min") {
        Some(Mode::Min)
    } else if is_same(leading, b"aeo") {
        Some(Mode::Min)
    } else if is_same(leading, b"dor") {
        Some(Mode::Dor)
    } else if is_same(leading, b"phr") {
        Some(Mode::Phr)
    } else if is_same(leading, b"loc") {
        Some(Mode::Loc)
    } else {
        None
    }
}
