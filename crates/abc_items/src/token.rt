//! The items that fields and tokens of a music line add to the body.

ghost use Rattle.std.specs.Prelude.{◌≡◌, ◌≤◌, ◌^◌, true, ◌*◌, ◌-◌, ◌∷◌, [], map, get_or, IfOk, IfErr, IfSome, Ok, Err};
ghost use Rattle.abc_music.specs.Good.{AreGoodHeads, IsGoodLen, IsGoodToken};
ghost use Rattle.abc_steps.specs.Good.{IsGoodSound};
ghost use Rattle.abc_field.specs.Fields.{IsGoodField, named_field};
ghost use Rattle.abc_field.specs.Keys.{IsGoodKeyText};
ghost use Rattle.abc_items.specs.Good.{IsGoodItem};
ghost use Rattle.abc_items.specs.Body.{written_head, first_len, chord_sound, is_on, cut_given, step_at, field_item};
ghost use Rattle.abc_items.specs.Body.{item_of_field, item_of_token};
ghost use Rattle.abc_items.specs.Reading.{maybe_given, IsGivenError};

use abc_field::{Breaks, Field, FieldError, KeyText, read_named};
use abc_lines::{Fault, Line, TuneError};
use abc_music::{Len, Token, WrittenChord};
use abc_steps::{BodyItem, Boxed, PlacedStep, Step, StoredSound, WrittenSound};
use mus_units::{Few, Head, Memory, Row};
use std::alloc::Global;

fn stood(step: Step, line: u32, column: u32) -> BodyItem
    ensures { result ≡ BodyItem.Step (record { step = step; line = line; column = column }) }
{
    BodyItem::Step(PlacedStep { step, line, column })
}

fn key(alloc: Global, text: KeyText, line: u32, column: u32) -> Result<Option<BodyItem>, Memory>
    requires { IsGoodKeyText text }
    ensures good { IfOk result (λ found. IfSome found IsGoodItem) }
    ensures item { IfOk result (λ found. maybe_given found ≡ step_at (Step.Key text) line column) }
{
    let step = Step::Key(Boxed::new(alloc, text)?);
    Ok(Some(stood(step, line, column)))
}

/// Returns the item that a field adds to a body: keys, meters and unit lengths are steps, a voice becomes current,
/// words are kept, and every other field adds nothing.
pub(crate) fn field_item(
    alloc: Global,
    field: Field,
    line: u32,
    column: u32,
) -> Result<Option<BodyItem>, Memory>
    requires { IsGoodField field }
    ensures good { IfOk result (λ found. IfSome found IsGoodItem) }
    ensures item { IfOk result (λ found. maybe_given found ≡ field_item field line column) }
{
    match field {
        Field::Key(text) => key(alloc, text, line, column),
        Field::Meter(meter) => Ok(Some(stood(Step::Meter(meter), line, column))),
        Field::Unit(unit) => Ok(Some(stood(Step::Unit(unit), line, column))),
        Field::Voice(def) => Ok(Some(BodyItem::Voice { def, line, column })),
        Field::Words(text) => Ok(Some(BodyItem::Words { text, line })),
        _ => Ok(None),
    }
}

/// Returns the item of a field within a music line, or its fault.
#[inline(never)]
fn inline_item(
    alloc: Global,
    letter: u8,
    text: &[u8],
    line: u32,
    column: u32,
) -> Result<Option<BodyItem>, TuneError>
    ensures item { IfOk result (λ found. maybe_given found ≡ item_of_field (named_field letter text.now) line column) }
    ensures good { IfOk result (λ found. IfSome found IsGoodItem) }
    ensures error { IfErr result (λ e. IsGivenError (item_of_field (named_field letter text.now) line column) e) }
{
    match read_named(alloc, letter, text) {
        Ok(field) => Ok(field_item(alloc, field, line, column)?),
        Err(FieldError::Fault(kind)) => Err(TuneError::Fault(Fault { kind, line, column })),
        Err(FieldError::Memory) => Err(TuneError::Memory),
    }
}

/// Returns the heads of a chord, without their lengths.
fn heads_of(alloc: Global, heads: &[(Head, Len)]) -> Result<Row<Head>, Memory>
    ensures { IfOk result (λ found. found ≡ map written_head heads.now) }
{
    let items = heads.iter().map(|head| head.0).collect(alloc)?;
    Ok(Row { items })
}

/// Returns the length of the first head of a chord.
fn first_len(heads: &[(Head, Len)]) -> Len
    requires { AreGoodHeads heads.now }
    ensures value { result ≡ first_len heads.now }
    ensures good { IsGoodLen result }
{
    match heads.split_first() {
        Some((head, _)) => head.1,
        None => Len { num: 1, den: 1 },
    }
}

fn product(one: u32, other: u32) -> u64
    requires one { (1 ≤ one) × (one ≤ 9999) }
    requires other { (1 ≤ other) × (other ≤ 9999) }
    ensures value { result ≡ one * other }
    ensures some { 1 ≤ result }
    ensures high { result ≤ 2 ^ 40 }
{
    u64::from(one) * u64::from(other)
}

/// Returns a chord, whose length is that of its first note, times its own.
#[inline(never)]
fn chord(alloc: Global, chord: WrittenChord) -> Result<WrittenSound, Memory>
    requires heads { AreGoodHeads chord.heads }
    requires len { IsGoodLen chord.len }
    ensures good { IfOk result IsGoodSound }
    ensures value { IfOk result (λ found. found ≡ chord_sound chord) }
{
    let first = first_len(chord.heads.as_slice());
    Ok(WrittenSound {
        heads: Few::from(heads_of(alloc, chord.heads.as_slice())?),
        seen: true,
        decos: chord.decos,
        num: product(first.num, chord.len.num),
        den: product(first.den, chord.len.den),
    })
}

/// Returns the byte at a column, counted from 1.
fn byte_at(text: &[u8], column: u32) -> u8
    ensures { result ≡ get_or text.now (column - 1) 0 }
{
    let at = column.saturating_sub(1) as usize;
    match text.get(at) {
        Some(byte) => *byte,
        None => 0,
    }
}

/// Returns whether the line break that a byte writes is on.
fn is_on(breaks: Breaks, byte: u8) -> bool
    ensures { result ≡ is_on breaks byte }
{
    if byte == b'$' {
        breaks.dollar
    } else {
        breaks.bang
    }
}

fn cut(on: bool, line: u32, column: u32) -> Option<BodyItem>
    ensures good { IfSome result IsGoodItem }
    ensures item { maybe_given result ≡ cut_given on line column }
{
    if on {
        Some(stood(Step::Break, line, column))
    } else {
        None
    }
}

/// Returns the item of a token of a music line, or the fault of the field within it: the step of a token that is one,
/// or else the item of an inline field or a line break.
#[tactic(auto, unfolding(crate::specs::Body::item_of_token))]
pub(crate) fn token_item(
    alloc: Global,
    breaks: Breaks,
    line: &Line,
    column: u32,
    token: Token,
) -> Result<Option<BodyItem>, TuneError>
    requires { IsGoodToken token }
    ensures item { IfOk result (λ found. maybe_given found ≡ item_of_token breaks line.now column token) }
    ensures good { IfOk result (λ found. IfSome found IsGoodItem) }
    ensures error { IfErr result (λ e. IsGivenError (item_of_token breaks line.now column token) e) }
{
    let step = match token {
        Token::Note { head, len } => Step::Sound(StoredSound::note(head, len.num, len.den)),
        Token::Rest { seen, len } => Step::Sound(StoredSound::rest(seen, len.num, len.den)),
        Token::Measures { seen, count } => Step::Measures { seen, count },
        Token::Chord(written) => {
            let sound = chord(alloc, written.into_inner())?;
            Step::Sound(StoredSound::from_sound(alloc, sound)?)
        }
        Token::Grace { slash, body } => Step::Grace { slash, body },
        Token::Tuplet { p, q, r } => Step::Tuplet { p, q, r },
        Token::SlurOn => Step::SlurOn,
        Token::SlurOff => Step::SlurOff,
        Token::Tie => Step::Tie,
        Token::Broken { right, dots } => Step::Broken { right, dots },
        Token::Bar(bar) => Step::Bar(bar),
        Token::Ending(text) => Step::Ending(text),
        Token::Deco(deco) => Step::Deco(Boxed::new(alloc, deco)?),
        Token::Says(text) => Step::Says(text),
        Token::Inline { letter, text } => return inline_item(
            alloc,
            letter,
            text.as_slice(),
            line.number,
            column,
        ),
        Token::Cut => return Ok(cut(
            is_on(breaks, byte_at(line.text.as_slice(), column)),
            line.number,
            column,
        )),
        Token::Space => Step::Space,
    };
    Ok(Some(stood(step, line.number, column)))
}
