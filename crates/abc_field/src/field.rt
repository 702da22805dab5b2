ghost use Rattle.std.specs.Prelude.{◌≡◌, IfOk, IfErr, Ok};
ghost use Rattle.abc_field.specs.declared.field.FieldError.TheVariants as refusals;
ghost use Rattle.abc_field.specs.Directives.{name_of, rest_of};
ghost use Rattle.abc_field.specs.Keys.{key_of};
ghost use Rattle.abc_field.specs.Meters.{meter_of, unit_of};
ghost use Rattle.abc_field.specs.Voices.{voice_of};
ghost use Rattle.abc_field.specs.Fields.{key_field, meter_field, unit_field, voice_field, written_field, named_field};
ghost use Rattle.abc_field.specs.Fields.{breaks_field, spread_field, directive_field, field_of, IsGoodField};
ghost use Rattle.abc_field.specs.Fields.{IsErrorOfField, IsFaultOfLine};
ghost use Rattle.abc_field.specs.FieldSpelling.{Says, NamedSays, NamedRefuses, IsBadLine};

use crate::directive::{Breaks, cut_name, read_breaks, read_spread};
use crate::key::{KeyText, read_key};
use crate::meter::{read_meter, read_unit};
use crate::voice::{VoiceDef, read_voice};
use crate::words::is_same;
use abc_lines::{Fault, FaultKind, Line, LineKind, TuneError, field_text, kind_of};
use mus_units::{Frac, Memory, Meter, Spread, Text};
use std::alloc::Global;

/// The meaning of a line. Texts are as written, without the blanks at their start. `Other` is a field, a directive or
/// a music line that has no meaning here.
#[derive(Drop)]
pub enum Field {
    Key(KeyText),
    Meter(Meter),
    Unit(Frac),
    Voice(VoiceDef),
    Breaks(Breaks),
    Spread(Spread),
    Words(Text),
    Title(Text),
    Composer(Text),
    Tempo(Text),
    Other,
}

/// Why a letter and a text are no field: the fault, whose place is that of the field, or out of memory.
#[derive(Clone, Copy, PartialEq, Eq)]
pub enum FieldError {
    Fault(FaultKind),
    Memory,
}

impl From<Memory> for FieldError {
    ghost from_gives = { λ _ e. e ≡ refusals.Memory };

    fn from(_e: Memory) -> FieldError {
        FieldError::Memory
    }
}

/// Reads the field of a line. A line that begins with `K:`, `M:`, `L:` or `V:` and has no good form is a fault at its
/// column 1.
pub fn read_field(alloc: Global, line: &Line) -> Result<Field, TuneError>
    ensures says { IfOk result (λ field. Says line.now.text field) }
    ensures bad { IfErr result (λ e. IsBadLine line.now e) }
    ensures value { IfOk result (λ field. field_of line.now.text ≡ Ok field) }
    ensures good { IfOk result (λ field. IsGoodField field) }
    ensures fault { IfErr result (λ e. IsFaultOfLine line.now e) }
{
    line_field(alloc, line)
}

/// Returns the field of a line, or its fault with its place.
fn line_field(alloc: Global, line: &Line) -> Result<Field, TuneError>
    ensures value { IfOk result (λ field. field_of line.now.text ≡ Ok field) }
    ensures good { IfOk result (λ field. IsGoodField field) }
    ensures fault { IfErr result (λ e. IsFaultOfLine line.now e) }
{
    match field_at(alloc, line) {
        Ok(field) => Ok(field),
        Err(FieldError::Fault(kind)) => Err(TuneError::Fault(Fault {
            kind,
            line: line.number,
            column: 1,
        })),
        Err(FieldError::Memory) => Err(TuneError::Memory),
    }
}

#[tactic(auto, unfolding(crate::specs::Fields::field_of))]
pub fn field_at(alloc: Global, line: &Line) -> Result<Field, FieldError>
    ensures value { IfOk result (λ field. field_of line.now.text ≡ Ok field) }
    ensures good { IfOk result (λ field. IsGoodField field) }
    ensures fault { IfErr result (λ e. IsErrorOfField (field_of line.now.text) e) }
{
    match kind_of(line) {
        LineKind::Field { letter } => named_field(alloc, letter, field_text(line)),
        LineKind::Directive => Ok(read_directive(field_text(line))),
        LineKind::Music => Ok(Field::Other),
    }
}

/// Reads the field of a letter and a text, as on a line of its own or as `[K:..]`, `[M:..]`, `[L:..]` or `[V:..]`
/// within a music line.
pub fn read_named(alloc: Global, letter: u8, text: &[u8]) -> Result<Field, FieldError>
    ensures says { IfOk result (λ field. NamedSays letter text.now field) }
    ensures bad { IfErr result (λ e. NamedRefuses letter text.now e) }
    ensures value { IfOk result (λ field. named_field letter text.now ≡ Ok field) }
    ensures good { IfOk result (λ field. IsGoodField field) }
    ensures fault { IfErr result (λ e. IsErrorOfField (named_field letter text.now) e) }
{
    named_field(alloc, letter, text)
}

/// Returns the field of a letter and a text, chosen by the letter.
#[tactic(auto, unfolding(crate::specs::Fields::named_field))]
fn named_field(alloc: Global, letter: u8, text: &[u8]) -> Result<Field, FieldError>
    ensures value { IfOk result (λ field. named_field letter text.now ≡ Ok field) }
    ensures good { IfOk result (λ field. IsGoodField field) }
    ensures fault { IfErr result (λ e. IsErrorOfField (named_field letter text.now) e) }
{
    match letter {
        b'K' => key_field(alloc, text),
        b'M' => meter_field(text),
        b'L' => unit_field(text),
        b'V' => voice_field(alloc, text),
        _ => written_field(alloc, letter, text),
    }
}

fn key_field(alloc: Global, text: &[u8]) -> Result<Field, FieldError>
    ensures value { IfOk result (λ field. key_field (key_of text.now) ≡ Ok field) }
    ensures good { IfOk result (λ field. IsGoodField field) }
    ensures fault { IfErr result (λ e. IsErrorOfField (key_field (key_of text.now)) e) }
{
    match read_key(alloc, text)? {
        Some(key) => Ok(Field::Key(key)),
        None => Err(FieldError::Fault(FaultKind::BadKey)),
    }
}

fn meter_field(text: &[u8]) -> Result<Field, FieldError>
    ensures value { IfOk result (λ field. meter_field (meter_of text.now) ≡ Ok field) }
    ensures good { IfOk result (λ field. IsGoodField field) }
    ensures fault { IfErr result (λ e. IsErrorOfField (meter_field (meter_of text.now)) e) }
{
    match read_meter(text) {
        Some(meter) => Ok(Field::Meter(meter)),
        None => Err(FieldError::Fault(FaultKind::BadMeter)),
    }
}

fn unit_field(text: &[u8]) -> Result<Field, FieldError>
    ensures value { IfOk result (λ field. unit_field (unit_of text.now) ≡ Ok field) }
    ensures good { IfOk result (λ field. IsGoodField field) }
    ensures fault { IfErr result (λ e. IsErrorOfField (unit_field (unit_of text.now)) e) }
{
    match read_unit(text) {
        Some(unit) => Ok(Field::Unit(unit)),
        None => Err(FieldError::Fault(FaultKind::BadUnit)),
    }
}

fn voice_field(alloc: Global, text: &[u8]) -> Result<Field, FieldError>
    ensures value { IfOk result (λ field. voice_field (voice_of text.now) ≡ Ok field) }
    ensures good { IfOk result (λ field. IsGoodField field) }
    ensures fault { IfErr result (λ e. IsErrorOfField (voice_field (voice_of text.now)) e) }
{
    match read_voice(alloc, text)? {
        Some(voice) => Ok(Field::Voice(voice)),
        None => Err(FieldError::Fault(FaultKind::BadVoice)),
    }
}

/// Returns a field that is kept as written, or one that has no meaning here.
fn written_field(alloc: Global, letter: u8, text: &[u8]) -> Result<Field, FieldError>
    ensures value { IfOk result (λ field. field ≡ written_field letter text.now) }
    ensures good { IfOk result (λ field. IsGoodField field) }
    ensures fault { IfErr result (λ e. e ≡ refusals.Memory) }
{
    match letter {
        b'w' => Ok(Field::Words(Text::from_slice(alloc, text)?)),
        b'T' => Ok(Field::Title(Text::from_slice(alloc, text)?)),
        b'C' => Ok(Field::Composer(Text::from_slice(alloc, text)?)),
        b'Q' => Ok(Field::Tempo(Text::from_slice(alloc, text)?)),
        _ => Ok(Field::Other),
    }
}

/// Reads a directive, which may set line breaks or how far accidentals reach.
fn read_directive(text: &[u8]) -> Field
    ensures value { result ≡ directive_field (name_of text.now) (rest_of text.now) }
    ensures good { IsGoodField result }
{
    let (name, rest) = cut_name(text);
    directive_field(name, rest)
}

#[tactic(auto, unfolding(crate::specs::Fields::directive_field))]
fn directive_field(name: &[u8], rest: &[u8]) -> Field
    ensures value { result ≡ directive_field name.now rest.now }
    ensures good { IsGoodField result }
{
    if is_same(name, b"linebreak") {
        match read_breaks(rest) {
            Some(breaks) => Field::Breaks(breaks),
            None => Field::Other,
        }
    } else if is_same(name, b"propagate-accidentals") {
        match read_spread(rest) {
            Some(spread) => Field::Spread(spread),
            None => Field::Other,
        }
    } else {
        Field::Other
    }
}
