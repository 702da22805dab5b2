use crate::books::line_of;
use abc_field::{Breaks, Field, FieldError, KeyText, VoiceDef, read_field, read_named};
use abc_lines::{FaultKind, TuneError};
use case_texts::{
    CaseError, Mistake, Report, put_clef, put_fault, put_frac, put_kind, put_meter, put_signs,
    put_spread, put_text, put_wish,
};
use std::alloc::Global;

/// Returns what a line says.
fn field_of(alloc: Global, bytes: &[u8]) -> Result<Field, TuneError> {
    read_field(alloc, &line_of(alloc, bytes)?)
}

/// Adds what a line says, or its fault.
pub(crate) fn put_field_of_line(out: &mut Report, bytes: &[u8]) -> Result<(), CaseError> {
    match field_of(out.alloc, bytes) {
        Ok(field) => put_field(out, &field),
        Err(error) => put_fault(out, error),
    }
}

/// Adds what a letter and a text within a music line say, or their fault.
pub(crate) fn put_named_field(out: &mut Report, word: &str, bytes: &[u8]) -> Result<(), CaseError> {
    let [letter] = word.as_bytes() else {
        return Err(CaseError::Wrong(Mistake::UnknownLetter));
    };
    match read_named(out.alloc, *letter, bytes) {
        Ok(field) => put_field(out, &field),
        Err(FieldError::Fault(kind)) => put_kind_of_fault(out, kind),
        Err(FieldError::Memory) => Err(CaseError::Memory),
    }
}

fn put_kind_of_fault(out: &mut Report, kind: FaultKind) -> Result<(), CaseError> {
    out.append(b"fault ")?;
    put_kind(out, kind)
}

fn put_field(out: &mut Report, field: &Field) -> Result<(), CaseError> {
    match field {
        Field::Key(text) => put_key_text(out, text),
        Field::Meter(meter) => put_meter(out, *meter),
        Field::Unit(unit) => put_frac(out, b"unit", *unit),
        Field::Voice(voice) => put_voice(out, voice),
        Field::Breaks(breaks) => put_breaks(out, *breaks),
        Field::Spread(spread) => put_spread(out, *spread),
        _ => put_written(out, field),
    }
}

/// Adds a field as written, or `other`.
fn put_written(out: &mut Report, field: &Field) -> Result<(), CaseError> {
    match field {
        Field::Words(text) => put_text(out, b"words", text.as_slice()),
        Field::Title(text) => put_text(out, b"title", text.as_slice()),
        Field::Composer(text) => put_text(out, b"composer", text.as_slice()),
        Field::Tempo(text) => put_text(out, b"tempo", text.as_slice()),
        _ => out.next(b"other"),
    }
}

/// Adds `key` and the signs of a whole key, or `adds` and the added signs; then the clef.
fn put_key_text(out: &mut Report, text: &KeyText) -> Result<(), CaseError> {
    match &text.key {
        Some(key) => put_signs(out, b"key", key.signs.as_slice())?,
        None => put_signs(out, b"adds", text.adds.as_slice())?,
    }
    match text.clef {
        Some(clef) => put_clef(out, clef),
        None => Ok(()),
    }
}

/// Adds `voice`, its id, its clef if it names one, and its stem direction.
pub(crate) fn put_voice(out: &mut Report, voice: &VoiceDef) -> Result<(), CaseError> {
    put_text(out, b"voice", voice.id.as_slice())?;
    if let Some(clef) = voice.clef {
        put_clef(out, clef)?;
    }
    put_wish(out, voice.stem)
}

/// Adds `breaks` and the names of the breaks that are on.
pub(crate) fn put_breaks(out: &mut Report, breaks: Breaks) -> Result<(), CaseError> {
    out.next(b"breaks")?;
    out.flag(breaks.eol, b"eol")?;
    out.flag(breaks.dollar, b"dollar")?;
    out.flag(breaks.bang, b"bang")
}
