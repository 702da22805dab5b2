ghost use Rattle.{abc_lines.specs.Good.{IsGoodBook}, abc_fields.specs.Good.{IsGoodDefaults}};

use crate::books::book_of;
use crate::fields::{put_breaks, put_voice};
use abc_fields::{Defaults, Header, VoiceDef, read_defaults, read_header};
use abc_lines::{Book, Line, TuneText};
use case_texts::{
    CaseError, Report, put_clef, put_fault, put_frac, put_meter, put_signs, put_spread, put_text,
};
use mus_units::{Memory, Row, Text};
use std::alloc::Global;

/// Adds what a book's file header sets for every tune.
pub(crate) fn put_defaults_of_book(out: &mut Report, bytes: &[u8]) -> Result<(), CaseError> {
    put_defaults(out, &defaults_of(out.alloc, bytes)?)
}

fn defaults_of(alloc: Global, bytes: &[u8]) -> Result<Defaults, Memory> {
    read_defaults(alloc, &book_of(alloc, bytes)?)
}

fn put_defaults(out: &mut Report, defaults: &Defaults) -> Result<(), CaseError> {
    put_meter(out, defaults.meter)?;
    if let Some(unit) = defaults.unit {
        put_frac(out, b"unit", unit)?;
    }
    put_breaks(out, defaults.breaks)?;
    put_spread(out, defaults.spread)?;
    put_staves(out, &defaults.staves)
}

/// Adds the line that says how voices share staves: its number and its text.
fn put_staves(out: &mut Report, staves: &Option<Line>) -> Result<(), CaseError> {
    let Some(line) = staves else {
        return Ok(());
    };
    out.next_number(b"staves ", line.number)?;
    out.next(line.text.as_slice())
}

/// Adds the header of each tune of a book, or its fault.
pub(crate) fn put_headers_of_book(out: &mut Report, bytes: &[u8]) -> Result<(), CaseError> {
    put_headers(out, &book_of(out.alloc, bytes)?)
}

fn put_headers(out: &mut Report, book: &Book) -> Result<(), CaseError>
    requires { IsGoodBook book.now }
{
    let defaults = read_defaults(out.alloc, book)?;
    for tune in book.tunes.as_slice() {
        put_header_of_tune(out, tune, &defaults)?;
    }
    Ok(())
}

fn put_header_of_tune(
    out: &mut Report,
    tune: &TuneText,
    defaults: &Defaults,
) -> Result<(), CaseError>
    requires { IsGoodDefaults defaults.now }
{
    out.line_number(b"tune ", tune.ordinal)?;
    match read_header(out.alloc, tune, defaults) {
        Ok(header) => put_header(out, &header),
        Err(error) => put_fault(out, error),
    }
}

/// Adds what a header says: key, clef, meter, unit, voices, texts, breaks, how far signs reach,
/// its staves, and the index of the first line of the body.
fn put_header(out: &mut Report, header: &Header) -> Result<(), CaseError> {
    put_signs(out, b"key", header.key.signs.as_slice())?;
    put_clef(out, header.clef)?;
    put_meter(out, header.meter)?;
    put_frac(out, b"unit", header.unit)?;
    put_voices(out, header.voices.as_slice())?;
    put_head_texts(out, header)?;
    put_breaks(out, header.breaks)?;
    put_spread(out, header.spread)?;
    put_staves(out, &header.staves)?;
    out.next_number(b"body ", header.body)
}

fn put_voices(out: &mut Report, voices: &[VoiceDef]) -> Result<(), CaseError> {
    for voice in voices {
        put_voice(out, voice)?;
    }
    Ok(())
}

fn put_head_texts(out: &mut Report, header: &Header) -> Result<(), CaseError> {
    put_texts(out, b"title", &header.titles)?;
    put_texts(out, b"composer", &header.composers)?;
    match &header.tempo {
        Some(tempo) => put_text(out, b"tempo", tempo.as_slice()),
        None => Ok(()),
    }
}

fn put_texts(out: &mut Report, name: &[u8], texts: &Row<Text>) -> Result<(), CaseError> {
    for text in texts.as_slice() {
        put_text(out, name, text.as_slice())?;
    }
    Ok(())
}
