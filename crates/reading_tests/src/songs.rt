use case_texts::{CaseError, Report};
use mus_lyric::{NoteAt, Sung, Syl, align, syllables};
use mus_units::{Memory, Row};
use std::alloc::Global;

/// Adds a line for each syllable of a line of words.
pub(crate) fn put_syllables(out: &mut Report, words: &[u8]) -> Result<(), CaseError> {
    let syllables = syllables(out.alloc, words)?;
    for syllable in syllables.as_slice() {
        put_syllable(out, syllable)?;
    }
    Ok(())
}

fn put_syllable(out: &mut Report, syllable: &Syl) -> Result<(), CaseError> {
    match syllable {
        Syl::Print(text) => {
            out.line(b"<")?;
            out.append(text.as_slice())?;
            out.push(b'>')
        }
        Syl::Skip => out.line(b"skip"),
        Syl::Bar => out.line(b"bar"),
    }
}

/// Adds a line for each syllable that is sung on a note. The argument has a character for each
/// event: the digit of its measure, or `z` for a rest.
pub(crate) fn put_song(out: &mut Report, word: &str, words: &[u8]) -> Result<(), CaseError> {
    let notes = notes_of(out.alloc, word.as_bytes())?;
    let syllables = syllables(out.alloc, words)?;
    let sung = align(out.alloc, syllables.as_slice(), notes.as_slice())?;
    put_all_sung(out, sung.as_slice())
}

fn put_all_sung(out: &mut Report, sung: &[Sung]) -> Result<(), CaseError> {
    for one in sung {
        put_sung(out, one)?;
    }
    Ok(())
}

fn put_sung(out: &mut Report, sung: &Sung) -> Result<(), CaseError> {
    out.line_number(b"event ", sung.event)?;
    out.append(b" <")?;
    out.append(sung.text.as_slice())?;
    out.push(b'>')
}

fn notes_of(alloc: Global, measures: &[u8]) -> Result<Row<NoteAt>, Memory> {
    let mut notes = Row::new(alloc);
    let mut event: u32 = 0;
    for byte in measures {
        if let b'0'..=b'9' = *byte {
            let measure = u32::from(*byte - b'0');
            notes.push(NoteAt { event, measure })?;
        }
        event = event.saturating_add(1);
    }
    Ok(notes)
}
