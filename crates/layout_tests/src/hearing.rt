//! Documents after a prolog, heard.

use crate::documents::document_of;
use case_texts::{CaseError, Mistake, Report, number_of};
use mus_units::{Row, Spread};
use ps_read::{Heard, PagesError, hear, put_heads, put_heard, read_document};
use ps_text::Sheet;

/// Returns how far a sign reaches, by its word.
fn spread_of(word: &str) -> Result<Spread, CaseError> {
    match word {
        "not" => Ok(Spread::Not),
        "octave" => Ok(Spread::Octave),
        "pitch" => Ok(Spread::Pitch),
        _ => Err(CaseError::Wrong(Mistake::UnknownReach)),
    }
}

fn put_lists(out: &mut Report, lists: &Row<Row<Heard>>) -> Result<(), CaseError> {
    out.tell(format_args!("{}\n", lists.len()))?;
    for heads in lists {
        out.tell(format_args!("{}\n", heads.len()))?;
        put_heads(&mut out.text, heads.as_slice())?;
    }
    Ok(())
}

/// Adds what a sheet sounds as text, or, if a place is named, the lists of the tune there.
fn put_sounds(out: &mut Report, sheet: &Sheet, words: &str) -> Result<(), CaseError> {
    match words.split_once(' ') {
        None => Ok(put_heard(out.alloc, &mut out.text, sheet, spread_of(words)?)?),
        Some((word, place)) => {
            let tune = number_of::<u32>(place)?;
            put_lists(out, &hear(out.alloc, sheet, tune, spread_of(word)?)?)
        }
    }
}

/// Adds what the document of a text that follows a prolog sounds.
pub(crate) fn put_hearing(out: &mut Report, words: &str, text: &[u8]) -> Result<(), CaseError> {
    let document = document_of(out.alloc, true, text)?;
    put_heard_pages(out, document.as_slice(), words)
}

fn put_heard_pages(out: &mut Report, document: &[u8], words: &str) -> Result<(), CaseError> {
    match read_document(out.alloc, document) {
        Ok(sheet) => put_sounds(out, &sheet, words),
        Err(PagesError::NotPages { .. }) => out.next(b"no pages\n"),
        Err(PagesError::Memory) => Err(CaseError::Memory),
    }
}
