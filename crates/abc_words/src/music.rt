ghost use Rattle.std.specs.Prelude.{◌≡◌, ◌≤◌, ◌<◌, ◌++◌, ◌∷◌, ℕ, [], length, map, slice_index_or, ◌==◌, if◌then◌else◌};
ghost use Rattle.std.specs.Prelude.{IfOk, OnOk};
ghost use Rattle.std.specs.List.{range_with_len};
ghost use Rattle.abc_words.specs.Words.{music_rows, no_music, sung_note_at, notes_on};
ghost use Rattle.abc_words.specs.Words.{row_of, texts_on, with_notes, row_with_texts};

use crate::verses::{Verse, Verses};
use mus_lyric::NoteAt;
use mus_units::{Memory, Row, Text};
use std::alloc::Global;

/// A note of a voice: the number of its written event among those of the voice, from 0; its physical line, from 1;
/// and its measure, from 0.
#[derive(Clone, Copy, PartialEq, Eq)]
pub struct SungNote {
    pub event: u32,
    pub line: u32,
    pub measure: u32,
}

/// The content of a row: the texts of its `w:` lines and its notes.
#[derive(Drop)]
pub struct MusicRow {
    pub texts: Row<Text>,
    pub notes: Row<NoteAt>,
}

/// Returns how many of some rows end before a line.
fn ends_before(ends: &[u32], line: u32) -> usize
    ensures { result ≡ row_of ends.now line }
{
    ends.iter().take_while(|end| **end < line).count()
}

/// Returns the row of a line, searched from a row that is not after it.
#[tactic(auto, using(crate::proofs::Lines::prefix_from, crate::proofs::Lines::row_of_within))]
fn row_from(ends: &[u32], from: usize, line: u32) -> usize
    requires { from ≤ row_of ends.now line }
    ensures { result ≡ row_of ends.now line }
{
    let (_, left) = ends.split_at(from);
    from + ends_before(left, line)
}

/// Returns the row of a line, searched from that of another line unless the line is before that one.
#[tactic(auto, using(crate::proofs::Lines::row_of_later))]
fn next_row(ends: &[u32], row: usize, last: u32, line: u32) -> usize
    requires { row ≡ row_of ends.now last }
    ensures { result ≡ row_of ends.now line }
{
    if line < last {
        return row_from(ends, 0, line);
    }
    row_from(ends, row, line)
}

/// Returns `n` rows without texts and notes.
fn empty_rows(alloc: Global, n: usize) -> Result<Vec<MusicRow>, Memory>
    ensures len { IfOk result (λ v. length v.items ≡ n) }
    ensures empty { IfOk result (λ v. (k : ℕ) → k < n → slice_index_or v.items k no_music ≡ no_music) }
{
    let mut rows = Vec::new(alloc);
    for k in 0..n {
        rows.push(MusicRow {
            texts: Row::new(alloc),
            notes: Row::new(alloc),
        })?;
    }
    Ok(rows)
}

/// Adds the text of a verse to its row.
fn put_text(rows: &mut [MusicRow], verse: Verse) -> Result<(), Memory>
    ensures { OnOk result
        ((k : ℕ) → k < length rows.old
        → slice_index_or rows.new k no_music
        ≡ row_with_texts (slice_index_or rows.old k no_music) (texts_on k (verse ∷ []))) }
{
    if verse.row >= rows.len() {
        return Ok(());
    }
    rows[verse.row].texts.push(verse.text)
}

/// Adds a note to a row.
fn put_note(rows: &mut [MusicRow], row: usize, note: NoteAt) -> Result<(), Memory>
    ensures { OnOk result
        ((k : ℕ) → k < length rows.old
        → slice_index_or rows.new k no_music
        ≡ with_notes (slice_index_or rows.old k no_music) (if row == k then note ∷ [] else [])) }
{
    if row >= rows.len() {
        return Ok(());
    }
    rows[row].notes.push(note)
}

/// Adds the texts of verses to their rows.
fn put_texts(rows: &mut Vec<MusicRow>, verses: Row<Verse>) -> Result<(), Memory>
    ensures len { OnOk result (length rows.new.items ≡ length rows.old.items) }
    ensures rows { OnOk result
        ((k : ℕ) → k < length rows.old.items
        → slice_index_or rows.new.items k no_music
        ≡ row_with_texts (slice_index_or rows.old.items k no_music) (texts_on k verses)) }
{
    for verse in verses.items {
        put_text(rows, verse)?;
    }
    Ok(())
}

/// Adds notes to the rows of their lines.
#[tactic(auto, using(crate::proofs::Lines::row_of_zero))]
fn put_notes(rows: &mut Vec<MusicRow>, ends: &[u32], notes: &[SungNote]) -> Result<(), Memory>
    ensures len { OnOk result (length rows.new.items ≡ length rows.old.items) }
    ensures rows { OnOk result
        ((k : ℕ) → k < length rows.old.items
        → slice_index_or rows.new.items k no_music
        ≡ with_notes (slice_index_or rows.old.items k no_music) (notes_on k ends.now notes.now)) }
{
    let mut row = 0;
    let mut last = 0;
    for note in notes {
        row = next_row(ends, row, last, note.line);
        last = note.line;
        put_note(rows, row, sung_note_at(note))?;
    }
    Ok(())
}

fn sung_note_at(note: &SungNote) -> NoteAt
    ensures { result ≡ sung_note_at note.now }
{
    NoteAt {
        event: note.event,
        measure: note.measure,
    }
}

/// Returns the content of each row of a voice with these verses and notes.
pub(crate) fn music_rows(
    alloc: Global,
    verses: Verses,
    notes: &[SungNote],
) -> Result<Vec<MusicRow>, Memory>
    ensures { IfOk result (λ v. v.items ≡ music_rows verses notes.now) }
{
    let mut rows = empty_rows(alloc, verses.rows())?;
    put_texts(&mut rows, verses.list)?;
    put_notes(&mut rows, verses.ends.as_slice(), notes)?;
    Ok(rows)
}
