ghost use Rattle.std.specs.Prelude.{◌≡◌, ◌<◌, ◌≤◌, ◌+◌, ◌++◌, ◌^◌, [], ℕ, All, cond, fold, length, max};
ghost use Rattle.std.specs.Prelude.{slice_index, ◌==◌, map, None, IfOk, OnOk};
ghost use Rattle.std.specs.List.{range_with_len};
ghost use Rattle.abc_words.specs.Rows.{row_end};
ghost use Rattle.abc_words.specs.Verses.{AreOnRows, faults_from, first_verse_fault, number_on, rows_in, too_many};
ghost use Rattle.abc_words.specs.Verses.{verse_at, verse_count, verse_fault, verses_of_voice};

use crate::rows::{RowState, first_place, state_after};
use abc_lines::{Fault, FaultKind};
use abc_steps::BodyItem;
use mus_units::{Memory, Row, Text};
use std::alloc::Global;
use std::cmp::max;

/// The text of a `w:` line, its line, and the row on which it is sung.
#[derive(Drop)]
pub struct Verse {
    pub row: usize,
    pub line: u32,
    pub text: Text,
}

/// The verses of a voice in the order of the text, and the physical lines at which the rows of the body end.
#[derive(Drop)]
pub struct Verses {
    pub ends: Row<u32>,
    pub list: Row<Verse>,
}

impl Verses {
    /// Returns the number of rows, including the one at the end of the body.
    pub(crate) fn rows(&self) -> usize
        ensures { result ≡ rows_in self.now }
    {
        self.ends.as_slice().len() + 1
    }
}

/// Adds the line at which an item ends a row.
fn put_row_end(ends: &mut Row<u32>, item: &BodyItem) -> Result<(), Memory>
    ensures { OnOk result (ends.new ≡ ends.old ++ row_end item.now) }
{
    match item {
        BodyItem::LineEnd {
            joined: false,
            line,
            ..
        } => ends.push(*line),
        _ => Ok(()),
    }
}

/// Adds the verse of an item, if it is words of the voice and the voice has a row.
fn put_verse(
    alloc: Global,
    verses: &mut Row<Verse>,
    place: RowState,
    item: &BodyItem,
) -> Result<(), Memory>
    ensures { OnOk result (verses.new ≡ verses.old ++ verse_at place item.now) }
{
    match (item, place.last) {
        (BodyItem::Words { text, line }, Some(row)) if place.current => verses.push(Verse {
            row,
            line: *line,
            text: text.copy(alloc)?,
        }),
        _ => Ok(()),
    }
}

/// Returns the verses of a voice in the order of the text, and where the rows of the body end. `unnamed` is the voice
/// of the music before any voice field.
pub fn verses_of_voice(
    alloc: Global,
    id: &[u8],
    unnamed: &[u8],
    items: &[BodyItem],
) -> Result<Verses, Memory>
    ensures value { IfOk result (λ v. v ≡ verses_of_voice id.now unnamed.now items.now) }
    ensures within { IfOk result AreOnRows }
{
    let mut ends = Row::new(alloc);
    let mut list = Row::new(alloc);
    let mut place = first_place(id, unnamed);
    for item in items {
        put_row_end(&mut ends, item)?;
        put_verse(alloc, &mut list, place, item)?;
        place = state_after(id, place, item);
    }
    Ok(Verses { ends, list })
}

/// Counts a verse on its row.
fn count_one(counts: &mut Vec<usize>, row: usize)
    requires { (k : ℕ) → slice_index counts.old.items k + 1 < 2 ^ 64 }
    ensures len { length counts.new.items ≡ length counts.old.items }
    ensures counts { (k : ℕ) → k < length counts.old.items
        → slice_index counts.new.items k ≡ slice_index counts.old.items k + cond (row == k) 1 0 }
{
    if row < counts.len() {
        counts[row] += 1;
    }
}

/// Returns the number of verses on each row.
fn counts_of(alloc: Global, verses: &[Verse], rows: usize) -> Result<Vec<usize>, Memory>
    ensures { IfOk result (λ v. v.items ≡ map (λ row. number_on row verses.now) (range_with_len 0 rows)) }
{
    let mut counts = vec![in alloc; 0_usize; rows]?;
    for verse in verses {
        count_one(&mut counts, verse.row);
    }
    Ok(counts)
}

fn greatest(counts: &[usize]) -> usize
    ensures { result ≡ fold max 0 counts.now }
{
    let mut most = 0;
    for n in counts {
        most = max(most, *n);
    }
    most
}

/// Returns the number of verses of a voice: the greatest number of `w:` lines on one of its rows of music. There are at
/// most eight verses if `verse_fault` finds no fault.
pub fn verse_count(alloc: Global, verses: &Verses) -> Result<usize, Memory>
    ensures value { IfOk result (λ n. n ≡ verse_count verses.now) }
    ensures few { IfOk result (λ n. verse_fault verses.now ≡ None → n ≤ 8) }
{
    let counts = counts_of(alloc, verses.list.as_slice(), verses.rows())?;
    Ok(greatest(counts.as_slice()))
}

/// Returns the number of verses on a row so far.
fn number_at(counts: &[usize], row: usize) -> usize
    ensures { result ≡ slice_index counts.now row }
{
    counts.get(row).copied().unwrap_or(0)
}

fn too_many(line: u32) -> Fault
    ensures { result ≡ too_many line }
{
    Fault {
        kind: FaultKind::TooManyVerses,
        line,
        column: 1,
    }
}

/// Returns the fault of the first verse that has eight before it on its row.
fn first_fault(alloc: Global, verses: &[Verse], rows: usize) -> Result<Option<Fault>, Memory>
    requires { All (λ v. v.row < rows) verses.now }
    ensures { IfOk result (λ fault. fault ≡ first_verse_fault (faults_from [] verses.now)) }
{
    let mut counts = vec![in alloc; 0_usize; rows]?;
    for verse in verses {
        if number_at(&counts, verse.row) >= 8 {
            return Ok(Some(too_many(verse.line)));
        }
        count_one(&mut counts, verse.row);
    }
    Ok(None)
}

/// Returns the fault of a voice with more than eight `w:` lines on one row, at column 1 of the first line that is too
/// many.
pub fn verse_fault(alloc: Global, verses: &Verses) -> Result<Option<Fault>, Memory>
    requires { AreOnRows verses.now }
    ensures { IfOk result (λ fault. fault ≡ verse_fault verses.now) }
{
    first_fault(alloc, verses.list.as_slice(), verses.rows())
}
