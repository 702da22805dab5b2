ghost use Rattle.std.specs.Prelude.{◌≡◌, ◌<◌, ◌++◌, ◌∷◌, ℕ, [], All, None, length, map, flat_map, replicate};
ghost use Rattle.std.specs.Prelude.{slice_index_or, IfOk, OnOk};
ghost use Rattle.std.specs.List.{range_with_len};
ghost use Rattle.std.specs.Option.{option_copied, option_flatten, option_or};
ghost use Rattle.abc_words.specs.Verses.{verse_count};
ghost use Rattle.abc_words.specs.Words.{HasNoOtherWords, HaveOwnWords, event_words, sung_in, verse_sung};
ghost use Rattle.abc_words.specs.Words.{word_of, words_of_events};

use crate::music::{MusicRow, SungNote, music_rows};
use crate::verses::{Verses, verse_count};
use mus_lyric::{Sung, align, syllables};
use mus_units::{Memory, Row, Text};
use std::alloc::Global;

/// Adds what is sung in a verse on a row.
fn put_sung(alloc: Global, sung: &mut Row<Sung>, row: &MusicRow, verse: usize) -> Result<(), Memory>
    ensures { OnOk result (sung.new ≡ sung.old ++ sung_in verse row.now) }
{
    match row.texts.as_slice().get(verse) {
        Some(text) => {
            let syls = syllables(alloc, text.as_slice())?;
            sung.append(align(alloc, syls.as_slice(), row.notes.as_slice())?)
        }
        None => Ok(()),
    }
}

/// Returns what is sung in a verse.
fn verse_sung(alloc: Global, rows: &[MusicRow], verse: usize) -> Result<Row<Sung>, Memory>
    ensures { IfOk result (λ sung. sung ≡ verse_sung rows.now verse) }
{
    let mut sung = Row::new(alloc);
    for row in rows {
        put_sung(alloc, &mut sung, row, verse)?;
    }
    Ok(sung)
}

/// Returns `count` entries without words.
fn no_words(alloc: Global, count: usize) -> Result<Vec<Option<Text>>, Memory>
    ensures { IfOk result (λ v. v.items ≡ replicate count None) }
{
    let mut words = Vec::new(alloc);
    for place in 0..count {
        words.push(None)?;
    }
    Ok(words)
}

/// Sets the entry of an event to what is sung there, unless it has words already.
fn put_word(words: &mut [Option<Text>], one: Sung)
    ensures { (k : ℕ) → k < length words.old
        → slice_index_or words.new k None ≡ option_or (slice_index_or words.old k None) (word_of (one ∷ []) k) }
{
    let place = one.event as usize;
    if place < words.len() && words[place].is_none() {
        words[place] = Some(one.text);
    }
}

/// Returns the words of a verse, one entry per event.
fn verse_words(alloc: Global, sung: Row<Sung>, count: usize) -> Result<Row<Option<Text>>, Memory>
    ensures { IfOk result (λ words. words ≡ map (word_of sung) (range_with_len 0 count)) }
{
    let mut words = no_words(alloc, count)?;
    for one in sung.items {
        put_word(&mut words, one);
    }
    Ok(Row { items: words })
}

/// Returns the words of all verses, verse by verse.
fn all_words(
    alloc: Global,
    rows: &[MusicRow],
    verses: usize,
    count: usize,
) -> Result<Row<Row<Option<Text>>>, Memory>
    ensures { IfOk result (λ all.
        all
        ≡ map (λ verse. map (word_of (verse_sung rows.now verse)) (range_with_len 0 count)) (range_with_len 0 verses)) }
{
    let mut all = Row::new(alloc);
    for verse in 0..verses {
        all.push(verse_words(alloc, verse_sung(alloc, rows, verse)?, count)?)?;
    }
    Ok(all)
}

fn copy_word(alloc: Global, word: Option<&Option<Text>>) -> Result<Option<Text>, Memory>
    ensures { IfOk result (λ copy. copy ≡ option_flatten (option_copied word.entry)) }
{
    match word {
        Some(Some(text)) => Ok(Some(Text::from_slice(alloc, text.as_slice())?)),
        _ => Ok(None),
    }
}

/// Returns the words of an event, from those of all verses.
fn words_at(
    alloc: Global,
    all: &[Row<Option<Text>>],
    event: usize,
) -> Result<Row<Option<Text>>, Memory>
    ensures { IfOk result (λ words. words ≡ map (λ verse. slice_index_or verse event None) all.now) }
{
    let mut words = Row::new(alloc);
    for verse in all {
        words.push(copy_word(alloc, verse.as_slice().get(event))?)?;
    }
    Ok(words)
}

/// Returns the words of `count` written events of a voice with these verses: a list for each, with an entry for each
/// verse. `notes` are the notes of the voice in order; on each row of music they take the syllables of the `w:` lines
/// of that row.
pub fn words_of_events(
    alloc: Global,
    verses: Verses,
    notes: &[SungNote],
    count: usize,
) -> Result<Row<Row<Option<Text>>>, Memory>
    ensures value { IfOk result (λ words. words ≡ words_of_events verses notes.now count) }
    ensures len { IfOk result (λ words. length words ≡ count) }
    ensures own { IfOk result (HaveOwnWords verses notes.now count) }
    ensures others { IfOk result (HasNoOtherWords verses notes.now count) }
    ensures verses { IfOk result (λ words. All (λ row. length row ≡ verse_count verses) words) }
{
    let number = verse_count(alloc, &verses)?;
    let rows = music_rows(alloc, verses, notes)?;
    let all = all_words(alloc, rows.as_slice(), number, count)?;
    let mut words = Row::new(alloc);
    for event in 0..count {
        words.push(words_at(alloc, all.as_slice(), event)?)?;
    }
    Ok(words)
}
