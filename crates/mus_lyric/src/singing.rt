ghost use Rattle.std.specs.Prelude.{◌≡◌, ◌++◌, ◌∷◌, [], ◌≤◌, ◌<◌, ◌+◌, ◌^◌, List, IfOk, OnOk, MatchOption};
ghost use Rattle.mus_lyric.specs.declared.singing.Sung.{Sung};
ghost use Rattle.mus_lyric.specs.Singing.{AreSungOn, first_measure, notes_from, with_sung, sung_from, sung_on};

use crate::syllable::Syl;
use mus_units::{Memory, Row, Text};
use std::alloc::Global;

/// A note of a line of music: its event and its measure.
#[derive(Clone, Copy, PartialEq, Eq)]
pub struct NoteAt {
    pub event: u32,
    pub measure: u32,
}

/// A syllable on the note of this event.
#[derive(Drop)]
pub struct Sung {
    pub event: u32,
    pub text: Text,
}

/// Aligns the syllables of a line of words with the notes of a line of music. Returns what is sung.
///
/// Each syllable and each skip takes the first note not yet taken whose measure is at least the count. The count is
/// the measure of the last note taken, or at first that of the first note, plus one for each bar sign since. A
/// syllable or skip that finds no note is dropped.
pub fn align(alloc: Global, syls: &[Syl], notes: &[NoteAt]) -> Result<Row<Sung>, Memory>
    ensures sung { IfOk result (λ sung. AreSungOn notes.now syls.now sung) }
    ensures one_list { IfOk result (λ sung. (other : List Sung) → AreSungOn notes.now syls.now other → other ≡ sung) }
    ensures value { IfOk result (λ sung. sung ≡ sung_on notes.now syls.now) }
{
    let mut sung = Row::new(alloc);
    let mut count = first_measure(notes);
    let mut left = notes;
    'syllables: for syl in syls {
        if let Syl::Bar = syl {
            count += 1;
            continue;
        }
        let Some((note, following)) = next_note(left, count) else {
            break;
        };
        put_syllable(alloc, syl, note, &mut sung)?;
        count = u64::from(note.measure);
        left = following;
    }
    Ok(sung)
}

/// Returns the measure of the first note.
fn first_measure(notes: &[NoteAt]) -> u64
    ensures value { result ≡ first_measure notes.now }
    ensures within { result < 2 ^ 32 }
{
    match notes {
        [] => 0,
        [note, ..] => u64::from(note.measure),
    }
}

/// Returns the first note whose measure is at least the count, and the notes after it.
fn next_note(notes: &[NoteAt], count: u64) -> Option<(NoteAt, &[NoteAt])>
    ensures { MatchOption result (notes_from count notes.now ≡ []) (λ x. notes_from count notes.now ≡ x.0 ∷ x.1.now) }
{
    let mut left = notes;
    'notes: while let [note, following @ ..] = left {
        if u64::from(note.measure) >= count {
            return Some((*note, following));
        }
        left = following;
    }
    None
}

/// Adds what a syllable or a skip puts on its note.
fn put_syllable(alloc: Global, syl: &Syl, note: NoteAt, sung: &mut Row<Sung>) -> Result<(), Memory>
    ensures { OnOk result (sung.new ≡ sung.old ++ with_sung syl.now note []) }
{
    if let Syl::Print(text) = syl {
        sung.push(Sung {
            event: note.event,
            text: Text::from_slice(alloc, text.as_slice())?,
        })?;
    }
    Ok(())
}
