ghost use Rattle.std.specs.Prelude.{◌≡◌, ◌+◌, ◌++◌, ◌∷◌, ℕ, List, IfOk, OnOk};
ghost use Rattle.abc_signs.specs.declared.written.TreeItem.{TreeItem};
ghost use Rattle.abc_score.specs.Score.{event_count, note_if, sung_notes_from, sung_words};

use abc_signs::{TreeItem, WrittenEvent};
use abc_words::{SungNote, Verses, words_of_events};
use mus_units::{Memory, Row, Text};
use std::alloc::Global;

/// The notes of a voice so far, and the number of written events.
#[derive(Drop)]
pub struct Notes {
    pub events: u32,
    pub notes: Row<SungNote>,
}

/// Adds the note of a written event, which has the number `event`, if it has heads.
fn put_note(notes: &mut Row<SungNote>, event: u32, w: &WrittenEvent) -> Result<(), Memory>
    ensures { OnOk result (notes.new ≡ notes.old ++ note_if w.now.heads event w.now) }
{
    if w.heads.as_slice().is_empty() {
        return Ok(());
    }
    let measure = u32::try_from(w.measure).ok().ok_or(Memory)?;
    notes.push(SungNote {
        event,
        line: w.line,
        measure,
    })
}

/// Adds a tree item.
fn put_sign(at: &mut Notes, sign: &TreeItem) -> Result<(), Memory>
    ensures notes { OnOk result
        ((signs : List TreeItem)
        → at.new.notes ++ sung_notes_from at.new.events signs
        ≡ at.old.notes ++ sung_notes_from at.old.events (sign.now ∷ signs)) }
    ensures events { OnOk result
        ((signs : List TreeItem) → at.new.events + event_count signs ≡ at.old.events + event_count (sign.now ∷ signs)) }
{
    match sign {
        TreeItem::Event { written, .. } => {
            put_note(&mut at.notes, at.events, written)?;
            at.events = at.events.checked_add(1).ok_or(Memory)?;
            Ok(())
        }
        TreeItem::Opens { .. } => Ok(()),
    }
}

/// Returns the notes of a voice with these tree items, and the number of its written events.
fn notes_of(alloc: Global, signs: &[TreeItem]) -> Result<Notes, Memory>
    ensures notes { IfOk result (λ at. at.notes ≡ sung_notes_from 0 signs.now) }
    ensures events { IfOk result (λ at. at.events ≡ event_count signs.now) }
{
    let mut at = Notes {
        events: 0,
        notes: Row::with_room(alloc, signs.len())?,
    };
    for sign in signs {
        put_sign(&mut at, sign)?;
    }
    Ok(at)
}

/// Returns the words of each written event of a voice with these verses and tree items.
#[tactic(auto, unfolding(crate::specs::Score::sung_words))]
pub fn sung_words(
    alloc: Global,
    verses: Verses,
    signs: &[TreeItem],
) -> Result<Row<Row<Option<Text>>>, Memory>
    ensures { IfOk result (λ words. words ≡ sung_words verses signs.now) }
{
    let at = notes_of(alloc, signs)?;
    let notes = at.notes.as_slice();
    let words = words_of_events(alloc, verses, notes, at.events as usize)?;
    Ok(words)
}
