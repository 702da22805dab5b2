ghost use Rattle.std.specs.Prelude.{◌≡◌, IfOk};

use crate::score::{Changes, Event, Mention};
use mus_units::{
    Memory, Row, copy_decos, copy_optional_key, copy_optional_text, copy_optional_texts,
};
use std::alloc::Global;

fn copy_mention(alloc: Global, m: &Mention) -> Result<Mention, Memory>
    ensures { IfOk result (λ n. n ≡ m.now) }
{
    Ok(Mention {
        below: m.below,
        text: m.text.copy(alloc)?,
    })
}

fn copy_mentions(alloc: Global, mentions: &[Mention]) -> Result<Row<Mention>, Memory>
    ensures { IfOk result (λ r. r ≡ mentions.now) }
{
    let mut copies = Row::new(alloc);
    for m in mentions {
        copies.push(copy_mention(alloc, m)?)?;
    }
    Ok(copies)
}

/// Returns a copy of changes.
pub fn copy_changes(alloc: Global, changes: &Changes) -> Result<Changes, Memory>
    ensures { IfOk result (λ c. c ≡ changes.now) }
{
    Ok(Changes {
        clef: changes.clef,
        key: copy_optional_key(alloc, &changes.key)?,
        meter: changes.meter,
    })
}

/// Returns a copy of an event.
pub fn copy_event(alloc: Global, e: &Event) -> Result<Event, Memory>
    ensures { IfOk result (λ f. f ≡ e.now) }
{
    Ok(Event {
        id: e.id,
        heads: e.heads.copy(alloc)?,
        look: e.look,
        value: e.value,
        ticks: e.ticks,
        parted: e.parted,
        changes: copy_changes(alloc, &e.changes)?,
        decos: copy_decos(alloc, e.decos.as_slice())?,
        mentions: copy_mentions(alloc, e.mentions.as_slice())?,
        ending: copy_optional_text(alloc, &e.ending)?,
        begins: e.begins,
        ends: e.ends,
        words: copy_optional_texts(alloc, e.words.as_slice())?,
    })
}
