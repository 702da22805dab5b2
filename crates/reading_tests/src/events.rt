use case_texts::{
    CaseError, Report, put_clef, put_deco, put_head, put_meter, put_signs, put_text, put_value,
};
use mus_score::{Changes, Event, Look, Mention};
use mus_units::{Deco, Head, Text};

/// Adds a line of an event: its id, its heads or its look, its value and its ticks, and what else belongs to it.
pub(crate) fn put_event(out: &mut Report, kind: &[u8], event: &Event) -> Result<(), CaseError> {
    out.line_number(kind, event.id)?;
    out.next(look_name(event.look))?;
    put_heads(out, event.heads.as_slice())?;
    put_length(out, event)?;
    put_changes(out, &event.changes)?;
    put_marks(out, event)?;
    put_slurs(out, event)?;
    put_words(out, event.words.as_slice())
}

fn put_length(out: &mut Report, event: &Event) -> Result<(), CaseError> {
    out.next(b"")?;
    put_value(out, event.value)?;
    out.tell(event.ticks)?;
    out.flag(event.parted, b"parted")
}

fn put_slurs(out: &mut Report, event: &Event) -> Result<(), CaseError> {
    put_count(out, b"begins ", event.begins)?;
    put_count(out, b"ends ", event.ends)
}

fn look_name(look: Look) -> &'static [u8] {
    match look {
        Look::Seen => b"seen",
        Look::Unseen => b"unseen",
        Look::Whole => b"whole",
    }
}

fn put_heads(out: &mut Report, heads: &[Head]) -> Result<(), CaseError> {
    for head in heads {
        out.next(b"")?;
        put_head(out, *head)?;
    }
    Ok(())
}

fn put_count(out: &mut Report, name: &[u8], count: u32) -> Result<(), CaseError> {
    if count == 0 {
        return Ok(());
    }
    out.next_number(name, count)
}

fn put_changes(out: &mut Report, changes: &Changes) -> Result<(), CaseError> {
    if let Some(clef) = changes.clef {
        put_clef(out, clef)?;
    }
    if let Some(key) = &changes.key {
        put_signs(out, b"key", key.signs.as_slice())?;
    }
    match changes.meter {
        Some(meter) => put_meter(out, meter),
        None => Ok(()),
    }
}

/// Adds the decorations, the texts and the ending of an event.
fn put_marks(out: &mut Report, event: &Event) -> Result<(), CaseError> {
    put_decos(out, event.decos.as_slice())?;
    put_mentions(out, event.mentions.as_slice())?;
    match &event.ending {
        Some(ending) => put_text(out, b"ending", ending.as_slice()),
        None => Ok(()),
    }
}

fn put_decos(out: &mut Report, decos: &[Deco]) -> Result<(), CaseError> {
    for deco in decos {
        out.next(b"deco ")?;
        put_deco(out, deco)?;
    }
    Ok(())
}

fn put_mentions(out: &mut Report, mentions: &[Mention]) -> Result<(), CaseError> {
    for mention in mentions {
        let place: &[u8] = if mention.below { b"below" } else { b"above" };
        put_text(out, place, mention.text.as_slice())?;
    }
    Ok(())
}

/// Adds the words of an event, each between angle brackets, and `-` for a verse without a word.
fn put_words(out: &mut Report, words: &[Option<Text>]) -> Result<(), CaseError> {
    for word in words {
        match word {
            Some(text) => {
                out.next(b"<")?;
                out.append(text.as_slice())?;
                out.push(b'>')?;
            }
            None => out.next(b"-")?,
        }
    }
    Ok(())
}
