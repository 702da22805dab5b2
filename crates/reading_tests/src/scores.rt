use crate::events::put_event;
use case_texts::{
    CaseError, Report, put_bar, put_clef, put_meter, put_signs, put_spread, put_wish,
};
use mus_score::{Measure, Music, Score, Voice, is_plain};

/// Adds a score: a line of its own, then for each voice a line of what it begins with, and a
/// line for each node and each bar of its measures.
pub(crate) fn put_score(out: &mut Report, score: &Score) -> Result<(), CaseError> {
    put_head(out, score)?;
    for voice in score.voices.as_slice() {
        put_voice(out, voice)?;
    }
    Ok(())
}

fn put_head(out: &mut Report, score: &Score) -> Result<(), CaseError> {
    out.line_number(b"measures ", score.measures)?;
    out.next(b"forced")?;
    out.tell_all(score.forced.as_slice())?;
    put_spread(out, score.spread)
}

fn put_opening(out: &mut Report, voice: &Voice) -> Result<(), CaseError> {
    out.line(b"voice ")?;
    out.append(voice.id.as_slice())?;
    put_clef(out, voice.clef)?;
    put_signs(out, b"key", voice.key.signs.as_slice())?;
    put_meter(out, voice.meter)?;
    put_wish(out, voice.stem)
}

fn put_voice(out: &mut Report, voice: &Voice) -> Result<(), CaseError> {
    put_opening(out, voice)?;
    out.next_number(b"verses ", voice.verses)?;
    out.next(b"first:")?;
    put_bar(out, voice.first)?;
    put_measures(out, voice.measures.as_slice())
}

fn put_measures(out: &mut Report, measures: &[Measure]) -> Result<(), CaseError> {
    for measure in measures {
        put_nodes(out, measure.body.as_slice())?;
        out.line(b"bar:")?;
        put_bar(out, measure.bar)?;
    }
    Ok(())
}

#[cycle(nodes)]
fn put_nodes(out: &mut Report, body: &[Music]) -> Result<(), CaseError> {
    for node in body {
        put_node(out, node)?;
    }
    Ok(())
}

#[cycle(nodes)]
fn put_node(out: &mut Report, node: &Music) -> Result<(), CaseError> {
    match node {
        Music::Note(event) => put_event(out, b"note ", event),
        Music::Rest(event) => put_event(out, b"rest ", event),
        Music::Grace { body, slash } => {
            out.line(if *slash { b"slashed graces" } else { b"graces" })?;
            put_nodes(out, body.as_slice())?;
            out.line(b"end")
        }
        Music::Tuplet { p, q, body } => {
            out.line(b"")?;
            out.show(format_args!("tuplet {p}:{q}"))?;
            put_nodes(out, body.as_slice())?;
            out.line(b"end")
        }
    }
}

/// Adds whether a score is plain.
pub(crate) fn put_plainness(out: &mut Report, score: &Score) -> Result<(), CaseError> {
    out.show(if is_plain(score) {
        "plain"
    } else {
        "not plain"
    })
}
