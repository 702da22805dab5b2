//! Voices as they are drawn.

use case_texts::{CaseError, Report, put_clef, put_meter, put_signs};
use mus_drawn::{DrawnEvent, DrawnMeasure, DrawnVoice, SystemOpening};

fn put_opening(out: &mut Report, opening: &SystemOpening) -> Result<(), CaseError> {
    out.next(b"measure")?;
    put_clef(out, opening.clef)?;
    put_meter(out, opening.meter)?;
    out.flag(opening.anew, b"anew")?;
    put_signs(out, b"key", opening.key.signs.as_slice())?;
    out.end_line()
}

fn put_event(out: &mut Report, event: &DrawnEvent<'_>) -> Result<(), CaseError> {
    out.next_number(b"event ", event.flat.event().id)?;
    out.tell(event.tick)?;
    put_clef(out, event.clef)?;
    put_signs(out, b"old", event.old.as_slice())?;
    out.end_line()
}

fn put_measure(out: &mut Report, measure: &DrawnMeasure<'_>) -> Result<(), CaseError> {
    put_opening(out, &measure.opening)?;
    for event in measure.events.as_slice() {
        put_event(out, event)?;
    }
    Ok(())
}

/// Adds for each voice a line of its verses and its arcs, and for each measure a line of what opens a system there
/// and a line for each event: its id, its tick, its clef, and the key before it that it changes.
pub(crate) fn put_voices(out: &mut Report, voices: &[DrawnVoice<'_>]) -> Result<(), CaseError> {
    for voice in voices {
        out.tell(format_args!("voice {} {}\n", voice.verses, voice.arcs.len()))?;
        for measure in voice.measures.as_slice() {
            put_measure(out, measure)?;
        }
    }
    Ok(())
}
