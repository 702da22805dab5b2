//! How heads sound.

use case_texts::{CaseError, Report, alter_name, put_pitch};
use mus_marks::Sound;

/// Adds a line for each sound: its voice, event and head, its pitch and its alteration.
pub(crate) fn put_sounds(out: &mut Report, sounds: &[Sound]) -> Result<(), CaseError> {
    for sound in sounds {
        out.tell_all(&[sound.voice, sound.event, sound.head])?;
        out.next(b"")?;
        put_pitch(out, sound.pitch)?;
        out.next(alter_name(sound.alter))?;
        out.end_line()?;
    }
    Ok(())
}
