//! Steps move from the items of a body to their voices.

ghost use Rattle.std.specs.Prelude.{◌≡◌, ◌<◌, ◌++◌, ◌∷◌, ◌&&◌, length, map, position, IfSome, OnOk};
ghost use Rattle.std.specs.Str.{bytes_eq};
ghost use Rattle.abc_steps.specs.declared.step.Step.{Step};
ghost use Rattle.abc_steps.specs.declared.step.BodyItem.{BodyItem};
ghost use Rattle.abc_items.specs.Voices.{break_if, named_step, stood, voice_next};
ghost use Rattle.abc_score.specs.declared.voices.ReadVoice.{ReadVoice};
ghost use Rattle.abc_score.specs.Voices.{AreDistinctIds, read_ids};
ghost use Rattle.abc_score.specs.Steps.{with_item, with_items, with_steps};

use crate::voices::ReadVoice;
use abc_field::VoiceDef;
use abc_steps::{BodyItem, PlacedStep, Step};
use mus_units::bytes::is_same;
use mus_units::{Clef, Memory, Row, Text};

/// Returns the index of the voice with an id.
fn place_of(voices: &[ReadVoice], id: &[u8]) -> Option<usize>
    ensures value { result ≡ position (λ (v : ReadVoice). bytes_eq v.start.id id.now) voices.now }
    ensures within { IfSome result (λ k. k < length voices.now) }
{
    voices
        .iter()
        .position(|voice| is_same(voice.start.id.as_slice(), id))
}

/// Adds a step to the current voice, if the tune has it.
fn move_step(voices: &mut [ReadVoice], current: &[u8], step: PlacedStep) -> Result<(), Memory>
    requires { AreDistinctIds (read_ids voices.old) }
    ensures { OnOk result (voices.new ≡ map (with_item current.now (BodyItem.Step step)) voices.old) }
{
    match place_of(voices, current) {
        Some(k) => voices[k].steps.push(step),
        None => Ok(()),
    }
}

/// Adds the end of a music line, and the line break that it may be.
fn put_end(steps: &mut Row<PlacedStep>, breaks: bool, line: u32, column: u32) -> Result<(), Memory>
    ensures { OnOk result (steps.new ≡ steps.old ++ stood Step.LineEnd line column ∷ break_if breaks line column) }
{
    steps.push(PlacedStep {
        step: Step::LineEnd,
        line,
        column,
    })?;
    if breaks {
        return steps.push(PlacedStep {
            step: Step::Break,
            line,
            column,
        });
    }
    Ok(())
}

/// Adds the end of a music line to each voice, and the line break that it may be to the current one.
fn put_ends(
    voices: &mut [ReadVoice],
    current: &[u8],
    breaks: bool,
    line: u32,
    column: u32,
) -> Result<(), Memory>
    ensures { OnOk result
        (voices.new
        ≡ map (λ v.
        with_steps v
        (stood Step.LineEnd line column ∷ break_if (breaks && bytes_eq v.start.id current.now) line column))
        voices.old) }
{
    for voice in voices.iter_mut() {
        let own = is_same(voice.start.id.as_slice(), current);
        put_end(&mut voice.steps, breaks && own, line, column)?;
    }
    Ok(())
}

/// Adds the clef of a voice field to the steps of a voice, if the field names the voice.
fn put_named(
    steps: &mut Row<PlacedStep>,
    named: bool,
    clef: Option<Clef>,
    line: u32,
    column: u32,
) -> Result<(), Memory>
    ensures { OnOk result (steps.new ≡ steps.old ++ named_step named clef line column) }
{
    match clef {
        Some(clef) if named => steps.push(PlacedStep {
            step: Step::Clef(clef),
            line,
            column,
        }),
        _ => Ok(()),
    }
}

/// Adds the clef of a voice field to the voice that it names.
fn put_clef(voices: &mut [ReadVoice], def: &VoiceDef, line: u32, column: u32) -> Result<(), Memory>
    ensures { OnOk result
        (voices.new
        ≡ map (λ v. with_steps v (named_step (bytes_eq v.start.id def.now.id) def.now.clef line column)) voices.old) }
{
    for voice in voices.iter_mut() {
        let named = is_same(voice.start.id.as_slice(), def.id.as_slice());
        put_named(&mut voice.steps, named, def.clef, line, column)?;
    }
    Ok(())
}

/// Moves the steps of an item to their voices. `current` is the current voice.
fn move_item(voices: &mut [ReadVoice], current: &mut Text, item: BodyItem) -> Result<(), Memory>
    requires { AreDistinctIds (read_ids voices.old) }
    ensures voices { OnOk result (voices.new ≡ map (with_item current.old item) voices.old) }
    ensures current { OnOk result (current.new ≡ voice_next item current.old) }
{
    match item {
        BodyItem::Step(step) => move_step(voices, current.as_slice(), step),
        BodyItem::LineEnd {
            joined: _,
            breaks,
            line,
            column,
        } => put_ends(voices, current.as_slice(), breaks, line, column),
        BodyItem::Voice { def, line, column } => {
            put_clef(voices, &def, line, column)?;
            *current = def.id;
            Ok(())
        }
        BodyItem::Words { text: _, line: _ } => Ok(()),
    }
}

/// Moves the steps of items to their voices. A step belongs to the current voice: that of the last voice field before
/// it, or `unnamed` before any. The end of a line is a step of every voice.
pub(crate) fn move_steps(
    voices: &mut [ReadVoice],
    unnamed: Text,
    items: Row<BodyItem>,
) -> Result<(), Memory>
    requires { AreDistinctIds (read_ids voices.old) }
    ensures { OnOk result (voices.new ≡ map (with_items unnamed items) voices.old) }
{
    let mut current = unnamed;
    for item in items.items {
        move_item(voices, &mut current, item)?;
    }
    Ok(())
}
