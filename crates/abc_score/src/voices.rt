ghost use Rattle.std.specs.{Prelude.◌≡◌, Prelude.◌≤◌, Prelude.◌^◌, Prelude.length, Prelude.map, Prelude.IfOk};
ghost use Rattle.std.specs.{Prelude.OnOk, List.All};
ghost use Rattle.abc_fields.specs.Headers.{HasGoodValues};
ghost use Rattle.abc_items.specs.Good.{IsGoodItem};
ghost use Rattle.abc_score.specs.Order.{DoWordsRise};
ghost use Rattle.abc_score.specs.Voices.{first_force, voice_before, voices_read, IsGoodRead};

use crate::steps::move_steps;
use abc_fields::Header;
use abc_items::{VoiceStart, unnamed_of, voices_of};
use abc_steps::{BodyItem, InForce, PlacedStep};
use abc_words::{Verses, verses_of_voice};
use mus_units::{Memory, Row, Text};
use std::alloc::Global;

/// The greatest number of steps of a voice; a longer list takes over a hundred gigabytes.
const MOST_STEPS: usize = 1_073_741_824;

/// A voice as read: its id, first clef and stem direction, what is in force at its beginning, its verses, and its
/// steps.
#[derive(Drop)]
pub struct ReadVoice {
    pub start: VoiceStart,
    pub first: InForce,
    pub verses: Verses,
    pub steps: Row<PlacedStep>,
}

/// Returns what is in force at the beginning of a voice.
fn first_force(alloc: Global, header: &Header, start: &VoiceStart) -> Result<InForce, Memory>
    ensures { IfOk result (λ f. f ≡ first_force header.now start.now) }
{
    Ok(InForce {
        clef: start.clef,
        key: header.key.copy(alloc)?,
        meter: header.meter,
        unit: header.unit,
    })
}

/// Returns a voice without its steps.
fn voice_before(
    alloc: Global,
    header: &Header,
    items: &[BodyItem],
    start: VoiceStart,
) -> Result<ReadVoice, Memory>
    ensures { IfOk result (λ v. v ≡ voice_before header.now items.now start) }
{
    let first = first_force(alloc, header, &start)?;
    let verses = verses_of_voice(alloc, start.id.as_slice(), unnamed_of(header), items)?;
    let steps = Row::with_room(alloc, items.len().min(1024))?;
    Ok(ReadVoice {
        start,
        first,
        verses,
        steps,
    })
}

/// Returns the voices with these starts, without their steps.
fn voices_before(
    alloc: Global,
    header: &Header,
    items: &[BodyItem],
    starts: Row<VoiceStart>,
) -> Result<Vec<ReadVoice>, Memory>
    ensures { IfOk result (λ voices. voices.items ≡ map (voice_before header.now items.now) starts) }
{
    let mut voices = Vec::new(alloc);
    for start in starts.items {
        voices.push(voice_before(alloc, header, items, start)?)?;
    }
    Ok(voices)
}

/// Errors: `Memory` if a voice has too many steps for the walks along them.
fn check_lengths(voices: &[ReadVoice]) -> Result<(), Memory>
    ensures { OnOk result (All (λ (v : ReadVoice). length v.steps ≤ 2 ^ 30) voices.now) }
{
    if voices.iter().all(|voice| voice.steps.len() <= MOST_STEPS) {
        return Ok(());
    }
    Err(Memory)
}

/// Returns the voices of a body in order of first mention, each with its verses and its steps.
pub fn read_voices(
    alloc: Global,
    header: &Header,
    items: Row<BodyItem>,
) -> Result<Row<ReadVoice>, Memory>
    requires header { HasGoodValues header.now }
    requires items { All IsGoodItem items }
    requires rise { DoWordsRise items }
    ensures value { IfOk result (λ voices. voices ≡ voices_read header.now items) }
    ensures good { IfOk result (λ voices. All IsGoodRead voices) }
{
    let starts = voices_of(alloc, header, items.as_slice())?;
    let mut voices = voices_before(alloc, header, items.as_slice(), starts)?;
    let unnamed = Text::from_slice(alloc, unnamed_of(header))?;
    move_steps(&mut voices, unnamed, items)?;
    check_lengths(&voices)?;
    Ok(Row { items: voices })
}
