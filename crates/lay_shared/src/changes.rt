//! The changes of a voice, which voices of one staff must have in common.

ghost use Rattle.mus_score.specs.Limits.{head_limit, measure_limit};
ghost use Rattle.std.specs.Prelude.{◌≡◌, ◌≤◌, ◌*◌, ◌++◌, All, length, IfOk, OnOk};
ghost use Rattle.mus_score.specs.Good.{IsGoodBody, longest_ticks, total_ticks};
ghost use Rattle.mus_score.specs.GoodScore.{IsGoodVoice};
ghost use Rattle.lay_shared.specs.Alike.{changes_from, event_changes, has_change, story_of};

use mus_score::{Changes, Flat, Measure, Voice, copy_changes, flatten};
use mus_units::{Clef, Key, Memory, Meter, Row};
use std::alloc::Global;

/// The changes before an event of a voice: in which measure, and after how many ticks of it.
#[derive(Drop)]
pub struct TimedChange {
    pub measure: u32,
    pub tick: u64,
    pub changes: Changes,
}

/// The initial state of a voice, and its changes.
#[derive(Drop)]
pub struct VoiceChanges {
    pub clef: Clef,
    pub key: Key,
    pub meter: Meter,
    pub changes: Row<TimedChange>,
}

/// Returns the initial state and the changes of a voice.
pub(crate) fn story_of(alloc: Global, v: &Voice) -> Result<VoiceChanges, Memory>
    requires { IsGoodVoice v.now }
    ensures { IfOk result (λ story. story ≡ story_of v.now) }
{
    Ok(VoiceChanges {
        clef: v.clef,
        key: v.key.copy(alloc)?,
        meter: v.meter,
        changes: changes_of(alloc, v.measures.as_slice())?,
    })
}

fn changes_of(alloc: Global, measures: &[Measure]) -> Result<Row<TimedChange>, Memory>
    requires good { All (λ m. IsGoodBody m.body) measures.now }
    requires few { length measures.now ≤ measure_limit }
    ensures { IfOk result (λ changes. changes ≡ changes_from 0 measures.now) }
{
    let mut changes = Row::new(alloc);
    for (i, measure) in measures.iter().enumerate() {
        let flats = flatten(alloc, measure.body.as_slice())?;
        put_changes(alloc, &mut changes, i as u32, flats.as_slice())?;
    }
    Ok(changes)
}

/// Adds the changes of a measure's events.
fn put_changes(
    alloc: Global,
    changes: &mut Row<TimedChange>,
    measure: u32,
    flats: &[Flat<'_>],
) -> Result<(), Memory>
    requires { total_ticks flats.now ≤ head_limit * longest_ticks }
    ensures { OnOk result (changes.new ≡ changes.old ++ event_changes measure 0 flats.now) }
{
    let mut tick = 0;
    for f in flats {
        if has_change(&f.event().changes) {
            changes.push(TimedChange {
                measure,
                tick,
                changes: copy_changes(alloc, &f.event().changes)?,
            })?;
        }
        tick += f.duration;
    }
    Ok(())
}

fn has_change(changes: &Changes) -> bool
    ensures { result ≡ has_change changes.now }
{
    changes.clef.is_some() || changes.key.is_some() || changes.meter.is_some()
}
