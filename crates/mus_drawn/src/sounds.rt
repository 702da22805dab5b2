ghost use Rattle.mus_score.specs.Limits.{head_limit};
ghost use Rattle.std.specs.Prelude.{◌≡◌, ◌≤◌, ◌++◌, [], length, flat_map, All, IfOk, OnOk};
ghost use Rattle.std.specs.List.{find, list_any};
ghost use Rattle.mus_score.specs.Good.{IsGoodBody};
ghost use Rattle.mus_score.specs.GoodScore.{IsGoodScore, IsGoodVoice};
ghost use Rattle.mus_score.specs.Times.{flats_of};
ghost use Rattle.mus_arcs.specs.Arcs.{has_pitch};
ghost use Rattle.mus_drawn.specs.Drawn.{standing_after, staff_state_after, standing_of};
ghost use Rattle.mus_drawn.specs.Hearing.{is_heard_at, is_tied_to, partner_of, heard_alter, heard, heard_from, said_at};
ghost use Rattle.mus_drawn.specs.Hearing.{said_after, heard_at, heard_after, sounds_from, events_sounds};
ghost use Rattle.mus_drawn.specs.Hearing.{measures_sounds, voices_sounds};
ghost use Rattle.mus_drawn.specs.Sounds.{sounds_of};

use crate::standing::{StaffState, change, standing_of};
use mus_pitch::in_force;
use mus_score::{Event, Flat, Head, Key, Measure, Music, Score, Spread, Voice, flatten};
use mus_units::{Alter, Memory, Pitch, Row};
use std::alloc::Global;

/// How a head sounds: the `head`-th head, from 0, of the event with the id `event` in the `voice`-th voice, from 0,
/// with its pitch as written and its alteration.
#[derive(Clone, Copy, PartialEq, Eq)]
pub struct Sound {
    pub voice: u32,
    pub event: u32,
    pub head: u32,
    pub pitch: Pitch,
    pub alter: Alter,
}

/// A head and its alteration.
#[derive(Clone, Copy, PartialEq, Eq)]
pub struct AlteredHead {
    pub head: Head,
    pub alter: Alter,
}

/// What is carried along a voice while its heads are heard: what is in force, and the heads of the last event.
#[derive(Drop)]
pub struct HearingState {
    pub now: StaffState,
    pub before: Row<AlteredHead>,
}

/// Returns whether a head has this letter and octave.
fn has_pitch(pitch: Pitch, head: Head) -> bool
    ensures { result ≡ has_pitch pitch head }
{
    head.pitch.letter == pitch.letter && head.pitch.octave == pitch.octave
}

/// Returns whether a head of this letter and octave is among these.
fn is_heard(pitch: Pitch, heads: &[AlteredHead]) -> bool
    ensures { result ≡ list_any (is_heard_at pitch) heads.now }
{
    for x in heads {
        if has_pitch(pitch, x.head) {
            return true;
        }
    }
    false
}

/// Returns the first head of an event that is tied to the next event's head of this letter and octave.
fn tied_to(pitch: Pitch, heads: &[AlteredHead]) -> Option<AlteredHead>
    ensures { result ≡ find (is_tied_to pitch) heads.now }
{
    for x in heads {
        if x.head.tied && has_pitch(pitch, x.head) {
            return Some(*x);
        }
    }
    None
}

/// Returns the head of the previous event that is tied to a head; `so_far` are the heads before it in its event.
fn partner(before: &[AlteredHead], so_far: &[AlteredHead], pitch: Pitch) -> Option<AlteredHead>
    ensures { result ≡ partner_of before.now so_far.now pitch }
{
    if is_heard(pitch, so_far) {
        None
    } else {
        tied_to(pitch, before)
    }
}

fn alter_of(
    head: Head,
    partner: Option<AlteredHead>,
    said: &[Head],
    spread: Spread,
    key: &Key,
) -> Alter
    ensures { result ≡ heard_alter head.sign partner head.pitch said.now spread key.now.signs }
{
    match (head.sign, partner) {
        (Some(own), _) => own,
        (None, Some(x)) => x.alter,
        (None, None) => in_force(head.pitch, None, said, spread, key),
    }
}

/// Returns a head with its alteration, given the earlier heads of its event and all earlier heads of its measure.
fn hear(
    spread: Spread,
    key: &Key,
    before: &[AlteredHead],
    said: &[Head],
    so_far: &[AlteredHead],
    head: Head,
) -> AlteredHead
    ensures { result ≡ heard spread key.now.signs before.now said.now so_far.now head }
{
    let partner = partner(before, so_far, head.pitch);
    AlteredHead {
        head,
        alter: alter_of(head, partner, said, spread, key),
    }
}

/// Returns the heads of an event with their alterations, and adds the heads to those of the measure, `said`.
fn hear_heads(
    alloc: Global,
    spread: Spread,
    key: &Key,
    before: &[AlteredHead],
    said: &mut Row<Head>,
    heads: &[Head],
) -> Result<Row<AlteredHead>, Memory>
    ensures heard { IfOk result (λ r. r ≡ heard_from spread key.now.signs before.now said.old [] heads.now) }
    ensures count { IfOk result (λ r. length r ≡ length heads.now) }
    ensures said { OnOk result (said.new ≡ said.old ++ heads.now) }
{
    let mut out = Row::new(alloc);
    for head in heads {
        let x = hear(spread, key, before, said.as_slice(), out.as_slice(), *head);
        out.push(x)?;
        said.push(*head)?;
    }
    Ok(out)
}

fn say_heads(said: &mut Row<Head>, heads: &[Head]) -> Result<(), Memory>
    ensures { OnOk result (said.new ≡ said.old ++ heads.now) }
{
    for head in heads {
        said.push(*head)?;
    }
    Ok(())
}

fn say_graces(said: &mut Row<Head>, graces: &[Event]) -> Result<(), Memory>
    ensures { OnOk result (said.new ≡ said.old ++ flat_map (λ g. g.heads) graces.now) }
{
    for grace in graces {
        say_heads(said, grace.heads.as_slice())?;
    }
    Ok(())
}

/// Adds the sounds of the heads of an event.
fn put_sounds(
    out: &mut Row<Sound>,
    voice: u32,
    event: u32,
    heads: &[AlteredHead],
) -> Result<(), Memory>
    requires { length heads.now ≤ head_limit }
    ensures { OnOk result (out.new ≡ out.old ++ sounds_from voice event 0 heads.now) }
{
    for (k, x) in heads.iter().enumerate() {
        out.push(Sound {
            voice,
            event,
            head: k as u32,
            pitch: x.head.pitch,
            alter: x.alter,
        })?;
    }
    Ok(())
}

/// Updates what is in force with the changes of an event, and hears its heads.
fn hear_event(
    alloc: Global,
    spread: Spread,
    now: &mut StaffState,
    before: &[AlteredHead],
    said: &mut Row<Head>,
    flat: &Flat<'_>,
) -> Result<Row<AlteredHead>, Memory>
    ensures heard { IfOk result (λ r. r ≡ heard_at spread now.old said.old before.now flat.now) }
    ensures count { IfOk result (λ r. length r ≡ length flat.now.event.heads) }
    ensures said { OnOk result (said.new ≡ said_after said.old flat.now) }
    ensures now { OnOk result (now.new ≡ standing_after now.old flat.now.event.changes) }
{
    change(alloc, now, &flat.event().changes)?;
    say_graces(said, flat.graces.as_slice())?;
    hear_heads(
        alloc,
        spread,
        &now.key,
        before,
        said,
        flat.event().heads.as_slice(),
    )
}

/// Adds the sounds of the heads of a measure's events. `state` is what holds before the events, and on return after
/// them.
fn put_events(
    alloc: Global,
    out: &mut Row<Sound>,
    voice: u32,
    spread: Spread,
    state: &mut HearingState,
    flats: &[Flat<'_>],
) -> Result<(), Memory>
    requires { All (λ f. length f.event.heads ≤ head_limit) flats.now }
    ensures sounds { OnOk result
        (out.new ≡ out.old ++ events_sounds voice spread state.old.now [] state.old.before flats.now) }
    ensures now { OnOk result (state.new.now ≡ staff_state_after state.old.now flats.now) }
    ensures before { OnOk result
        (state.new.before ≡ heard_after spread state.old.now [] state.old.before flats.now) }
{
    let mut said = Row::new(alloc);
    for flat in flats {
        let before = state.before.as_slice();
        let heads = hear_event(alloc, spread, &mut state.now, before, &mut said, flat)?;
        put_sounds(out, voice, flat.event().id, heads.as_slice())?;
        state.before = heads;
    }
    Ok(())
}

fn put_body(
    alloc: Global,
    out: &mut Row<Sound>,
    voice: u32,
    spread: Spread,
    state: &mut HearingState,
    body: &[Music],
) -> Result<(), Memory>
    requires { IsGoodBody body.now }
    ensures sounds { OnOk result
        (out.new ≡ out.old ++ events_sounds voice spread state.old.now [] state.old.before (flats_of body.now)) }
    ensures now { OnOk result (state.new.now ≡ staff_state_after state.old.now (flats_of body.now)) }
    ensures before { OnOk result
        (state.new.before ≡ heard_after spread state.old.now [] state.old.before (flats_of body.now)) }
{
    let flats = flatten(alloc, body)?;
    put_events(alloc, out, voice, spread, state, flats.as_slice())
}

fn put_measures(
    alloc: Global,
    out: &mut Row<Sound>,
    voice: u32,
    spread: Spread,
    now: StaffState,
    measures: &[Measure],
) -> Result<(), Memory>
    requires { All (λ m. IsGoodBody m.body) measures.now }
    ensures { OnOk result (out.new ≡ out.old ++ measures_sounds voice spread now [] measures.now) }
{
    let before = Row::new(alloc);
    let mut state = HearingState { now, before };
    for m in measures {
        let body = m.body.as_slice();
        put_body(alloc, out, voice, spread, &mut state, body)?;
    }
    Ok(())
}

fn put_voices(
    alloc: Global,
    out: &mut Row<Sound>,
    spread: Spread,
    voices: &[Voice],
) -> Result<(), Memory>
    requires good { All IsGoodVoice voices.now }
    requires few { length voices.now ≤ 16 }
    ensures { OnOk result (out.new ≡ out.old ++ voices_sounds 0 spread voices.now) }
{
    for (i, v) in voices.iter().enumerate() {
        let now = standing_of(alloc, v)?;
        put_measures(alloc, out, i as u32, spread, now, v.measures.as_slice())?;
    }
    Ok(())
}

/// Returns how the heads of a score sound, in order of voice, event and head. The heads of graces are not listed, but
/// their accidentals count. A head has the alteration of its own accidental; else that of the head of the previous
/// event that is tied to it; else that of the last accidental before it in its measure and voice that reaches it;
/// else its key's. The only error is out of memory.
#[tactic(auto, using(crate::proofs::SoundLaws::looked_back))]
pub fn sounding(alloc: Global, s: &Score) -> Result<Row<Sound>, Memory>
    requires { IsGoodScore s.now }
    ensures { IfOk result (λ r. r ≡ sounds_of s.now) }
{
    let mut out = Row::new(alloc);
    put_voices(alloc, &mut out, s.spread, s.voices.as_slice())?;
    Ok(out)
}
