ghost use Rattle.mus_score.specs.Limits.{head_limit, measure_limit};
ghost use Rattle.std.specs.Prelude.{◌≡◌, ◌≤◌, ◌<◌, ◌*◌, ◌++◌, [], All, IfOk, OnOk, length, map, sum_by};
ghost use Rattle.std.specs.List.{range_with_len};
ghost use Rattle.mus_score.specs.Good.{IsGoodBody, longest_ticks};
ghost use Rattle.mus_score.specs.GoodScore.{IsGoodScore, IsGoodVoice};
ghost use Rattle.mus_score.specs.Times.{flats_of};
ghost use Rattle.mus_onsets.specs.Beats.{beat_onsets};
ghost use Rattle.mus_onsets.specs.Onsets.{event_onsets, greatest, measure_length, length_in_voice, measure_onsets};
ghost use Rattle.mus_onsets.specs.Onsets.{timeline_of, voice_onsets};

use crate::beats::{Beat, beats};
use mus_score::{Measure, Music, Score, Voice, body_duration};
use mus_units::{Memory, Row};
use std::alloc::Global;

/// The onset of an event, in ticks from the beginning of its measure. `voice` is the place of its voice, `event` the
/// event's id there.
#[derive(Clone, Copy, PartialEq, Eq)]
pub struct Onset {
    pub voice: u32,
    pub measure: u32,
    pub event: u32,
    pub tick: u64,
}

/// The onsets of a score in order of voice, then event, and the length of each measure in ticks.
#[derive(Drop)]
pub struct Timeline {
    pub onsets: Row<Onset>,
    pub lengths: Row<u64>,
}

/// Adds the onsets of the events of a measure.
fn put_beats(out: &mut Row<Onset>, voice: u32, measure: u32, beats: &[Beat]) -> Result<(), Memory>
    requires { sum_by (λ b. b.ticks) beats.now ≤ head_limit * longest_ticks }
    ensures { OnOk result (out.new ≡ out.old ++ beat_onsets voice measure 0 beats.now) }
{
    let mut tick = 0;
    for b in beats {
        out.push(Onset {
            voice,
            measure,
            event: b.event,
            tick,
        })?;
        tick += b.ticks;
    }
    Ok(())
}

#[tactic(auto, using(crate::proofs::BeatLaws::body_onsets))]
fn put_body(
    alloc: Global,
    out: &mut Row<Onset>,
    voice: u32,
    measure: u32,
    body: &[Music],
) -> Result<(), Memory>
    requires { IsGoodBody body.now }
    ensures { OnOk result (out.new ≡ out.old ++ event_onsets voice measure [] (flats_of body.now)) }
{
    let beats = beats(alloc, body)?;
    put_beats(out, voice, measure, beats.as_slice())
}

fn put_measures(
    alloc: Global,
    out: &mut Row<Onset>,
    voice: u32,
    measures: &[Measure],
) -> Result<(), Memory>
    requires good { All (λ m. IsGoodBody m.body) measures.now }
    requires few { length measures.now ≤ measure_limit }
    ensures { OnOk result (out.new ≡ out.old ++ measure_onsets voice 0 measures.now) }
{
    for (k, m) in measures.iter().enumerate() {
        put_body(alloc, out, voice, k as u32, m.body.as_slice())?;
    }
    Ok(())
}

fn put_voices(alloc: Global, out: &mut Row<Onset>, voices: &[Voice]) -> Result<(), Memory>
    requires good { All IsGoodVoice voices.now }
    requires few { length voices.now ≤ 16 }
    ensures { OnOk result (out.new ≡ out.old ++ voice_onsets 0 voices.now) }
{
    for (i, v) in voices.iter().enumerate() {
        put_measures(alloc, out, i as u32, v.measures.as_slice())?;
    }
    Ok(())
}

/// Returns the length of a measure in a voice.
fn voice_length(v: &Voice, k: usize) -> u64
    requires { IsGoodVoice v.now }
    ensures { result ≡ length_in_voice k v.now }
{
    match v.measures.as_slice().get(k) {
        Some(m) => body_duration(m.body.as_slice()),
        None => 0,
    }
}

fn measure_length(voices: &[Voice], k: usize) -> u64
    requires { All IsGoodVoice voices.now }
    ensures { result ≡ measure_length voices.now k }
{
    let mut longest = 0_u64;
    for v in voices {
        longest = longest.max(voice_length(v, k));
    }
    longest
}

#[tactic(auto, using(crate::proofs::Lengths::one_more))]
fn lengths(alloc: Global, voices: &[Voice], measures: u32) -> Result<Row<u64>, Memory>
    requires { All IsGoodVoice voices.now }
    ensures { IfOk result (λ r. r ≡ map (measure_length voices.now) (range_with_len 0 measures)) }
{
    let mut lengths = Row::new(alloc);
    for k in 0..measures {
        lengths.push(measure_length(voices, k as usize))?;
    }
    Ok(lengths)
}

/// Returns the onsets of a score's events, in order of voice, then event, and the length of each measure, which is
/// that of its longest voice.
pub fn onsets(alloc: Global, s: &Score) -> Result<Timeline, Memory>
    requires { IsGoodScore s.now }
    ensures { IfOk result (λ t. t ≡ timeline_of s.now) }
{
    let mut onsets = Row::new(alloc);
    put_voices(alloc, &mut onsets, s.voices.as_slice())?;
    let lengths = lengths(alloc, s.voices.as_slice(), s.measures)?;
    Ok(Timeline { onsets, lengths })
}
