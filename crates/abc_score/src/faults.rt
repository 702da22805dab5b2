ghost use Rattle.std.specs.{Prelude.{◌≡◌, flat_map, IfOk}, List.All};
ghost use Rattle.abc_faults.specs.First.{IsFirstInOrder};
ghost use Rattle.abc_score.specs.Voices.{IsGoodRead};
ghost use Rattle.abc_score.specs.Faults.{faults_of_voices, voice_faults, voice_weights};
ghost use Rattle.abc_score.specs.Judged.{AreJudged, AreItemsOf, HasKept, reads_of};

use crate::keeping::{JudgedVoice, VoiceItems, judge_voice};
use crate::voices::ReadVoice;
use abc_faults::{Weight, crowding, earlier};
use abc_lines::Fault;
use abc_words::verse_fault;
use mus_units::{Memory, Row};
use std::alloc::Global;

/// Judged voices, and their first fault.
#[derive(Drop)]
pub struct JudgedVoices {
    pub fault: Option<Fault>,
    pub voices: Row<JudgedVoice>,
}

/// Returns the first fault of a voice by itself and of its verses, and its tree items. Adds enough of its weights.
fn voice_fault(
    alloc: Global,
    weights: &mut Row<Weight>,
    v: &ReadVoice,
) -> Result<(Option<Fault>, VoiceItems), Memory>
    requires { IsGoodRead v.now }
    ensures judged { IfOk result
        (λ r. AreJudged (voice_faults v.now) (voice_weights v.now) r.0 weights.old weights.new) }
    ensures kept { IfOk result (λ r. AreItemsOf v.now r.1) }
{
    let (own, kept) = judge_voice(alloc, weights, v)?;
    let verses = verse_fault(alloc, &v.verses)?;
    Ok((earlier(own, verses), kept))
}

/// Returns the first fault of voices by themselves and of their verses, with the voices. Adds enough of their
/// weights.
fn judge_voices(
    alloc: Global,
    weights: &mut Row<Weight>,
    voices: Row<ReadVoice>,
) -> Result<JudgedVoices, Memory>
    requires { All IsGoodRead voices }
    ensures judged { IfOk result (λ j.
        AreJudged (flat_map voice_faults voices) (flat_map voice_weights voices) j.fault weights.old weights.new) }
    ensures reads { IfOk result (λ j. reads_of j.voices ≡ voices) }
    ensures kept { IfOk result (λ j. All HasKept j.voices) }
{
    let mut fault = None;
    let mut judged = Row::new(alloc);
    for read in voices.items {
        let (own, kept) = voice_fault(alloc, weights, &read)?;
        fault = earlier(fault, own);
        judged.push(JudgedVoice { read, kept })?;
    }
    Ok(JudgedVoices {
        fault,
        voices: judged,
    })
}

/// Returns the first fault of a score, with the judged voices. It is a fault of its voices or of their verses, or at
/// the place where the number of heads and rests becomes too large.
pub fn fault_of_score(alloc: Global, voices: Row<ReadVoice>) -> Result<JudgedVoices, Memory>
    requires { All IsGoodRead voices }
    ensures fault { IfOk result (λ j. IsFirstInOrder (faults_of_voices voices) j.fault) }
    ensures reads { IfOk result (λ j. reads_of j.voices ≡ voices) }
    ensures kept { IfOk result (λ j. All HasKept j.voices) }
{
    let mut weights = Row::new(alloc);
    let own = judge_voices(alloc, &mut weights, voices)?;
    let crowd = crowding(alloc, weights)?;
    Ok(JudgedVoices {
        fault: earlier(own.fault, crowd),
        voices: own.voices,
    })
}
