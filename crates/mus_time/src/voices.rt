ghost use Rattle.std.specs.Prelude.{◌≡◌, ⊤, map, All, IfOk};
ghost use Rattle.mus_score.specs.GoodScore.{IsGoodScore, IsGoodVoice};
ghost use Rattle.mus_onsets.specs.Onsets.{timeline_of};
ghost use Rattle.mus_drawn.specs.Drawn.{drawn_voice};
ghost use Rattle.mus_drawn.specs.Good.{AreGoodMeasures};
ghost use Rattle.mus_time.specs.Voices.{measured_prop, score_prop};

use mus_drawn::{DrawnVoice, draw_voice};
use mus_onsets::Timeline;
use mus_score::{Score, Voice};
use mus_units::{Memory, Row};
use std::alloc::Global;

/// A good score as it is drawn: with its timeline and its drawn voices, as `onsets` and `draw_voices` return them.
#[derive(Clone, Copy)]
pub struct DrawnScore<'a> {
    pub score: &'a Score,
    pub times: &'a Timeline,
    pub voices: &'a [DrawnVoice<'a>],
    pub ghost good: { IsGoodScore score.now } by { score_prop score.now },
    pub ghost timed: { times.now ≡ timeline_of score.now },
    pub ghost drawn: { voices.now ≡ map drawn_voice score.now.voices },
    pub ghost measured: { All (λ v. AreGoodMeasures v.measures) voices.now } by { measured_prop voices.now },
}

fn draw_all(alloc: Global, voices: &[Voice]) -> Result<Row<DrawnVoice<'_>>, Memory>
    requires { All IsGoodVoice voices.now }
    ensures voices { IfOk result (λ r. r ≡ map drawn_voice voices.now) }
    ensures good { IfOk result (All (λ v. AreGoodMeasures v.measures)) }
{
    let mut drawn = Row::new(alloc);
    for v in voices {
        drawn.push(draw_voice(alloc, v)?)?;
    }
    Ok(drawn)
}

/// Returns the drawn voices of a score, in order; all systems of a tune share them. The only error is out of memory.
pub fn draw_voices(alloc: Global, s: &Score) -> Result<Row<DrawnVoice<'_>>, Memory>
    requires { IsGoodScore s.now }
    ensures voices { IfOk result (λ r. r ≡ map drawn_voice s.now.voices) }
    ensures good { IfOk result (All (λ v. AreGoodMeasures v.measures)) }
{
    draw_all(alloc, s.voices.as_slice())
}
