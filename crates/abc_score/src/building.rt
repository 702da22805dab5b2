ghost use Rattle.std.specs.Prelude.{◌≡◌, ◌≤◌, None, Ok, length, drop, IfOk, IfErr};
ghost use Rattle.std.specs.List.{All};
ghost use Rattle.abc_lines.specs.Good.{IsGoodTune};
ghost use Rattle.abc_lines.specs.Results.{IsOnlyFault, IsOnlyResult};
ghost use Rattle.abc_fields.specs.Headers.{HasGoodValues, IsGoodHeader};
ghost use Rattle.abc_items.specs.Good.{IsGoodItem};
ghost use Rattle.abc_items.specs.Voices.{voice_ids};
ghost use Rattle.abc_faults.specs.First.{IsFirstInOrder};
ghost use Rattle.mus_score.specs.GoodScore.{IsGoodScore};
ghost use Rattle.abc_score.specs.Faults.{score_faults};
ghost use Rattle.abc_score.specs.Score.{score_of};
ghost use Rattle.abc_score.specs.Order.{DoWordsRise};
ghost use Rattle.abc_score.specs.Build.{IsErrorIn, IsFaultOf, IsScoreOf, IsScoreResult};

use crate::faults::fault_of_score;
use crate::scores::score_with;
use crate::voices::read_voices;
use abc_fields::Header;
use abc_items::read_body;
use abc_lines::{TuneError, TuneText};
use abc_steps::BodyItem;
use mus_score::Score;
use mus_units::Row;
use std::alloc::Global;

/// Returns the score of a body that has been read, or its first fault.
fn score_in(
    alloc: Global,
    header: &Header,
    items: Row<BodyItem>,
    flow: bool,
) -> Result<Score, TuneError>
    requires header { HasGoodValues header.now }
    requires items { All IsGoodItem items }
    requires rise { DoWordsRise items }
    requires few { length (voice_ids header.now items) ≤ 16 }
    ensures clear { IfOk result (λ score. IsFirstInOrder (score_faults header.now items) None) }
    ensures score { IfOk result (λ score. score ≡ score_of header.now items flow) }
    ensures fault { IfErr result (λ e. IsErrorIn header.now items e) }
    ensures good { IfOk result IsGoodScore }
{
    let voices = read_voices(alloc, header, items)?;
    let judged = fault_of_score(alloc, voices)?;
    match judged.fault {
        Some(fault) => Err(TuneError::Fault(fault)),
        None => Ok(score_with(alloc, header, flow, judged.voices)?),
    }
}

/// Returns the score of a tune under its header. If its body has a fault, returns the first one, or else the first
/// fault of its score. With `flow` no bar is forced.
pub fn build(
    alloc: Global,
    header: &Header,
    tune: &TuneText,
    flow: bool,
) -> Result<Score, TuneError>
    requires tune { IsGoodTune tune.now }
    requires header { IsGoodHeader tune.now header.now }
    ensures score { IfOk result (λ score. IsScoreOf header.now tune.now flow score) }
    ensures fault { IfErr result (λ e. IsFaultOf header.now tune.now e) }
    // There is no other score, and there is no other first fault.
    ensures only { IfOk result (λ score. IsOnlyResult (IsScoreResult header.now tune.now flow) (Ok score)) }
    ensures only_fault { IfErr result (λ e. IsOnlyFault (IsScoreResult header.now tune.now flow) e) }
    ensures good { IfOk result IsGoodScore }
{
    tune_score(alloc, header, tune, flow)
}

/// Returns the score of a tune, or why there is none.
fn tune_score(
    alloc: Global,
    header: &Header,
    tune: &TuneText,
    flow: bool,
) -> Result<Score, TuneError>
    requires tune { IsGoodTune tune.now }
    requires header { IsGoodHeader tune.now header.now }
    ensures score { IfOk result (λ score. IsScoreOf header.now tune.now flow score) }
    ensures fault { IfErr result (λ e. IsFaultOf header.now tune.now e) }
    ensures good { IfOk result IsGoodScore }
{
    let (_, lines) = tune.lines.as_slice().split_at(header.body as usize);
    match read_body(alloc, header, lines) {
        Ok(items) => score_in(alloc, header, items, flow),
        Err(e) => Err(e),
    }
}
