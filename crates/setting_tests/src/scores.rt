//! The score of the first tune of a book.

ghost use Rattle.std.specs.Prelude.{IfOk};
ghost use Rattle.abc_lines.specs.Good.{IsGoodTune};
ghost use Rattle.abc_fields.specs.Good.{IsGoodDefaults};
ghost use Rattle.mus_score.specs.GoodScore.{IsGoodScore};

use abc_fields::{Defaults, read_defaults, read_header};
use abc_lines::{TuneError, TuneText, cut_book};
use abc_score::build;
use mus_score::Score;
use std::alloc::Global;

fn tune_score(alloc: Global, tune: &TuneText, defaults: &Defaults) -> Result<Score, TuneError>
    requires tune { IsGoodTune tune.now }
    requires defaults { IsGoodDefaults defaults.now }
    ensures { IfOk result IsGoodScore }
{
    let header = read_header(alloc, tune, defaults)?;
    build(alloc, &header, tune, false)
}

/// Returns the score of the first tune of a book. A book that is too long or has no tune answers as if memory had run
/// out.
pub(crate) fn score_of(alloc: Global, bytes: &[u8]) -> Result<Score, TuneError>
    ensures { IfOk result IsGoodScore }
{
    if bytes.len() > 1_000_000 {
        return Err(TuneError::Memory);
    }
    let Ok(book) = cut_book(alloc, bytes) else {
        return Err(TuneError::Memory);
    };
    let defaults = read_defaults(alloc, &book)?;
    match book.tunes.as_slice() {
        [] => Err(TuneError::Memory),
        [tune, ..] => tune_score(alloc, tune, &defaults),
    }
}
