ghost use Rattle.std.specs.Prelude.{IfOk};
ghost use Rattle.abc_lines.specs.Good.{IsGoodTune};
ghost use Rattle.abc_fields.specs.Good.{IsGoodDefaults};
ghost use Rattle.mus_score.specs.GoodScore.{IsGoodScore};

use abc_fields::{Defaults, Key, read_defaults, read_header};
use abc_lines::{TuneError, TuneText, cut_book};
use abc_score::build;
use case_texts::within_limit;
use mus_score::Score;
use mus_units::{Memory, Text};
use std::alloc::Global;

/// A tune that was read: the key of its header, and its score.
#[derive(Drop)]
pub(crate) struct Tune {
    pub(crate) key: Key,
    pub(crate) score: Score,
}

fn read_tune(
    alloc: Global,
    tune: &TuneText,
    defaults: &Defaults,
    flow: bool,
) -> Result<Tune, TuneError>
    requires tune { IsGoodTune tune.now }
    requires defaults { IsGoodDefaults defaults.now }
    ensures { IfOk result (λ read. IsGoodScore read.score) }
{
    let header = read_header(alloc, tune, defaults)?;
    let score = build(alloc, &header, tune, flow)?;
    Ok(Tune {
        key: header.key,
        score,
    })
}

/// Returns the first tune of a book; a book without a tune answers as if memory had run out.
pub(crate) fn tune_of(alloc: Global, bytes: &[u8], flow: bool) -> Result<Tune, TuneError>
    ensures { IfOk result (λ read. IsGoodScore read.score) }
{
    let Ok(book) = cut_book(alloc, within_limit(bytes)) else {
        return Err(TuneError::Memory);
    };
    let defaults = read_defaults(alloc, &book)?;
    match book.tunes.as_slice() {
        [] => Err(TuneError::Memory),
        [tune, ..] => read_tune(alloc, tune, &defaults, flow),
    }
}

/// A chord of ten heads and two parts.
const CHORD: &[u8] = b"[CDEFGABcde]5";

/// Returns the bytes with a number of chords in the place of each `@`.
pub(crate) fn crowded(alloc: Global, count: u64, bytes: &[u8]) -> Result<Text, Memory> {
    let mut out = Text::new(alloc);
    for byte in bytes {
        if *byte == b'@' {
            put_chords(&mut out, count)?;
        } else {
            out.push(*byte)?;
        }
    }
    Ok(out)
}

fn put_chords(out: &mut Text, count: u64) -> Result<(), Memory> {
    for _ in 0..count {
        out.append(CHORD)?;
    }
    Ok(())
}
