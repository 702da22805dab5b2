ghost use Rattle.mus_score.specs.GoodScore.{IsGoodScore};

use crate::arcs::{put_arcs, put_piece};
use crate::scores::{put_plainness, put_score};
use crate::songs::{put_song, put_syllables};
use crate::times::{put_durations, put_flats, put_keys, put_onsets};
use crate::tunes::{Tune, crowded, tune_of};
use case_texts::{Case, CaseError, Mistake, Report, is_given, number_of, put_fault};
use mus_score::Score;
use mus_transpose::moved_or_same;

/// Adds the value of a call on tunes, words and arcs.
pub(crate) fn put_asked_for(
    out: &mut Report,
    case: Case<'_>,
    input: &[u8],
) -> Result<(), CaseError> {
    match case.call {
        "pieces" => put_piece(out, case.word, case.input),
        "syllables" => put_syllables(out, input),
        "align" => put_song(out, case.word, input),
        "crowd" => put_crowd(out, case.word, input),
        "moved" => put_moved(out, case.word, input),
        "build" | "is_plain" | "flatten" | "duration" | "onsets" | "keys_of" | "arcs" => {
            put_answer_on_tune(out, case, input)
        }
        _ => Err(CaseError::Wrong(Mistake::UnknownCall)),
    }
}

/// Adds the value of a call on the score of a tune, or the fault of the tune.
fn put_answer_on_tune(out: &mut Report, case: Case<'_>, input: &[u8]) -> Result<(), CaseError> {
    let flow = case.call == "build" && is_given(case.word, "flow")?;
    match tune_of(out.alloc, input, flow) {
        Ok(tune) => put_asked(out, case, &tune.score),
        Err(error) => put_fault(out, error),
    }
}

fn put_asked(out: &mut Report, case: Case<'_>, score: &Score) -> Result<(), CaseError>
    requires { IsGoodScore score.now }
{
    match case.call {
        "build" => put_score(out, score),
        "is_plain" => put_plainness(out, score),
        "flatten" => put_flats(out, score),
        "duration" => put_durations(out, score),
        "onsets" => put_onsets(out, score),
        "keys_of" => put_keys(out, case.word, score),
        _ => put_arcs(out, score),
    }
}

/// Adds whether a tune has a score if a number of chords replaces each `@`, or its fault.
fn put_crowd(out: &mut Report, word: &str, input: &[u8]) -> Result<(), CaseError> {
    let book = crowded(out.alloc, number_of::<u64>(word)?, input)?;
    put_score_or_fault(out, book.as_slice())
}

/// Adds whether a tune has a score, or its fault.
fn put_score_or_fault(out: &mut Report, book: &[u8]) -> Result<(), CaseError> {
    match tune_of(out.alloc, book, false) {
        Ok(_) => out.append(b"a score"),
        Err(error) => put_fault(out, error),
    }
}

/// Adds the score of a tune moved by a number of semitones, or that it can't be moved, or its fault.
fn put_moved(out: &mut Report, word: &str, input: &[u8]) -> Result<(), CaseError> {
    let by = number_of::<i8>(word)?;
    match tune_of(out.alloc, input, false) {
        Ok(tune) => put_moved_tune(out, tune, by),
        Err(error) => put_fault(out, error),
    }
}

fn put_moved_tune(out: &mut Report, tune: Tune, by: i8) -> Result<(), CaseError>
    requires { IsGoodScore tune.score }
{
    match moved_or_same(out.alloc, tune.score, &tune.key, by)? {
        Some(score) => put_score(out, &score),
        None => out.append(b"no move"),
    }
}
