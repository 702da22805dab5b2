ghost use Rattle.{std.specs.Prelude.{All}, mus_score.specs.{Good.IsGoodBody, GoodScore.IsGoodScore}};

use case_texts::{CaseError, Mistake, Report, number_of, put_head, put_key};
use mus_onsets::{ColumnKey, Timeline, onsets};
use mus_score::{
    Event, Flat, Measure, Music, Score, body_duration, duration, events, is_good_body,
};
use mus_time::keys_of;

/// Adds a line for each event of a score, voice by voice: its id, its duration, the tuplets that
/// begin at it, and the graces before it.
pub(crate) fn put_flats(out: &mut Report, score: &Score) -> Result<(), CaseError>
    requires { IsGoodScore score.now }
{
    for voice in score.voices.as_slice() {
        let flats = events(out.alloc, voice.measures.as_slice())?;
        put_all_flats(out, flats.as_slice())?;
    }
    Ok(())
}

fn put_all_flats(out: &mut Report, flats: &[Flat<'_>]) -> Result<(), CaseError> {
    for flat in flats {
        put_flat(out, flat)?;
    }
    Ok(())
}

fn put_flat(out: &mut Report, flat: &Flat<'_>) -> Result<(), CaseError> {
    out.line_number(b"", flat.event().id)?;
    out.tell(flat.duration)?;
    put_tuplets(out, flat.tuplets.as_slice())?;
    put_graces(out, flat.graces.as_slice())?;
    out.flag(flat.slash, b"slash")
}

fn put_tuplets(out: &mut Report, tuplets: &[u8]) -> Result<(), CaseError> {
    for p in tuplets {
        out.next_number(b"tuplet ", *p)?;
    }
    Ok(())
}

fn put_graces(out: &mut Report, graces: &[Event]) -> Result<(), CaseError> {
    for grace in graces {
        out.next(b"grace")?;
        for head in grace.heads.as_slice() {
            out.next(b"")?;
            put_head(out, *head)?;
        }
    }
    Ok(())
}

/// Adds a line for each measure of each voice: the durations of its nodes, and their total.
pub(crate) fn put_durations(out: &mut Report, score: &Score) -> Result<(), CaseError>
    requires { IsGoodScore score.now }
{
    for voice in score.voices.as_slice() {
        put_measure_durations(out, voice.measures.as_slice())?;
    }
    Ok(())
}

fn put_measure_durations(out: &mut Report, measures: &[Measure]) -> Result<(), CaseError>
    requires { All (λ m. IsGoodBody m.body) measures.now }
{
    for measure in measures {
        out.line(b"nodes")?;
        put_node_durations(out, measure.body.as_slice())?;
        out.next_number(b"all ", body_duration(measure.body.as_slice()))?;
    }
    Ok(())
}

fn put_node_durations(out: &mut Report, body: &[Music]) -> Result<(), CaseError> {
    for node in body.chunks(1) {
        put_node_duration(out, node)?;
    }
    Ok(())
}

/// Adds the duration of a body of one node, if it is good.
fn put_node_duration(out: &mut Report, node: &[Music]) -> Result<(), CaseError> {
    match node {
        [only] if is_good_body(node) => { out.tell(duration(only)) }
        _ => out.next(b"none"),
    }
}

/// Adds a line for each event: its voice, its measure, its id and its tick; then the lengths of
/// the measures.
pub(crate) fn put_onsets(out: &mut Report, score: &Score) -> Result<(), CaseError>
    requires { IsGoodScore score.now }
{
    put_timeline(out, &onsets(out.alloc, score)?)
}

fn put_timeline(out: &mut Report, times: &Timeline) -> Result<(), CaseError> {
    put_ticks(out, times)?;
    out.line(b"lengths")?;
    out.tell_all(times.lengths.as_slice())
}

fn put_ticks(out: &mut Report, times: &Timeline) -> Result<(), CaseError> {
    for onset in times.onsets.as_slice() {
        out.line_number(b"voice ", onset.voice)?;
        out.next_number(b"measure ", onset.measure)?;
        out.next_number(b"event ", onset.event)?;
        out.next_number(b"tick ", onset.tick)?;
    }
    Ok(())
}

/// Adds the keys of the columns of the measures a to b - 1, which the argument names as `a b`.
pub(crate) fn put_keys(out: &mut Report, word: &str, score: &Score) -> Result<(), CaseError>
    requires { IsGoodScore score.now }
{
    let (a, b) = measures_named(word)?;
    if a >= b || b > score.measures {
        return out.line(b"no such measures");
    }
    let times = onsets(out.alloc, score)?;
    let keys = keys_of(out.alloc, score, &times, a, b)?;
    put_column_keys(out, keys.as_slice())
}

/// Returns the two numbers of a text such as `0 2`.
pub(crate) fn measures_named(word: &str) -> Result<(u32, u32), CaseError> {
    let (a, b) = word
        .split_once(" ")
        .ok_or(CaseError::Wrong(Mistake::MissingNumber))?;
    Ok((number_of::<u32>(a)?, number_of::<u32>(b)?))
}

fn put_column_keys(out: &mut Report, keys: &[ColumnKey]) -> Result<(), CaseError> {
    for key in keys {
        out.line(b"")?;
        put_key(out, *key)?;
    }
    Ok(())
}
