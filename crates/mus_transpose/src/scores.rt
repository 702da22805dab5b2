ghost use Rattle.std.specs.Prelude.{◌≡◌, length, pos, negsuc, All, IfOk, IfSome, MatchOption, true, map};
ghost use Rattle.std.specs.List.{list_all};
ghost use Rattle.mus_score.specs.{Good.IsGoodBody, GoodScore.IsGoodScore, GoodScore.events_of};
ghost use Rattle.mus_transpose.specs.Moved.{Within, CanMove, GivesIfMovable, IsMoved, are_in_reach, body_may};
ghost use Rattle.mus_transpose.specs.Moved.{measure_by, move_from, moved_score, on_circle, score_by, voice_by};
ghost use Rattle.mus_transpose.specs.Moved.{voice_may};

use crate::keys::{moved_key, on_circle, sharps_in};
use crate::moves::{Move, MoveError, Moved, move_for};
use crate::reach::are_in_reach;
use crate::trees::body_by;
use mus_score::{Measure, Score, Voice, events};
use mus_units::{Key, Memory, Row};
use std::alloc::Global;

fn measures_by(alloc: Global, by: Move, measures: &[Measure]) -> Moved<Row<Measure>>
    ensures { GivesIfMovable (list_all (λ x. body_may by x.body) measures.now) (map (measure_by by) measures.now)
        result }
{
    let mut out = Row::new(alloc);
    for measure in measures {
        out.push(Measure {
            body: body_by(alloc, by, measure.body.as_slice())?,
            bar: measure.bar,
        })?;
    }
    Ok(out)
}

fn voice_by(alloc: Global, by: Move, v: &Voice) -> Moved<Voice>
    ensures { GivesIfMovable (voice_may by v.now) (voice_by by v.now) result }
{
    Ok(Voice {
        id: v.id.copy(alloc)?,
        seat: v.seat,
        gap: v.gap,
        clef: v.clef,
        key: moved_key(alloc, by, &v.key)?,
        meter: v.meter,
        stem: v.stem,
        verses: v.verses,
        first: v.first,
        measures: measures_by(alloc, by, v.measures.as_slice())?,
    })
}

fn voices_by(alloc: Global, by: Move, voices: &[Voice]) -> Moved<Row<Voice>>
    ensures { GivesIfMovable (list_all (voice_may by) voices.now) (map (voice_by by) voices.now) result }
{
    let mut out = Row::new(alloc);
    for v in voices {
        out.push(voice_by(alloc, by, v)?)?;
    }
    Ok(out)
}

/// Returns a moved copy of a score.
fn score_by(alloc: Global, by: Move, s: &Score) -> Moved<Score>
    ensures { GivesIfMovable (list_all (voice_may by) s.now.voices) (score_by by s.now) result }
{
    Ok(Score {
        voices: voices_by(alloc, by, s.voices.as_slice())?,
        measures: s.measures,
        forced: s.forced.copy(alloc)?,
        spread: s.spread,
    })
}

fn all_in_reach(alloc: Global, voices: &[Voice]) -> Result<bool, Memory>
    requires { All (λ v. All (λ x. IsGoodBody x.body) v.measures) voices.now }
    ensures { IfOk result (λ r. r ≡ list_all (λ v. are_in_reach v.clef (events_of v.measures)) voices.now) }
{
    for v in voices {
        let events = events(alloc, v.measures.as_slice())?;
        if !are_in_reach(v.clef, events.as_slice()) {
            return Ok(false);
        }
    }
    Ok(true)
}

/// Returns the move by this number of semitones of a tune whose header names this key.
fn move_from(header: &Key, by: i8) -> Move
    requires { on_circle header.now ≡ true }
    ensures { result ≡ move_from header.now by }
{
    move_for(sharps_in(header.signs.as_slice()), by)
}

/// Returns a score moved by a move. `None` if it can't be moved.
fn moved_by(alloc: Global, s: &Score, header: &Key, by: i8) -> Result<Option<Score>, Memory>
    requires { IsGoodScore s.now }
    ensures { IfOk result (λ r.
        MatchOption r (CanMove s.now header.now by → ⊥)
        (λ t. CanMove s.now header.now by × (t ≡ moved_score s.now header.now by))) }
{
    if !on_circle(alloc, header)? {
        return Ok(None);
    }
    let m = move_from(header, by);
    let moved = match score_by(alloc, m, s) {
        Ok(moved) => moved,
        Err(MoveError::NoMove) => return Ok(None),
        Err(MoveError::Memory) => return Err(Memory),
    };
    if all_in_reach(alloc, moved.voices.as_slice())? {
        Ok(Some(moved))
    } else {
        Ok(None)
    }
}

/// Returns a score moved by `by` semitones; by 0 it is the score itself. The key of the tune's header, of k sharps,
/// moves to that of k' sharps, -5 to 6, for which k' - k - 7·by is a multiple of 12. Every key has j = k' - k sharps
/// more. Every head, including grace heads, is 4·j - 7·(7·j - by)/12 letters higher, and an accidental before a head
/// becomes the one with which the head is `by` semitones higher. `None` exactly when `by` isn't 0 and a key,
/// including the header's, isn't one of -7 to 7 sharps before and after the move, or an accidental would be beyond a
/// double one, or a head out of reach.
#[tactic(auto, using(crate::proofs::MovedGood::moved_good))]
pub fn moved_or_same(alloc: Global, s: Score, header: &Key, by: i8) -> Result<Option<Score>, Memory>
    requires { IsGoodScore s }
    ensures moved { IfOk result (IsMoved s header.now by) }
    ensures good { IfOk result (λ r. IfSome r IsGoodScore) }
    ensures voices { IfOk result (λ r. IfSome r (λ t. length t.voices ≡ length s.voices)) }
    ensures measures { IfOk result (λ r. IfSome r (λ t. t.measures ≡ s.measures)) }
{
    if by == 0 {
        return Ok(Some(s));
    }
    moved_by(alloc, &s, header, by)
}
