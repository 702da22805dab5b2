//! Whether the voices of each staff are alike.

ghost use Rattle.std.specs.Prelude.{◌≡◌, All, Decides, IfOk, length};
ghost use Rattle.std.specs.List.{AllByRecursion};
ghost use Rattle.mus_score.specs.GoodScore.{IsGoodScore, IsGoodVoice};
ghost use Rattle.lay_shared.specs.Alike.{HaveSameChanges, DoShare, story_at, story_of};
ghost use Rattle.lay_shared.specs.Plans.{IsPlanFor};

use crate::changes::{TimedChange, VoiceChanges, story_of};
use crate::plan::{Plan, PlannedStaff};
use mus_score::{Changes, Score, Voice};
use mus_units::{Key, Memory, Sign};
use std::alloc::Global;

/// Returns whether no two voices of one staff differ in first clef, key or meter, or in the list of their changes
/// with measure and tick. Ticks are those of the whole score.
pub fn shared(alloc: Global, s: &Score, p: &Plan) -> Result<bool, Memory>
    requires good { IsGoodScore s.now }
    requires plan { IsPlanFor (length s.now.voices) p.now }
    ensures { IfOk result (λ alike. Decides alike (DoShare s.now p.now)) }
{
    are_shared(alloc, s.voices.as_slice(), p.staves.as_slice())
}

/// Returns whether no two voices of one of these staves differ.
fn are_shared(alloc: Global, voices: &[Voice], staves: &[PlannedStaff]) -> Result<bool, Memory>
    requires { All IsGoodVoice voices.now }
    ensures { IfOk result
        (λ are. Decides are (AllByRecursion (λ staff. HaveSameChanges voices.now staff.voices) staves.now)) }
{
    for staff in staves {
        if !are_alike(alloc, voices, staff.voices.as_slice())? {
            return Ok(false);
        }
    }
    Ok(true)
}

/// Returns whether no two voices at these indices differ.
fn are_alike(alloc: Global, voices: &[Voice], places: &[u32]) -> Result<bool, Memory>
    requires { All IsGoodVoice voices.now }
    ensures { IfOk result (λ are. Decides are (HaveSameChanges voices.now places.now)) }
{
    let Some((first, others)) = places.split_first() else {
        return Ok(true);
    };
    are_like(alloc, voices, *first, others)
}

/// Returns whether the voices at some indices are like the one at this index.
fn are_like(alloc: Global, voices: &[Voice], place: u32, others: &[u32]) -> Result<bool, Memory>
    requires { All IsGoodVoice voices.now }
    ensures { IfOk result
        (λ are. Decides are (AllByRecursion (λ w. story_at voices.now place ≡ story_at voices.now w) others.now)) }
{
    for other in others {
        if !is_like(alloc, voices, place, *other)? {
            return Ok(false);
        }
    }
    Ok(true)
}

fn is_like(alloc: Global, voices: &[Voice], place: u32, other: u32) -> Result<bool, Memory>
    requires { All IsGoodVoice voices.now }
    ensures { IfOk result (λ is. Decides is (story_at voices.now place ≡ story_at voices.now other)) }
{
    match (voices.get(place as usize), voices.get(other as usize)) {
        (Some(v), Some(w)) => have_one_story(alloc, v, w),
        (None, None) => Ok(true),
        _ => Ok(false),
    }
}

fn have_one_story(alloc: Global, v: &Voice, w: &Voice) -> Result<bool, Memory>
    requires one { IsGoodVoice v.now }
    requires other { IsGoodVoice w.now }
    ensures { IfOk result (λ have. Decides have (story_of v.now ≡ story_of w.now)) }
{
    let one = story_of(alloc, v)?;
    let other = story_of(alloc, w)?;
    Ok(same_story(&one, &other))
}

fn same_story(a: &VoiceChanges, b: &VoiceChanges) -> bool
    ensures { Decides result (a.now ≡ b.now) }
{
    a.clef == b.clef
        && same_key(&a.key, &b.key)
        && a.meter == b.meter
        && same_list(a.changes.as_slice(), b.changes.as_slice())
}

fn same_list(a: &[TimedChange], b: &[TimedChange]) -> bool
    ensures { Decides result (a.now ≡ b.now) }
{
    let mut left = a;
    let mut right = b;
    'changes: while let Some((one, ones)) = left.split_first() {
        let Some((other, others)) = right.split_first() else {
            return false;
        };
        if !same_change(one, other) {
            return false;
        }
        left = ones;
        right = others;
    }
    right.is_empty()
}

fn same_change(a: &TimedChange, b: &TimedChange) -> bool
    ensures { Decides result (a.now ≡ b.now) }
{
    a.measure == b.measure && a.tick == b.tick && same_changes(&a.changes, &b.changes)
}

fn same_changes(a: &Changes, b: &Changes) -> bool
    ensures { Decides result (a.now ≡ b.now) }
{
    a.clef == b.clef && same_keys(&a.key, &b.key) && a.meter == b.meter
}

fn same_keys(a: &Option<Key>, b: &Option<Key>) -> bool
    ensures { Decides result (a.now ≡ b.now) }
{
    match (a, b) {
        (Some(a), Some(b)) => same_key(a, b),
        (None, None) => true,
        _ => false,
    }
}

fn same_key(a: &Key, b: &Key) -> bool
    ensures { Decides result (a.now ≡ b.now) }
{
    same_signs(a.signs.as_slice(), b.signs.as_slice())
}

fn same_signs(a: &[Sign], b: &[Sign]) -> bool
    ensures { Decides result (a.now ≡ b.now) }
{
    a == b
}
