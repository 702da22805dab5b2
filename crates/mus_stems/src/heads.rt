ghost use Rattle.mus_score.specs.Limits.{highest_head, lowest_head};
ghost use Rattle.std.specs.Prelude.{◌≡◌, ◌≤ℤ◌, ◌<◌, ◌++◌, List, Option, length, map, IfOk};
ghost use Rattle.mus_stems.specs.Distances.{lowest_level};
ghost use Rattle.mus_stems.specs.Heads.{stand_of, IsNearStaff, AllNear, lowest, highest, level_of, Taken, taken_one};
ghost use Rattle.mus_stems.specs.Heads.{taken_at, taken, is_step_past, gives_way, shifted, head_shift, shifts_of};

use crate::distances::{LEFT_OF_STEM, LEVEL_COUNT, RIGHT_OF_STEM};
use mus_score::HIGHEST_HEAD;
use mus_units::{Clef, Few, Head, Memory, Row, height};
use std::alloc::Global;

/// The height of a head, and whether an accidental is written before it.
#[derive(Clone, Copy, PartialEq, Eq)]
pub struct HeadPosition {
    pub height: i32,
    pub signed: bool,
}

/// The head taken last: its level, and whether it is displaced.
#[derive(Clone, Copy, PartialEq, Eq)]
pub struct LastHead {
    pub level: i32,
    pub moved: bool,
}

/// Returns the position of a head in a clef.
#[tactic(auto, unfolding(crate::specs::Heads::stand_of))]
pub fn stand_at(clef: Clef, head: Head) -> HeadPosition
    requires { IsNearStaff (stand_of clef head) }
    ensures { result ≡ stand_of clef head }
{
    HeadPosition {
        height: height(head.pitch, clef) as i32,
        signed: head.sign.is_some(),
    }
}

/// Returns the positions of heads in a clef, in the order of the text.
#[inline(always)]
pub fn stands(alloc: Global, clef: Clef, heads: &[Head]) -> Result<Few<HeadPosition>, Memory>
    requires { AllNear (map (stand_of clef) heads.now) }
    ensures { IfOk result (λ s. s ≡ map (stand_of clef) heads.now) }
{
    if let [head] = heads {
        return Ok(Few::one(stand_at(clef, *head)));
    }
    let mut out = Row::with_room(alloc, heads.len())?;
    for head in heads {
        out.push(stand_at(clef, *head))?;
    }
    Ok(Few::from(out))
}

/// Returns the least of a height and those of heads.
pub fn lowest_from(first: i32, stands: &[HeadPosition]) -> i32
    ensures { result ≡ lowest first stands.now }
{
    let mut low = first;
    for s in stands {
        low = low.min(s.height);
    }
    low
}

/// Returns the greatest of a height and those of heads.
pub fn highest_from(first: i32, stands: &[HeadPosition]) -> i32
    ensures { result ≡ highest first stands.now }
{
    let mut high = first;
    for s in stands {
        high = high.max(s.height);
    }
    high
}

/// Returns the level of a height: how far it is along the direction in which heads are taken.
#[tactic(auto, unfolding(crate::specs::Heads::level_of))]
pub fn level(up: bool, height: i32) -> i32
    requires low { lowest_head ≤ℤ height }
    requires high { height ≤ℤ highest_head }
    ensures { result ≡ level_of up height }
{
    if up { height } else { 0 - height }
}

/// Returns whether a level is at most one step past the one before.
#[tactic(auto, unfolding(crate::specs::Heads::is_step_past))]
fn is_step(before: i32, level: i32) -> bool
    requires low { lowest_level ≤ℤ level }
    requires high { level ≤ℤ highest_head }
    ensures { result ≡ is_step_past before level }
{
    level - 1 <= before
}

/// Returns whether a head is displaced by the one taken before it.
#[tactic(auto, unfolding(crate::specs::Heads::gives_way))]
fn is_moved(last: Option<LastHead>, level: i32) -> bool
    requires low { lowest_level ≤ℤ level }
    requires high { level ≤ℤ highest_head }
    ensures { result ≡ gives_way last level }
{
    match last {
        None => false,
        Some(b) => is_step(b.level, level) && !b.moved,
    }
}

/// Returns the dx of a displaced head.
#[tactic(auto, unfolding(crate::specs::Heads::head_shift))]
fn shift(up: bool) -> i32
    ensures { result ≡ head_shift up }
{
    if up { RIGHT_OF_STEM } else { LEFT_OF_STEM }
}

/// Displaces a head if it is at a level and has to be displaced.
#[tactic(auto, unfolding(crate::specs::Heads::taken_one))]
fn shift_one(
    up: bool,
    v: i32,
    s: HeadPosition,
    i: usize,
    last: Option<LastHead>,
    shifts: &mut [i32],
) -> Option<LastHead>
    requires near { IsNearStaff s }
    requires low { lowest_level ≤ℤ v }
    requires high { v ≤ℤ highest_head }
    requires room { i < length shifts.old }
    ensures moved { (rest : List Taken)
        → shifted (head_shift up) result rest shifts.new
        ≡ shifted (head_shift up) last (taken_one up v i s rest) shifts.old }
{
    if level(up, s.height) != v {
        return last;
    }
    if is_moved(last, v) {
        shifts[i] = shift(up);
        return Some(LastHead {
            level: v,
            moved: true,
        });
    }
    Some(LastHead {
        level: v,
        moved: false,
    })
}

/// Displaces the heads at one level that have to be.
fn shift_level(
    up: bool,
    v: i32,
    stands: &[HeadPosition],
    last: Option<LastHead>,
    shifts: &mut [i32],
) -> Option<LastHead>
    requires near { AllNear stands.now }
    requires low { lowest_level ≤ℤ v }
    requires high { v ≤ℤ highest_head }
    requires room { length stands.now ≡ length shifts.old }
    ensures moved { (rest : List Taken)
        → shifted (head_shift up) result rest shifts.new
        ≡ shifted (head_shift up) last (taken_at up v 0 stands.now rest) shifts.old }
{
    let mut before = last;
    let mut i = 0;
    for s in stands {
        before = shift_one(up, v, *s, i, before, shifts);
        i += 1;
    }
    before
}

/// Displaces the heads that have to be, level by level.
#[tactic(auto, unfolding(crate::specs::Heads::taken))]
fn shift_all(up: bool, stands: &[HeadPosition], shifts: &mut [i32])
    requires near { AllNear stands.now }
    requires room { length stands.now ≡ length shifts.old }
    ensures moved { shifts.new ≡ shifted (head_shift up) Option.None (taken up stands.now) shifts.old }
{
    let mut last = None;
    for n in 0..LEVEL_COUNT {
        last = shift_level(up, i32::from(n) - HIGHEST_HEAD, stands, last, shifts);
    }
}

/// Returns the dx of each head, in the order of the text. A single head is never displaced.
#[tactic(auto, unfolding(crate::specs::Heads::shifts_of), using(crate::proofs::AloneLaws::alone_stays))]
pub fn shifts_for(alloc: Global, up: bool, stands: &[HeadPosition]) -> Result<Few<i32>, Memory>
    requires near { AllNear stands.now }
    ensures { IfOk result (λ r. r ≡ shifts_of up stands.now) }
{
    match stands {
        [] => Ok(Few::from(Row::new(alloc))),
        [_] => Ok(Few::one(0)),
        _ => {
            let mut shifts = vec![in alloc; 0; stands.len()]?;
            shift_all(up, stands, &mut shifts);
            Ok(Few::from(Row { items: shifts }))
        }
    }
}
