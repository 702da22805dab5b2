ghost use Rattle.mus_score.specs.Limits.{head_limit};
ghost use Rattle.std.specs.Prelude.{◌≡◌, ◌≤ℤ◌, ◌<◌, ◌≤◌, ◌+◌, List, length, Some, None, if◌then◌else◌, false};
ghost use Rattle.std.specs.Prelude.{IfOk};
ghost use Rattle.std.specs.List.{list_any};
ghost use Rattle.mus_stems.specs.Distances.{sign_column_limit};
ghost use Rattle.mus_stems.specs.Heads.{IsNearStaff, AllNear, Taken, taken_one, taken_at, taken};
ghost use Rattle.mus_stems.specs.Signs.{is_left, first_sign, sign_dx, signs_along, signs_from};

use crate::distances::{
    BETWEEN_COLUMNS, LEFT_OF_STEM, LEVEL_COUNT, OUTER_SIGN_COLUMN, SIGN_COLUMN,
};
use crate::heads::{HeadPosition, level};
use mus_score::HIGHEST_HEAD;
use mus_units::{Few, Memory, Row};
use std::alloc::Global;

/// Returns the dx of an accidental by its number.
#[tactic(auto, unfolding(crate::specs::Signs::sign_dx))]
fn sign_place(first: i32, k: u32) -> i32
    requires low { sign_column_limit ≤ℤ first }
    requires few { k ≤ 2250000 }
    ensures { result ≡ sign_dx first k }
{
    first - BETWEEN_COLUMNS * (k as i32)
}

/// Sets the dx of the accidental at a head, if there is one and the head is at a level. Returns the next number.
#[tactic(auto, unfolding(crate::specs::Heads::taken_one))]
fn sign_one(first: i32, v: i32, s: HeadPosition, i: usize, k: u32, signs: &mut [Option<i32>]) -> u32
    requires near { IsNearStaff s }
    requires low { sign_column_limit ≤ℤ first }
    requires few { k ≤ 2250000 }
    requires room { i < length signs.old }
    ensures bound { result ≤ k + 1 }
    ensures signs { (rest : List Taken)
        → signs_along first result rest signs.new ≡ signs_along first k (taken_one false v i s rest) signs.old }
{
    if level(false, s.height) != v {
        return k;
    }
    if s.signed {
        signs[i] = Some(sign_place(first, k));
        return k + 1;
    }
    k
}

/// Sets the dx of the accidentals at one level. Returns the next number.
fn sign_level(first: i32, v: i32, stands: &[HeadPosition], k: u32, signs: &mut [Option<i32>]) -> u32
    requires near { AllNear stands.now }
    requires room { length stands.now ≡ length signs.old }
    requires few { length stands.now ≤ head_limit }
    requires low { sign_column_limit ≤ℤ first }
    requires bound { k ≤ 2200000 }
    ensures bound { result ≤ k + length stands.now }
    ensures signs { (rest : List Taken)
        → signs_along first result rest signs.new ≡ signs_along first k (taken_at false v 0 stands.now rest) signs.old }
{
    let mut next = k;
    let mut i = 0;
    for s in stands {
        next = sign_one(first, v, *s, i, next, signs);
        i += 1;
    }
    next
}

/// Sets the dx of all accidentals, level by level.
#[tactic(auto, unfolding(crate::specs::Heads::taken))]
fn sign_all(first: i32, stands: &[HeadPosition], signs: &mut [Option<i32>])
    requires near { AllNear stands.now }
    requires room { length stands.now ≡ length signs.old }
    requires few { length stands.now ≤ head_limit }
    requires low { sign_column_limit ≤ℤ first }
    ensures { signs.new ≡ signs_along first 0 (taken false stands.now) signs.old }
{
    let mut k = 0;
    for n in 0..LEVEL_COUNT {
        k = sign_level(first, i32::from(n) - HIGHEST_HEAD, stands, k, signs);
    }
}

/// Returns whether an accidental is written before any of the heads.
fn any_signed(stands: &[HeadPosition]) -> bool
    ensures { result ≡ list_any (λ s. s.signed) stands.now }
{
    stands.iter().any(|stand| stand.signed)
}

/// Returns the dx of the accidental of a single head.
fn sign_alone(first: i32, stand: HeadPosition) -> Option<i32>
    ensures { result ≡ if stand.signed then Some first else None }
{
    if stand.signed { Some(first) } else { None }
}

/// Returns the dx of the accidental of each head, in the order of the text.
#[tactic(auto, unfolding(crate::specs::Signs::signs_from), using(crate::proofs::AloneLaws::none_signed))]
#[inline(always)]
pub fn signs_for(
    alloc: Global,
    first: i32,
    stands: &[HeadPosition],
) -> Result<Few<Option<i32>>, Memory>
    requires near { AllNear stands.now }
    requires few { length stands.now ≤ head_limit }
    requires low { sign_column_limit ≤ℤ first }
    ensures { IfOk result (λ r. r ≡ signs_from first stands.now) }
{
    if let [stand] = stands {
        return Ok(Few::one(sign_alone(first, *stand)));
    }
    let mut signs = vec![in alloc; None; stands.len()]?;
    if !any_signed(stands) {
        return Ok(Few::from(Row { items: signs }));
    }
    sign_all(first, stands, &mut signs);
    Ok(Few::from(Row { items: signs }))
}

/// Returns whether a displaced head is left of its stem.
#[tactic(auto, unfolding(crate::specs::Signs::is_left))]
fn stands_left(dx: i32) -> bool
    ensures { result ≡ is_left dx }
{
    dx == LEFT_OF_STEM
}

fn any_left(shifts: &[i32]) -> bool
    ensures { result ≡ list_any is_left shifts.now }
{
    shifts.iter().any(|dx| stands_left(*dx))
}

/// Returns the dx of the first accidental of an event, further left if a head is left of its stem.
#[tactic(auto, unfolding(crate::specs::Signs::first_sign))]
pub fn sign_dx(shifts: &[i32]) -> i32
    ensures value { result ≡ first_sign shifts.now }
    ensures low { sign_column_limit ≤ℤ result }
{
    if any_left(shifts) {
        OUTER_SIGN_COLUMN
    } else {
        SIGN_COLUMN
    }
}
