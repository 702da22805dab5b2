ghost use Rattle.mus_score.specs.Limits.{highest_head, lowest_head};
ghost use Rattle.std.specs.Prelude.{◌≡◌, ◌≤ℤ◌, pos, negsuc};
ghost use Rattle.mus_stems.specs.Heads.{AllNear};
ghost use Rattle.mus_stems.specs.Stills.{AllGood};
ghost use Rattle.mus_stems.specs.Ends.{low_of, high_of, lowest_in, highest_in, run_low, run_high, is_up, stands_up};
ghost use Rattle.mus_stems.specs.Ends.{upper_end, lower_end, outer_end, stem_own_end, further_end, beam_end, run_end};
ghost use Rattle.mus_stems.specs.Ends.{from_of, has_stem};

use crate::distances::{MIDDLE_LINE, STEM_LENGTH};
use crate::heads::{HeadPosition, highest_from, lowest_from};
use crate::stills::{StemInput, is_short_base};
use mus_units::Wish;
use mus_units::distances::STEP;

fn low_in(stands: &[HeadPosition]) -> i32
    ensures { result ≡ low_of stands.now }
{
    match stands {
        [] => 0,
        [s, more @ ..] => lowest_from(s.height, more),
    }
}

fn high_in(stands: &[HeadPosition]) -> i32
    ensures { result ≡ high_of stands.now }
{
    match stands {
        [] => 0,
        [s, more @ ..] => highest_from(s.height, more),
    }
}

/// Returns the least of a height and those of the heads of events.
fn lowest_along(first: i32, run: &[StemInput]) -> i32
    ensures { result ≡ lowest_in first run.now }
{
    let mut low = first;
    for e in run {
        low = lowest_from(low, e.stands.as_slice());
    }
    low
}

/// Returns the greatest of a height and those of the heads of events.
fn highest_along(first: i32, run: &[StemInput]) -> i32
    ensures { result ≡ highest_in first run.now }
{
    let mut high = first;
    for e in run {
        high = highest_from(high, e.stands.as_slice());
    }
    high
}

/// Returns the height of the lowest head of a run.
fn low_of_run(run: &[StemInput]) -> i32
    ensures { result ≡ run_low run.now }
{
    match run {
        [] => 0,
        [e, more @ ..] => lowest_along(low_in(e.stands.as_slice()), more),
    }
}

/// Returns the height of the highest head of a run.
fn high_of_run(run: &[StemInput]) -> i32
    ensures { result ≡ run_high run.now }
{
    match run {
        [] => 0,
        [e, more @ ..] => highest_along(high_in(e.stands.as_slice()), more),
    }
}

/// Returns the height of the lowest head; 0 without a head.
pub fn lowest_head(stands: &[HeadPosition]) -> i32
    requires { AllNear stands.now }
    ensures value { result ≡ low_of stands.now }
    ensures low { lowest_head ≤ℤ result }
    ensures high { result ≤ℤ highest_head }
{
    low_in(stands)
}

/// Returns the height of the highest head; 0 without a head.
pub fn highest_head(stands: &[HeadPosition]) -> i32
    requires { AllNear stands.now }
    ensures value { result ≡ high_of stands.now }
    ensures low { lowest_head ≤ℤ result }
    ensures high { result ≤ℤ highest_head }
{
    high_in(stands)
}

/// Returns whether stems go up, given the lowest and the highest height.
fn points_up(wish: Wish, low: i32, high: i32) -> bool
    requires low_low { lowest_head ≤ℤ low }
    requires low_high { low ≤ℤ highest_head }
    requires high_low { lowest_head ≤ℤ high }
    requires high_high { high ≤ℤ highest_head }
    ensures { result ≡ is_up wish low high }
{
    match wish {
        Wish::Up => true,
        Wish::Down => false,
        Wish::Auto => low + high < 8,
    }
}

/// Returns whether the stems of a run go up.
#[tactic(auto, unfolding(crate::specs::Ends::stands_up), using(crate::proofs::Ranges::run_low_near, //
crate::proofs::Ranges::run_high_near))]
pub fn run_points_up(wish: Wish, run: &[StemInput]) -> bool
    requires { AllGood run.now }
    ensures { result ≡ stands_up wish run.now }
{
    points_up(wish, low_of_run(run), high_of_run(run))
}

/// Returns the end of a stem that goes up.
#[tactic(auto, unfolding(crate::specs::Ends::upper_end))]
fn end_above(high: i32) -> i32
    requires low { lowest_head ≤ℤ high }
    requires high { high ≤ℤ highest_head }
    ensures { result ≡ upper_end high }
{
    (STEP * high + STEM_LENGTH).max(MIDDLE_LINE)
}

/// Returns the end of a stem that goes down.
#[tactic(auto, unfolding(crate::specs::Ends::lower_end))]
fn end_below(low: i32) -> i32
    requires low { lowest_head ≤ℤ low }
    requires high { low ≤ℤ highest_head }
    ensures { result ≡ lower_end low }
{
    (STEP * low - STEM_LENGTH).min(MIDDLE_LINE)
}

/// Returns the end of a stem that goes past its outermost head in its direction.
#[tactic(auto, unfolding(crate::specs::Ends::outer_end))]
fn end_past(up: bool, low: i32, high: i32) -> i32
    requires low_low { lowest_head ≤ℤ low }
    requires low_high { low ≤ℤ highest_head }
    requires high_low { lowest_head ≤ℤ high }
    requires high_high { high ≤ℤ highest_head }
    ensures { result ≡ outer_end up low high }
{
    if up { end_above(high) } else { end_below(low) }
}

/// Returns the dy at which the stem of an event ends by itself; 0 without a head.
pub fn own_end_of(up: bool, stands: &[HeadPosition]) -> i32
    requires { AllNear stands.now }
    ensures { result ≡ stem_own_end up stands.now }
{
    match stands {
        [] => 0,
        [_, ..] => end_past(up, lowest_head(stands), highest_head(stands)),
    }
}

/// Returns the further out of two ends.
#[tactic(auto, unfolding(crate::specs::Ends::further_end))]
pub fn further_of(up: bool, y: i32, z: i32) -> i32
    ensures { result ≡ further_end up y z }
{
    if up { y.max(z) } else { y.min(z) }
}

/// Returns the furthest of an end and the own ends of events.
fn furthest_along(up: bool, first: i32, run: &[StemInput]) -> i32
    requires { AllGood run.now }
    ensures { result ≡ beam_end up first run.now }
{
    let mut end = first;
    for e in run {
        end = further_of(up, end, own_end_of(up, e.stands.as_slice()));
    }
    end
}

/// Returns the dy at which the stems of a run end together.
pub fn end_of_run(up: bool, run: &[StemInput]) -> i32
    requires { AllGood run.now }
    ensures { result ≡ run_end up run.now }
{
    match run {
        [] => 0,
        [e, more @ ..] => furthest_along(up, own_end_of(up, e.stands.as_slice()), more),
    }
}

/// Returns the dy at which a stem begins.
#[tactic(auto, unfolding(crate::specs::Ends::from_of))]
pub fn stem_from(up: bool, stands: &[HeadPosition]) -> i32
    requires { AllNear stands.now }
    ensures { result ≡ from_of up stands.now }
{
    if up {
        STEP * lowest_head(stands)
    } else {
        STEP * highest_head(stands)
    }
}

/// Returns whether an event has a stem: a note of 1/2 or less.
#[tactic(auto, unfolding(crate::specs::Ends::has_stem))]
pub fn carries_stem(e: &StemInput) -> bool
    ensures { result ≡ has_stem e.now }
{
    0 < e.stands.as_slice().len() && is_short_base(e.base)
}
