ghost use Rattle.std.specs.Prelude.{◌≡◌, ◌≤◌, ◌^◌, ◌<◌, reverse, length, find, count_by, IfSome, Bool};
ghost use Rattle.std.specs.Option.{option_copied};
ghost use Rattle.std.specs.List.{position, before_first, list_any};
ghost use Rattle.abc_steps.specs.declared.step.PlacedStep.{PlacedStep};
ghost use Rattle.abc_steps.specs.Kinds.{is_note, is_event, is_bar, is_broken, is_tie, is_slur_on, is_slur_off};
ghost use Rattle.abc_steps.specs.Kinds.{is_event_or_bar, is_left_stop, is_tie_stop};
ghost use Rattle.abc_steps.specs.Looks.{since_event, since_note, to_event, to_note, nearest_event, is_sound_tied};
ghost use Rattle.abc_steps.specs.Looks.{slurs_begun, slurs_ended, has_parting, is_some_sound, broken_among};
ghost use Rattle.abc_steps.specs.Looks.{broken_before, broken_after, has_left, has_right};

use crate::kinds::{
    is_bar, is_broken, is_event, is_event_or_bar, is_left_stop, is_note, is_parting, is_slur_off,
    is_slur_on, is_sound, is_tie, is_tie_stop,
};
use crate::step::PlacedStep;

fn first_event(following: &[PlacedStep]) -> Option<usize>
    ensures within { IfSome result (λ n. n ≤ length following.now) }
    ensures value { result ≡ position (λ s. is_event s.step) following.now }
{
    following.iter().position(|s| is_event(&s.step))
}

fn last_event(before: &[PlacedStep]) -> Option<usize>
    ensures within { IfSome result (λ n. n ≤ length before.now) }
    ensures value { result ≡ position (λ s. is_event s.step) (reverse before.now) }
{
    before.iter().rev().position(|s| is_event(&s.step))
}

fn first_note(following: &[PlacedStep]) -> Option<usize>
    ensures within { IfSome result (λ n. n ≤ length following.now) }
    ensures value { result ≡ position (λ s. is_note s.step) following.now }
{
    following.iter().position(|s| is_note(&s.step))
}

fn last_note(before: &[PlacedStep]) -> Option<usize>
    ensures within { IfSome result (λ n. n ≤ length before.now) }
    ensures value { result ≡ position (λ s. is_note s.step) (reverse before.now) }
{
    before.iter().rev().position(|s| is_note(&s.step))
}

fn first_tie_stop(following: &[PlacedStep]) -> Option<usize>
    ensures within { IfSome result (λ n. n ≤ length following.now) }
    ensures value { result ≡ position (λ s. is_tie_stop s.step) following.now }
{
    following.iter().position(|s| is_tie_stop(&s.step))
}

/// Returns the steps before a place.
#[tactic(auto, using(crate::proofs::Positions::up_to_place))]
fn up_to(following: &[PlacedStep], place: Option<usize>) -> &[PlacedStep]
    requires { IfSome place (λ n. n ≤ length following.now) }
    ensures value { (test : PlacedStep → Bool)
        → place ≡ position test following.now → result.now ≡ before_first test following.now }
    ensures within { length result.now ≤ length following.now }
{
    following.split_at(place.unwrap_or(following.len())).0
}

/// Returns the steps after a place that is counted from the end.
#[tactic(auto, using(crate::proofs::Positions::back_to_place))]
fn back_to(before: &[PlacedStep], place: Option<usize>) -> &[PlacedStep]
    requires { IfSome place (λ n. n ≤ length before.now) }
    ensures value { (test : PlacedStep → Bool)
        → place ≡ position test (reverse before.now) → result.now ≡ reverse (before_first test (reverse before.now)) }
    ensures within { length result.now ≤ length before.now }
{
    let count = place.unwrap_or(before.len());
    before.split_at(before.len() - count).1
}

/// Returns the steps since the previous event, in the order of the text.
#[tactic(auto, unfolding(crate::specs::Looks::since_event))]
pub fn since_event(before: &[PlacedStep]) -> &[PlacedStep]
    ensures value { result.now ≡ since_event (reverse before.now) }
    ensures within { length result.now ≤ length before.now }
{
    back_to(before, last_event(before))
}

/// Returns the steps since the previous note, in the order of the text.
#[tactic(auto, unfolding(crate::specs::Looks::since_note))]
pub fn since_note(before: &[PlacedStep]) -> &[PlacedStep]
    ensures value { result.now ≡ since_note (reverse before.now) }
    ensures within { length result.now ≤ length before.now }
{
    back_to(before, last_note(before))
}

/// Returns the steps up to the next event.
#[tactic(auto, unfolding(crate::specs::Looks::to_event))]
pub fn to_event(following: &[PlacedStep]) -> &[PlacedStep]
    ensures value { result.now ≡ to_event following.now }
    ensures within { length result.now ≤ length following.now }
{
    up_to(following, first_event(following))
}

/// Returns the steps up to the next note.
#[tactic(auto, unfolding(crate::specs::Looks::to_note))]
pub fn to_note(following: &[PlacedStep]) -> &[PlacedStep]
    ensures value { result.now ≡ to_note following.now }
    ensures within { length result.now ≤ length following.now }
{
    up_to(following, first_note(following))
}

fn any_tie(steps: &[PlacedStep]) -> bool
    ensures { result ≡ list_any (λ s. is_tie s.step) steps.now }
{
    steps.iter().any(|s| is_tie(&s.step))
}

fn any_bar(steps: &[PlacedStep]) -> bool
    ensures { result ≡ list_any (λ s. is_bar s.step) steps.now }
{
    steps.iter().any(|s| is_bar(&s.step))
}

/// Returns whether a space or the end of a line is among some steps.
#[tactic(auto, unfolding(crate::specs::Looks::has_parting))]
pub fn has_parting(waits: &[PlacedStep]) -> bool
    ensures { result ≡ has_parting waits.now }
{
    waits.iter().any(|s| is_parting(&s.step))
}

/// Returns whether the note before the place is tied.
#[tactic(auto, unfolding(crate::specs::Looks::is_sound_tied))]
pub fn is_sound_tied(following: &[PlacedStep]) -> bool
    ensures { result ≡ is_sound_tied following.now }
{
    any_tie(up_to(following, first_tie_stop(following)))
}

fn count_slurs_on(steps: &[PlacedStep]) -> u32
    requires { length steps.now ≤ 2 ^ 30 }
    ensures { result ≡ count_by (λ s. is_slur_on s.step) steps.now }
{
    let mut count = 0;
    for s in steps {
        if is_slur_on(&s.step) {
            count += 1;
        }
    }
    count
}

fn count_slurs_off(steps: &[PlacedStep]) -> u32
    requires { length steps.now ≤ 2 ^ 30 }
    ensures { result ≡ count_by (λ s. is_slur_off s.step) steps.now }
{
    let mut count = 0;
    for s in steps {
        if is_slur_off(&s.step) {
            count += 1;
        }
    }
    count
}

/// Returns the number of slurs that begin at a note at the place.
#[tactic(auto, unfolding(crate::specs::Looks::slurs_begun))]
pub fn slurs_begun(before: &[PlacedStep]) -> u32
    requires { length before.now ≤ 2 ^ 30 }
    ensures { result ≡ slurs_begun (reverse before.now) }
{
    count_slurs_on(since_note(before))
}

/// Returns the number of slurs that end at the note before the place.
#[tactic(auto, unfolding(crate::specs::Looks::slurs_ended))]
pub fn slurs_ended(following: &[PlacedStep]) -> u32
    requires { length following.now ≤ 2 ^ 30 }
    ensures { result ≡ slurs_ended following.now }
{
    count_slurs_off(to_note(following))
}

#[tactic(auto, unfolding(crate::specs::Looks::nearest_event))]
fn event_before(before: &[PlacedStep]) -> Option<&PlacedStep>
    ensures { option_copied result ≡ nearest_event (reverse before.now) }
{
    before.iter().rev().find(|s| is_event(&s.step))
}

#[tactic(auto, unfolding(crate::specs::Looks::nearest_event))]
fn event_after(following: &[PlacedStep]) -> Option<&PlacedStep>
    ensures { option_copied result ≡ nearest_event following.now }
{
    following.iter().find(|s| is_event(&s.step))
}

fn first_broken(steps: &[PlacedStep]) -> Option<&PlacedStep>
    ensures { option_copied result ≡ find (λ s. is_broken s.step) steps.now }
{
    steps.iter().find(|s| is_broken(&s.step))
}

#[tactic(auto, unfolding(crate::specs::Looks::is_some_sound))]
fn is_some_sound(s: Option<&PlacedStep>) -> bool
    ensures { result ≡ is_some_sound (option_copied s.entry) }
{
    match s {
        Some(s) => is_sound(&s.step),
        None => false,
    }
}

#[tactic(auto, unfolding(crate::specs::Looks::broken_among))]
fn broken_among(between: &[PlacedStep]) -> Option<&PlacedStep>
    ensures { option_copied result ≡ broken_among between.now }
{
    if any_bar(between) {
        None
    } else {
        first_broken(between)
    }
}

/// Returns the broken rhythm between an event at the place and the event before it.
#[tactic(auto, unfolding(crate::specs::Looks::broken_before))]
pub fn broken_before(before: &[PlacedStep]) -> Option<&PlacedStep>
    ensures { option_copied result ≡ broken_before (reverse before.now) }
{
    let between = since_event(before);
    if between.is_empty() {
        return None;
    }
    if is_some_sound(event_before(before)) {
        broken_among(between)
    } else {
        None
    }
}

/// Returns the broken rhythm between an event before the place and the event after it.
#[tactic(auto, unfolding(crate::specs::Looks::broken_after))]
pub fn broken_after(following: &[PlacedStep]) -> Option<&PlacedStep>
    ensures { option_copied result ≡ broken_after following.now }
{
    let between = to_event(following);
    if between.is_empty() {
        return None;
    }
    if is_some_sound(event_after(following)) {
        broken_among(between)
    } else {
        None
    }
}

fn left_stop(before: &[PlacedStep]) -> Option<&PlacedStep>
    ensures { option_copied result ≡ find (λ s. is_left_stop s.step) (reverse before.now) }
{
    before.iter().rev().find(|s| is_left_stop(&s.step))
}

fn right_stop(following: &[PlacedStep]) -> Option<&PlacedStep>
    ensures { option_copied result ≡ find (λ s. is_event_or_bar s.step) following.now }
{
    following.iter().find(|s| is_event_or_bar(&s.step))
}

/// Returns whether a broken rhythm at the place has its left side.
#[tactic(auto, unfolding(crate::specs::Looks::has_left))]
pub fn has_left(before: &[PlacedStep]) -> bool
    ensures { result ≡ has_left (reverse before.now) }
{
    is_some_sound(left_stop(before))
}

/// Returns whether a broken rhythm before the place has its right side.
#[tactic(auto, unfolding(crate::specs::Looks::has_right))]
pub fn has_right(following: &[PlacedStep]) -> bool
    ensures { result ≡ has_right following.now }
{
    is_some_sound(right_stop(following))
}
