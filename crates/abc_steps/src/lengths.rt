ghost use Rattle.std.specs.{Prelude.{◌≡◌, ◌≤◌, ◌^◌, reverse, IfOk}, Option.option_copied};
ghost use Rattle.mus_units.specs.{Good.IsGoodUnit, Parts.parts_list};
ghost use Rattle.abc_steps.specs.Good.{IsGoodSound, IsGoodPlacedStep};
ghost use Rattle.abc_steps.specs.Lengths.{long_side, short_side, left_side, right_side, left_factor, right_factor};
ghost use Rattle.abc_steps.specs.Lengths.{written_length, parts_at, IsFactor, IsLength};

use crate::looks::{broken_after, broken_before};
use crate::step::{PlacedStep, Step};
use crate::stored::StoredSound;
use mus_units::{Few, Frac, Memory, Value, parts_of, value_of};
use std::alloc::Global;

/// Returns the factor by which the long side of a broken rhythm becomes longer.
fn long_side(dots: u8) -> Frac
    ensures value { result ≡ long_side dots }
    ensures factor { IsFactor result }
{
    if dots <= 1 {
        Frac { num: 3, den: 2 }
    } else if dots <= 2 {
        Frac { num: 7, den: 4 }
    } else {
        Frac { num: 15, den: 8 }
    }
}

/// Returns the factor by which the other side becomes shorter.
fn short_side(dots: u8) -> Frac
    ensures value { result ≡ short_side dots }
    ensures factor { IsFactor result }
{
    if dots <= 1 {
        Frac { num: 1, den: 2 }
    } else if dots <= 2 {
        Frac { num: 1, den: 4 }
    } else {
        Frac { num: 1, den: 8 }
    }
}

#[tactic(auto, unfolding(crate::specs::Lengths::left_side))]
fn left_side(s: &Step) -> Frac
    ensures value { result ≡ left_side s.now }
    ensures factor { IsFactor result }
{
    match s {
        Step::Broken { right: true, dots } => long_side(*dots),
        Step::Broken { right: false, dots } => short_side(*dots),
        _ => Frac { num: 1, den: 1 },
    }
}

#[tactic(auto, unfolding(crate::specs::Lengths::right_side))]
fn right_side(s: &Step) -> Frac
    ensures value { result ≡ right_side s.now }
    ensures factor { IsFactor result }
{
    match s {
        Step::Broken { right: true, dots } => short_side(*dots),
        Step::Broken { right: false, dots } => long_side(*dots),
        _ => Frac { num: 1, den: 1 },
    }
}

#[tactic(auto, unfolding(crate::specs::Lengths::left_factor))]
fn left_factor(broken: Option<&PlacedStep>) -> Frac
    ensures value { result ≡ left_factor (option_copied broken.entry) }
    ensures factor { IsFactor result }
{
    match broken {
        Some(s) => left_side(&s.step),
        None => Frac { num: 1, den: 1 },
    }
}

#[tactic(auto, unfolding(crate::specs::Lengths::right_factor))]
fn right_factor(broken: Option<&PlacedStep>) -> Frac
    ensures value { result ≡ right_factor (option_copied broken.entry) }
    ensures factor { IsFactor result }
{
    match broken {
        Some(s) => right_side(&s.step),
        None => Frac { num: 1, den: 1 },
    }
}

/// Returns the written length of a note, a chord or a rest, in whole notes, not reduced.
#[inline(always)]
#[tactic(auto, unfolding(crate::specs::Lengths::written_length))]
pub fn written_length(
    unit: Frac,
    s: &StoredSound,
    before: &[PlacedStep],
    following: &[PlacedStep],
) -> Frac
    requires unit { IsGoodUnit unit }
    requires good { IsGoodSound s.now }
    ensures value { result ≡ written_length unit s.now (reverse before.now) following.now }
    ensures length { IsLength result }
{
    let left = left_factor(broken_after(following));
    let right = right_factor(broken_before(before));
    Frac {
        num: s.num() * unit.num * (left.num * right.num),
        den: s.den() * unit.den * (left.den * right.den),
    }
}

/// Returns the parts of a length. Takes no memory if it is a single value.
#[inline(always)]
#[tactic(auto, using(crate::proofs::Singles::one_part))]
pub fn parts_in(alloc: Global, length: Frac) -> Result<Option<Few<Value>>, Memory>
    requires { IsLength length }
    ensures { IfOk result (λ r. r ≡ parts_list length.num length.den) }
{
    if let Some(value) = value_of(length.num, length.den) {
        return Ok(Some(Few::one(value)));
    }
    match parts_of(alloc, length.num, length.den)? {
        Some(parts) => Ok(Some(Few::from(parts))),
        None => Ok(None),
    }
}

/// Returns the parts of the length of a note, a chord or a rest. `None` for any other step.
#[inline(always)]
#[tactic(auto, unfolding(crate::specs::Lengths::parts_at))]
pub fn parts_at(
    alloc: Global,
    unit: Frac,
    before: &[PlacedStep],
    at: &PlacedStep,
    following: &[PlacedStep],
) -> Result<Option<Few<Value>>, Memory>
    requires unit { IsGoodUnit unit }
    requires good { IsGoodPlacedStep at.now }
    ensures { IfOk result (λ r. r ≡ parts_at unit (reverse before.now) at.now.step following.now) }
{
    match &at.step {
        Step::Sound(s) => parts_in(alloc, written_length(unit, s, before, following)),
        _ => Ok(None),
    }
}
