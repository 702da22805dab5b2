//! Operands, and numbers that may be too large.

ghost use Rattle.std.specs.Prelude.{◌≡◌, ◌+ℤ◌, ◌*ℤ◌, false, true, MatchOption, reverse};
ghost use Rattle.{ps_steps.specs.Near.{is_near}, ps_machine.specs.Doing.{IsTwo, IsFontAndNumber, IsPointOfSix, IsSix}};

use crate::state::Stop;
use ps_steps::{Cause, Number, Operand};

fn times(a: i64, b: i64) -> i128
    ensures { result ≡ a *ℤ b }
{
    i128::from(a) * i128::from(b)
}

/// Returns the number if it is within 2^60 of 0.
fn narrow(z: i128) -> Option<i64>
    ensures value { MatchOption result (is_near z ≡ false) (λ n. n ≡ z) }
    ensures near { MatchOption result (true ≡ true) (λ n. is_near z ≡ true) }
{
    if -(1 << 60) <= z && z <= 1 << 60 {
        Some(z as i64)
    } else {
        None
    }
}

/// Returns the product, or `None` if it exceeds 2^60 in size.
pub fn product(a: i64, b: i64) -> Option<i64>
    ensures value { MatchOption result (is_near (a *ℤ b) ≡ false) (λ z. z ≡ a *ℤ b) }
    ensures near { MatchOption result (true ≡ true) (λ z. is_near (a *ℤ b) ≡ true) }
{
    narrow(times(a, b))
}

fn sum(a: i64, b: i128) -> Option<i64>
    ensures value { MatchOption result (is_near (a +ℤ b) ≡ false) (λ z. z ≡ a +ℤ b) }
    ensures near { MatchOption result (true ≡ true) (λ z. is_near (a +ℤ b) ≡ true) }
{
    narrow(i128::from(a).checked_add(b)?)
}

/// Returns a coordinate, or `None` if it exceeds 2^60 in size.
pub fn coordinate(origin: i64, scale: &Number, v: i64) -> Option<i64>
    ensures value { MatchOption result (is_near (origin +ℤ (scale.now *ℤ v)) ≡ false)
        (λ z. z ≡ origin +ℤ (scale.now *ℤ v)) }
    ensures near { MatchOption result (true ≡ true) (λ z. is_near (origin +ℤ (scale.now *ℤ v)) ≡ true) }
{
    sum(origin, times(scale.get(), v))
}

/// Pops two whole numbers, the second from the top.
pub fn two(stack: &mut Vec<Operand>) -> Result<(i64, i64), Stop>
    ensures { IsTwo (reverse stack.old.items) result (reverse stack.new.items) }
{
    if stack.len() < 2 {
        return Err(Stop::Halted(Cause::Stack));
    }
    match (stack.pop(), stack.pop()) {
        (Some(Operand::Whole(y)), Some(Operand::Whole(x))) => Ok((x.get(), y.get())),
        _ => Err(Stop::Halted(Cause::Kind)),
    }
}

/// Pops a whole number from the top and then a font. Returns the size of the font and the number.
pub fn font_and_number(stack: &mut Vec<Operand>) -> Result<(i64, i64), Stop>
    ensures { IsFontAndNumber (reverse stack.old.items) result (reverse stack.new.items) }
{
    if stack.len() < 2 {
        return Err(Stop::Halted(Cause::Stack));
    }
    match (stack.pop(), stack.pop()) {
        (Some(Operand::Whole(by)), Some(Operand::Font(size))) => Ok((size, by.get())),
        _ => Err(Stop::Halted(Cause::Kind)),
    }
}

/// The points of a curve: its two control points and its end.
#[derive(Clone, Copy)]
pub struct Bend {
    pub first: (i64, i64),
    pub second: (i64, i64),
    pub end: (i64, i64),
}

/// Pops two whole numbers that are operands of a curve.
fn point_of_six(stack: &mut Vec<Operand>) -> Result<(i64, i64), Stop>
    ensures { IsPointOfSix (reverse stack.old.items) result (reverse stack.new.items) }
{
    match (stack.pop(), stack.pop()) {
        (Some(Operand::Whole(y)), Some(Operand::Whole(x))) => Ok((x.get(), y.get())),
        _ => Err(Stop::Halted(Cause::Kind)),
    }
}

/// Pops six whole numbers, the last from the top.
pub fn six(stack: &mut Vec<Operand>) -> Result<Bend, Stop>
    ensures { IsSix (reverse stack.old.items) result (reverse stack.new.items) }
{
    if stack.len() < 6 {
        return Err(Stop::Halted(Cause::Stack));
    }
    let end = point_of_six(stack)?;
    let second = point_of_six(stack)?;
    let first = point_of_six(stack)?;
    Ok(Bend { first, second, end })
}
