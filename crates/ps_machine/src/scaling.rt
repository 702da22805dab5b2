//! The operator that scales.

ghost use Rattle.std.specs.Prelude.{◌≡◌, ◌*ℤ◌, reverse};
ghost use Rattle.ps_steps.specs.Operators.{operated, scaled, scale_op, factor};
ghost use Rattle.ps_machine.specs.Doing.{state_of, DidOrStopped, IsFactors};

use crate::state::{Machine, Stop};
use ps_steps::{Cause, Hundredths, Number, Operand};

/// Returns a factor in hundredths.
fn factor(v: &Operand) -> Option<Hundredths>
    ensures { result ≡ factor v.now }
{
    match v {
        Operand::Whole(number) => Some(number.hundredths()),
        Operand::Pointed(number) => Some(number.same()),
        _ => None,
    }
}

/// Pops two equal factors.
fn factors(stack: &mut Vec<Operand>) -> Result<Hundredths, Stop>
    ensures { IsFactors (reverse stack.old.items) result (reverse stack.new.items) }
{
    if stack.len() < 2 {
        return Err(Stop::Halted(Cause::Stack));
    }
    match (stack.pop(), stack.pop()) {
        (Some(b), Some(a)) => match (factor(&a), factor(&b)) {
            (Some(p), Some(q)) => {
                if p.get() == q.get() {
                    Ok(p)
                } else {
                    Err(Stop::Halted(Cause::Scale))
                }
            }
            _ => Err(Stop::Halted(Cause::Kind)),
        },
        _ => Err(Stop::Halted(Cause::Stack)),
    }
}

/// Sets the scale to a hundredth of a number.
fn rescale(m: &mut Machine, p: i128) -> Result<(), Stop>
    ensures { DidOrStopped (scaled p (state_of m.old)) result (state_of m.new) }
{
    if p < 100 || p % 100 != 0 {
        return Err(Stop::Halted(Cause::Scale));
    }
    match Number::new(p / 100) {
        Some(scale) => {
            m.canvas.set_scale(scale);
            Ok(())
        }
        None => Err(Stop::Halted(Cause::Range)),
    }
}

/// Returns a scale times a factor in hundredths.
fn product_of(scale: &Number, factor: &Hundredths) -> i128
    ensures { result ≡ scale.now *ℤ factor.now }
{
    i128::from(scale.get()) * factor.get()
}

/// Executes `scale`: multiplies the scale by a factor.
pub fn scale(m: &mut Machine) -> Result<(), Stop>
    ensures { DidOrStopped (operated scale_op (state_of m.old)) result (state_of m.new) }
{
    let factor = factors(&mut m.stack)?;
    let product = product_of(m.canvas.scale(), &factor);
    rescale(m, product)
}
