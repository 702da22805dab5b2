//! The operator that shows words.

ghost use Rattle.std.specs.Prelude.{◌≡◌};
ghost use Rattle.ps_steps.specs.Points.{current};
ghost use Rattle.ps_steps.specs.Operators.{operated, show_op, shown_at};
ghost use Rattle.ps_machine.specs.Doing.{state_of, DidOrStopped};

use crate::operands::product;
use crate::state::{Machine, Stop};
use mus_units::Text;
use ps_steps::{Cause, Operand, Paint};
use std::alloc::Global;

fn shown(alloc: Global, m: &mut Machine, words: &[u8]) -> Result<(), Stop>
    ensures { DidOrStopped (shown_at words.now (current m.old.canvas.now.path) (state_of m.old)) result
        (state_of m.new) }
{
    let Some((x, y)) = m.canvas.current() else {
        return Err(Stop::Halted(Cause::Point));
    };
    let Some(size) = product(m.canvas.font(), m.canvas.scale().get()) else {
        return Err(Stop::Halted(Cause::Range));
    };
    let words = Text::from_slice(alloc, words)?;
    m.paints.push(Paint::Show(size, x, y, words))?;
    Ok(())
}

/// Executes `show`: shows words at the current point.
pub fn show(alloc: Global, m: &mut Machine) -> Result<(), Stop>
    ensures { DidOrStopped (operated show_op (state_of m.old)) result (state_of m.new) }
{
    match m.stack.pop() {
        Some(Operand::Words(words)) => shown(alloc, m, words.as_slice()),
        Some(_) => Err(Stop::Halted(Cause::Kind)),
        None => Err(Stop::Halted(Cause::Stack)),
    }
}
