//! Executes tokens.

ghost use Rattle.std.specs.Prelude.{◌≡◌};
ghost use Rattle.ps_steps.specs.Operators.{executed, push};
ghost use Rattle.ps_steps.specs.declared.token.MachineToken.TheVariants.{Simple as simple_token};
ghost use Rattle.ps_steps.specs.declared.token.MachineToken.TheVariants.{Procedure as procedure_token};
ghost use Rattle.ps_steps.specs.declared.token.SimpleToken.TheVariants.{Name as name_token};
ghost use Rattle.ps_machine.specs.{Doing.state_of, Doing.DidOrStopped, Doing.IsExecuted, Nexts.machine_token};

use crate::calls::Calls;
use crate::operators::operate;
use crate::state::{Machine, Stop};
use ps_steps::{Cause, Operand, Procedure, SimpleToken, StringBytes};
use std::alloc::Global;

fn push<'a>(m: &mut Machine<'a>, v: Operand<'a>) -> Result<(), Stop>
    ensures { DidOrStopped (push v.entry (state_of m.old)) result (state_of m.new) }
{
    m.stack.push(v)?;
    Ok(())
}

/// Executes a name: calls its procedure if it has one; otherwise the name is an operator.
fn execute_name<'a>(
    alloc: Global,
    m: &mut Machine<'a>,
    calls: &mut Calls<'a>,
    name: &'a [u8],
) -> Result<(), Stop>
    ensures { IsExecuted (executed (simple_token (name_token name.now)) (state_of m.old)) calls.old result
        (state_of m.new) calls.new }
{
    match m.names.body_of(name) {
        Some(body) => {
            calls.call(body)?;
            Ok(())
        }
        None => operate(alloc, m, name),
    }
}

/// A token to execute: one that may be in a procedure, or a procedure.
#[derive(Drop)]
pub enum Ready<'a> {
    Simple(&'a SimpleToken),
    Procedure(&'a [SimpleToken]),
}

fn execute_simple<'a>(
    alloc: Global,
    m: &mut Machine<'a>,
    calls: &mut Calls<'a>,
    t: &'a SimpleToken,
) -> Result<(), Stop>
    ensures { IsExecuted (executed (simple_token t.now) (state_of m.old)) calls.old result (state_of m.new) calls.new }
{
    match t {
        SimpleToken::Whole(number) => push(m, Operand::Whole(number.same())),
        SimpleToken::Pointed(number) => push(m, Operand::Pointed(number.same())),
        SimpleToken::Far => Err(Stop::Halted(Cause::Range)),
        SimpleToken::Words(words) => push(m, Operand::Words(StringBytes::new(words.as_slice()))),
        SimpleToken::Label(name) => push(m, Operand::Label(StringBytes::new(name.as_slice()))),
        SimpleToken::Name(name) => execute_name(alloc, m, calls, name.as_slice()),
        SimpleToken::Font => {
            m.made = true;
            Ok(())
        }
    }
}

/// Executes a token.
pub fn execute<'a>(
    alloc: Global,
    m: &mut Machine<'a>,
    calls: &mut Calls<'a>,
    t: Ready<'a>,
) -> Result<(), Stop>
    ensures { IsExecuted (executed (machine_token t.entry) (state_of m.old)) calls.old result (state_of m.new)
        calls.new }
{
    match t {
        Ready::Simple(t) => execute_simple(alloc, m, calls, t),
        Ready::Procedure(body) => push(m, Operand::Body(Procedure::new(body))),
    }
}
