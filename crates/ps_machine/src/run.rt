//! Runs of a text.

ghost use Rattle.std.specs.Prelude.{◌≡◌, IfOk, IfErr};
ghost use Rattle.ps_steps.specs.State.{first_state};
ghost use Rattle.ps_steps.specs.Steps.{Paints, IsHalt};
ghost use Rattle.ps_machine.specs.Doing.{state_of};
ghost use Rattle.ps_machine.specs.Nexts.{IsFirstToken, IsNext};
ghost use Rattle.ps_machine.specs.Sheets.{GivesItsSheet};

use crate::calls::Calls;
use crate::canvas::Canvas;
use crate::definitions::Definitions;
use crate::execute::{Ready, execute};
use crate::laws::one_answer;
use crate::state::{Machine, Stop};
use mus_units::{Memory, Row};
use ps_paint::paints_sheets;
use ps_steps::{Cause, MachineError, MachineToken, PagePaint};
use ps_tokens::read_program;
use std::alloc::Global;

/// What comes next: a token, with the tokens of the text that are left after it; or nothing.
#[derive(Drop)]
pub enum FetchedToken<'a> {
    End,
    Token(Ready<'a>, &'a [MachineToken]),
}

fn start<'a>(alloc: Global) -> Machine<'a>
    ensures { state_of result ≡ first_state }
{
    Machine {
        stack: Vec::new(alloc),
        names: Definitions::new(alloc),
        made: false,
        canvas: Canvas::new(alloc),
        paints: Row::new(alloc),
        pages: Row::new(alloc),
    }
}

/// Returns the first token of the text that is left.
fn first_of<'a>(tokens: &'a [MachineToken]) -> FetchedToken<'a>
    ensures { IsFirstToken tokens.now result }
{
    match tokens.split_first() {
        None => FetchedToken::End,
        Some((t, after)) => match t {
            MachineToken::Simple(t) => FetchedToken::Token(Ready::Simple(t), after),
            MachineToken::Procedure(body) => FetchedToken::Token(
                Ready::Procedure(body.as_slice()),
                after,
            ),
        },
    }
}

/// Takes the next token, from the calls or else from the text.
fn coming<'a>(calls: &mut Calls<'a>, tokens: &'a [MachineToken]) -> Result<FetchedToken<'a>, Memory>
    ensures { IfOk result (λ n. IsNext calls.old tokens.now n calls.new) }
{
    match calls.next()? {
        Some(t) => Ok(FetchedToken::Token(Ready::Simple(t), tokens)),
        None => Ok(first_of(tokens)),
    }
}

/// Runs the bytes of a text: executes its tokens, at most `budget` of them.
fn run_bytes(alloc: Global, b: &[u8], budget: u64) -> Result<Row<PagePaint>, MachineError>
    ensures painted { IfOk result (λ pages. Paints b.now budget pages) }
    ensures halted { IfErr result (λ e. IsHalt b.now budget e) }
{
    let program = read_program(alloc, b)?;
    let mut m = start(alloc);
    let mut calls = Calls::new(alloc);
    let mut rest = program.tokens.as_slice();
    let fault = program.fault;
    let mut token = 0;
    loop {
        match coming(&mut calls, rest)? {
            FetchedToken::End => match fault {
                None => return Ok(m.pages),
                Some(cause) => return Err(MachineError::Halt { token, cause }),
            },
            FetchedToken::Token(t, after) => {
                if token == budget {
                    return Err(MachineError::Halt {
                        token,
                        cause: Cause::Budget,
                    });
                }
                match execute(alloc, &mut m, &mut calls, t) {
                    Ok(()) => {
                        rest = after;
                        token += 1;
                    }
                    Err(Stop::Halted(cause)) => {
                        return Err(MachineError::Halt { token, cause });
                    }
                    Err(Stop::Memory) => return Err(MachineError::Memory),
                }
            }
        }
    }
}

/// Runs the bytes of a text: executes its tokens, at most `budget` of them, and returns what was painted on each
/// page, in 1/10000 point. Returns `Halt` exactly at the first token where the run can't go on, with the first cause
/// that applies there: bytes that begin no token, then a used-up budget, then what prevents the execution of the
/// token. `Memory` says nothing about the text.
///
/// For a document, a budget of at least 100 tokens per byte yields what its sheet paints, and no `Halt`.
pub fn run_machine(alloc: Global, b: &[u8], budget: u64) -> Result<Row<PagePaint>, MachineError>
    ensures painted { IfOk result (λ pages. Paints b.now budget pages) }
    ensures halted { IfErr result (λ e. IsHalt b.now budget e) }
    ensures sheet { GivesItsSheet b.now budget result }
{
    paints_sheets();
    one_answer();
    run_bytes(alloc, b, budget)
}
