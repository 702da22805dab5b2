//! All tokens of a text.

ghost use Rattle.std.specs.Prelude.{◌≡◌, false, IfOk};
ghost use Rattle.{ps_steps.specs.Tokens.{passed}, ps_tokens.specs.Programs.{AreTokensOf}};

use crate::body::{TokenRead, token};
use crate::scan::skip;
use mus_units::{Memory, Row};
use ps_steps::{Cause, MachineToken};
use std::alloc::Global;

/// The tokens of a text, in order, up to its end or to the first bytes that begin no token: `fault` says why those
/// bytes begin none, and is `None` if the text ends.
#[derive(Drop)]
pub struct Program {
    pub tokens: Row<MachineToken>,
    pub fault: Option<Cause>,
}

/// Reads all tokens of a text.
pub fn read_program(alloc: Global, bytes: &[u8]) -> Result<Program, Memory>
    ensures { IfOk result (λ p. AreTokensOf (passed false bytes.now) p.tokens p.fault) }
{
    let mut tokens = Row::new(alloc);
    let mut rest = skip(bytes);
    loop {
        if rest.is_empty() {
            return Ok(Program {
                tokens,
                fault: None,
            });
        }
        match token(alloc, rest)? {
            TokenRead::Found(t, after) => {
                tokens.push(t)?;
                rest = skip(after);
            }
            TokenRead::Not(cause) => {
                return Ok(Program {
                    tokens,
                    fault: Some(cause),
                });
            }
        }
    }
}
