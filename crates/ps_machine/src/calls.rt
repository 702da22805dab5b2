//! The procedures that are being executed.

ghost use Rattle.std.specs.Prelude.{◌≡◌, ◌++◌, ◌∷◌, [], OnOk, IfOk, MatchOption};

use mus_units::Memory;
use ps_steps::{Procedure, SimpleToken};
use std::alloc::Global;
use std::marker::Model;

/// The tokens of procedures that are still to be executed, the innermost procedure last. Contracts see the tokens in
/// the order of execution.
#[derive(Drop)]
pub struct Calls<'a> {
    frames: Vec<Procedure<'a>>,
}

impl<'a> Model for Calls<'a> {
    ghost use Rattle.std.specs.Prelude.{List, reverse};
    ghost use Rattle.ps_steps.specs.declared.token.SimpleToken.{SimpleToken};
    ghost use Rattle.ps_machine.specs.Pending.{one_after_another};

    ghost Value = { List SimpleToken };

    ghost view = { λ c. one_after_another (reverse c.frames.items) };
}

impl<'a> Calls<'a> {
    /// Nothing is left.
    pub fn new(alloc: Global) -> Calls<'a>
        ensures { result ≡ [] }
    {
        Calls {
            frames: Vec::new(alloc),
        }
    }

    /// Calls a procedure: its tokens come before what is left.
    pub fn call(&mut self, body: &'a [SimpleToken]) -> Result<(), Memory>
        ensures { OnOk result (self.new ≡ body.now ++ self.old) }
    {
        self.frames.push(Procedure::new(body))?;
        Ok(())
    }

    /// Takes the first token that is left. A procedure with no token left is removed.
    pub fn next(&mut self) -> Result<Option<&'a SimpleToken>, Memory>
        ensures { IfOk result
            (λ t. MatchOption t ((self.old ≡ []) × (self.new ≡ [])) (λ s. self.old ≡ s.now ∷ self.new)) }
    {
        while let Some(frame) = self.frames.pop() {
            if let Some((t, rest)) = frame.as_slice().split_first() {
                if !rest.is_empty() {
                    self.frames.push(Procedure::new(rest))?;
                }
                return Ok(Some(t));
            }
        }
        Ok(None)
    }
}
