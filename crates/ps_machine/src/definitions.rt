//! Names with their procedures.

ghost use Rattle.std.specs.Prelude.{◌≡◌, OnOk, MatchOption, Some, None};
ghost use Rattle.{ps_steps.specs.{State.no_names, Operators.defined}, ps_machine.specs.Naming.{names_of}};

use mus_units::Memory;
use ps_steps::{Procedure, SimpleToken};
use std::alloc::Global;
use std::collections::BTreeMap;

/// The procedures that names are defined as.
#[derive(Drop)]
pub struct Definitions<'a> {
    pub bodies: BTreeMap<&'a [u8], Procedure<'a>>,
}

impl<'a> Definitions<'a> {
    /// Returns the definitions that define no name.
    pub fn new(alloc: Global) -> Definitions<'a>
        ensures { names_of result ≡ no_names }
    {
        Definitions {
            bodies: BTreeMap::new(alloc),
        }
    }

    /// Defines a name as a procedure, replacing an earlier definition.
    pub fn define(&mut self, name: &'a [u8], body: Procedure<'a>) -> Result<(), Memory>
        ensures { OnOk result (names_of self.new ≡ defined name.now body.entry (names_of self.old)) }
    {
        self.bodies.insert(name, body)?;
        Ok(())
    }

    /// Returns the procedure that a name is defined as, if there is one.
    pub fn body_of(&self, name: &'a [u8]) -> Option<&'a [SimpleToken]>
        ensures { MatchOption result (names_of self.now name.now ≡ None)
            (λ body. names_of self.now name.now ≡ Some body.now) }
    {
        match self.bodies.get(&name) {
            Some(body) => Some(body.as_slice()),
            None => None,
        }
    }
}
