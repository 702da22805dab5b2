//! What may be on the operand stack. Strings, names and procedures are not copied: they are parts of the tokens that
//! were read.

ghost use Rattle.std.specs.Prelude.{◌≡◌};

use crate::token::{Hundredths, Number, SimpleToken};
use std::marker::Model;

/// The bytes of a string or of a name.
#[derive(Drop)]
pub struct StringBytes<'a> {
    bytes: &'a [u8],
}

impl<'a> Model for StringBytes<'a> {
    ghost use Rattle.std.specs.Prelude.{List, ℕ};

    ghost Value = { List ℕ };

    ghost view = { λ w. w.bytes.now };
}

impl<'a> StringBytes<'a> {
    /// Wraps these bytes.
    pub fn new(bytes: &'a [u8]) -> StringBytes<'a>
        ensures { result ≡ bytes.now }
    {
        StringBytes { bytes }
    }

    /// Returns all bytes.
    pub fn as_slice(&self) -> &'a [u8]
        ensures { result.now ≡ self.now }
    {
        self.bytes
    }
}

/// The tokens of a procedure.
#[derive(Drop)]
pub struct Procedure<'a> {
    tokens: &'a [SimpleToken],
}

impl<'a> Model for Procedure<'a> {
    ghost use Rattle.std.specs.Prelude.{List};
    ghost use Rattle.ps_steps.specs.declared.token.SimpleToken.{SimpleToken};

    ghost Value = { List SimpleToken };

    ghost view = { λ p. p.tokens.now };
}

impl<'a> Procedure<'a> {
    /// Wraps these tokens.
    pub fn new(tokens: &'a [SimpleToken]) -> Procedure<'a>
        ensures { result ≡ tokens.now }
    {
        Procedure { tokens }
    }

    /// Returns all tokens.
    pub fn as_slice(&self) -> &'a [SimpleToken]
        ensures { result.now ≡ self.now }
    {
        self.tokens
    }
}

/// A value on the stack. `Font` is the font of the words, with its size.
#[derive(Drop)]
pub enum Operand<'a> {
    Whole(Number),
    Pointed(Hundredths),
    Words(StringBytes<'a>),
    Label(StringBytes<'a>),
    Body(Procedure<'a>),
    Font(i64),
}
