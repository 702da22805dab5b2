ghost use Rattle.std.specs.Prelude.{◌≡◌, IfOk};

use crate::pitch::{Alter, Letter};
use crate::text::{Memory, Row};
use std::alloc::Global;

/// An entry of a key signature.
#[derive(Clone, Copy, PartialEq, Eq)]
pub struct Sign {
    pub letter: Letter,
    pub alter: Alter,
}

/// A key signature: its entries in the order in which they are drawn, at most one per letter.
#[derive(Drop)]
pub struct Key {
    pub signs: Row<Sign>,
}

impl Key {
    /// Returns a key with the same entries.
    pub fn copy(&self, alloc: Global) -> Result<Key, Memory>
        ensures { IfOk result (λ it. it ≡ self.now) }
    {
        Ok(Key {
            signs: self.signs.copy(alloc)?,
        })
    }
}

/// Copies a key that may be absent.
pub fn copy_optional_key(alloc: Global, key: &Option<Key>) -> Result<Option<Key>, Memory>
    ensures { IfOk result (λ it. it ≡ key.now) }
{
    match key {
        Some(key) => Ok(Some(key.copy(alloc)?)),
        None => Ok(None),
    }
}

/// A meter. `Common` and `Cut` are the signs C and C with a stroke, which count as 4/4 and 2/2.
#[derive(Clone, Copy, PartialEq, Eq)]
pub enum Meter {
    Free,
    Common,
    Cut,
    Ratio { num: u8, den: u8 },
}

/// How far an accidental reaches to later notes of its measure: not at all, to its own letter and octave, or to its
/// letter in every octave.
#[derive(Clone, Copy, PartialEq, Eq)]
pub enum Spread {
    Not,
    Octave,
    Pitch,
}
