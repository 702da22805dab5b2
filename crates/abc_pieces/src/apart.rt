ghost use Rattle.std.specs.Prelude.{◌≡◌, IfOk};

use mus_units::Memory;
use std::alloc::Global;
use std::marker::Model;

/// A value on the heap, so that what contains it is small. Contracts see the value.
#[derive(Drop)]
pub struct Boxed<T> {
    value: Box<T>,
}

impl<T> Model for Boxed<T> {
    ghost Value = { T };

    ghost coded = { T.code };

    ghost view = { λ a. a.value.value };
}

impl<T> Boxed<T> {
    /// Puts a value on the heap.
    pub fn new(alloc: Global, value: T) -> Result<Boxed<T>, Memory>
    where
        T: Drop,
        ensures { IfOk result (λ it. it ≡ value) }
    {
        Ok(Boxed {
            value: Box::new(alloc, value)?,
        })
    }

    /// Returns a reference to the value.
    pub fn get(&self) -> &T
        ensures { result.now ≡ self.now }
    {
        &self.value
    }

    /// Takes the value off the heap.
    pub fn into_inner(self) -> T
    where
        T: Drop,
        ensures { result ≡ self }
    {
        Box::into_inner(self.value)
    }
}
