ghost use Rattle.std.specs.Prelude.{◌≡◌, ◌∷◌, [], IfOk};

use crate::text::{Memory, Row};
use std::alloc::Global;
use std::marker::Model;

/// Storage for a list of values: a single value in place, others in a row.
#[derive(Drop)]
enum FewStore<T> {
    One([T; 1]),
    Row(Row<T>),
}

/// A list of values, which contracts see as a list. A single value takes no memory.
#[derive(Drop)]
pub struct Few<T> {
    held: FewStore<T>,
}

impl<T> Model for Few<T> {
    ghost use Rattle.std.specs.Prelude.{List};
    ghost use Rattle.std.specs.Coded.{coded_list};

    ghost Value = { List T };

    ghost coded = { coded_list T.code };

    ghost use Rattle.mus_units.specs.Few.{stored_values};

    ghost view = { λ f. stored_values f.held };
}

impl<T> Few<T> {
    /// Returns a list of a single value.
    pub fn one(value: T) -> Few<T>
        ensures { result ≡ value ∷ [] }
    {
        Few {
            held: FewStore::One([value]),
        }
    }

    /// Returns all values, as a slice.
    pub fn as_slice(&self) -> &[T]
        ensures { result.now ≡ self.now }
    {
        match &self.held {
            FewStore::One(values) => values,
            FewStore::Row(values) => values.as_slice(),
        }
    }
}

impl<T: Copy> Few<T> {
    /// Returns a list of the same values.
    pub fn copy(&self, alloc: Global) -> Result<Few<T>, Memory>
        ensures { IfOk result (λ it. it ≡ self.now) }
    {
        match &self.held {
            FewStore::One([value]) => Ok(Few::one(*value)),
            FewStore::Row(values) => Ok(Few::from(values.copy(alloc)?)),
        }
    }
}

impl<T> From<Row<T>> for Few<T> {
    ghost from_gives = { λ row few. few ≡ row };

    fn from(values: Row<T>) -> Few<T> {
        Few {
            held: FewStore::Row(values),
        }
    }
}
