ghost use Rattle.std.specs.Prelude.{◌≡◌, ◌==◌, ◌<◌, ◌-◌, ◌^◌, ◌++◌, ◌∷◌, [], ℕ, length, IfOk, OnOk, OnErr, slice_get};
ghost use Rattle.std.specs.Iterator.Adapters.{IterYieldsInOrder};
ghost use Rattle.std.specs.Option.{option_copied};
ghost use Rattle.std.specs.Slice.Iter.{iter_rest};

use std::alloc::{AllocError, AllocFailed, Global};
use std::marker::Model;
use std::slice;

/// Out of memory. Every call that allocates may return it; no clause says when.
#[derive(Clone, Copy, PartialEq, Eq)]
pub struct Memory;

impl From<AllocError> for Memory {
    fn from(_e: AllocError) -> Memory {
        Memory
    }
}

impl<T: Drop> From<AllocFailed<T>> for Memory {
    fn from(_e: AllocFailed<T>) -> Memory {
        Memory
    }
}

/// A list of bytes, which contracts see as a list of numbers.
#[derive(Drop)]
pub struct Text {
    pub bytes: Vec<u8>,
}

impl Model for Text {
    ghost use Rattle.std.specs.Prelude.{List, ℕ};

    ghost Value = { List ℕ };

    ghost view = { λ t. t.bytes.items };
}

impl Text {
    /// Returns the empty text.
    pub fn new(alloc: Global) -> Text
        ensures { result ≡ [] }
    {
        Text {
            bytes: Vec::new(alloc),
        }
    }

    /// Returns a text of these bytes.
    pub fn from_slice(alloc: Global, bytes: &[u8]) -> Result<Text, Memory>
        ensures { IfOk result (λ t. t ≡ bytes.now) }
    {
        Ok(Text {
            bytes: Vec::from_slice(alloc, bytes)?,
        })
    }

    /// Returns the number of bytes.
    pub fn len(&self) -> usize
        ensures { result ≡ length self.now }
    {
        self.bytes.len()
    }

    /// Returns whether the text is empty.
    pub fn is_empty(&self) -> bool
        ensures { result ≡ (length self.now == 0) }
    {
        self.bytes.as_slice().is_empty()
    }

    /// Returns the whole text, as a slice.
    pub fn as_slice(&self) -> &[u8]
        ensures { result.now ≡ self.now }
    {
        self.bytes.as_slice()
    }

    /// Iterates over the bytes, from the first on.
    pub fn iter(&self) -> slice::Iter<'_, u8>
        ensures rest { iter_rest result ≡ self.now }
        ensures bound { length (iter_rest result) < 2 ^ 64 }
        ensures runs { IterYieldsInOrder ℕ }
    {
        self.bytes.as_slice().iter()
    }

    /// Returns a text of the same bytes.
    pub fn copy(&self, alloc: Global) -> Result<Text, Memory>
        ensures { IfOk result (λ it. it ≡ self.now) }
    {
        Text::from_slice(alloc, self.as_slice())
    }

    /// Adds one byte at the end. On an error the text is unchanged.
    pub fn push(&mut self, byte: u8) -> Result<(), Memory>
        ensures ok { OnOk result (self.new ≡ self.old ++ byte ∷ []) }
        ensures err { OnErr result (self.new ≡ self.old) }
    {
        self.bytes.push(byte)?;
        Ok(())
    }

    /// Adds bytes at the end. On an error the text is unchanged.
    pub fn append(&mut self, bytes: &[u8]) -> Result<(), Memory>
        ensures ok { OnOk result (self.new ≡ self.old ++ bytes.now) }
        ensures err { OnErr result (self.new ≡ self.old) }
    {
        self.bytes.extend_from_slice(bytes)?;
        Ok(())
    }
}

impl<'a> IntoIterator for &'a Text {
    type Item = &'a u8;

    type IntoIter = slice::Iter<'a, u8>;

    ghost into_iter_gives = { λ text it.
        (iter_rest it ≡ text.now) × (length (iter_rest it) < 2 ^ 64) × IterYieldsInOrder ℕ };

    fn into_iter(self) -> slice::Iter<'a, u8> {
        self.iter()
    }
}

/// A list of values, which contracts see as a list.
#[derive(Drop)]
pub struct Row<T> {
    pub items: Vec<T>,
}

impl<T> Model for Row<T> {
    ghost use Rattle.std.specs.Prelude.{List};
    ghost use Rattle.std.specs.Coded.{coded_list};

    ghost Value = { List T };

    ghost coded = { coded_list T.code };

    ghost view = { λ r. r.items.items };
}

impl<T> Row<T> {
    /// Returns the empty row.
    pub fn new(alloc: Global) -> Row<T>
        ensures { result ≡ [] }
    {
        Row {
            items: Vec::new(alloc),
        }
    }

    /// Returns the empty row, with room for the given number of values.
    pub fn with_room(alloc: Global, room: usize) -> Result<Row<T>, Memory>
        ensures { IfOk result (λ row. row ≡ []) }
    {
        Ok(Row {
            items: Vec::with_capacity(alloc, room)?,
        })
    }

    /// Returns the number of values.
    pub fn len(&self) -> usize
        ensures { result ≡ length self.now }
    {
        self.items.len()
    }

    /// Returns whether the row is empty.
    pub fn is_empty(&self) -> bool
        ensures { result ≡ (length self.now == 0) }
    {
        self.items.as_slice().is_empty()
    }

    /// Returns the whole row, as a slice.
    pub fn as_slice(&self) -> &[T]
        ensures { result.now ≡ self.now }
    {
        self.items.as_slice()
    }

    /// Iterates over the values, from the first on.
    pub fn iter(&self) -> slice::Iter<'_, T>
        ensures rest { iter_rest result ≡ self.now }
        ensures bound { length (iter_rest result) < 2 ^ 64 }
        ensures runs { IterYieldsInOrder T }
    {
        self.items.as_slice().iter()
    }

    /// Returns the value at an index, counted from 0, if there is one.
    pub fn get(&self, place: usize) -> Option<&T>
        ensures { option_copied result ≡ slice_get self.now place }
    {
        self.items.as_slice().get(place)
    }

    /// Returns the first value, if there is one.
    pub fn first(&self) -> Option<&T>
        ensures { option_copied result ≡ slice_get self.now 0 }
    {
        self.items.as_slice().first()
    }

    /// Returns the last value, if there is one.
    pub fn last(&self) -> Option<&T>
        ensures { option_copied result ≡ slice_get self.now (length self.now - 1) }
    {
        self.items.as_slice().last()
    }

    /// Adds one value at the end. On an error the row is unchanged.
    #[inline(always)]
    pub fn push(&mut self, item: T) -> Result<(), Memory>
    where
        T: Drop,
        ensures ok { OnOk result (self.new ≡ self.old ++ item ∷ []) }
        ensures err { OnErr result (self.new ≡ self.old) }
    {
        if self.items.len() < self.items.capacity() {
            self.items.push_reserved(item);
            return Ok(());
        }
        self.push_growing(item)
    }

    /// Adds one value at the end of a row that has no room for it yet.
    #[inline(never)]
    fn push_growing(&mut self, item: T) -> Result<(), Memory>
    where
        T: Drop,
        ensures ok { OnOk result (self.new ≡ self.old ++ item ∷ []) }
        ensures err { OnErr result (self.new ≡ self.old) }
    {
        self.items.push(item)?;
        Ok(())
    }

    /// Moves the values of another row to the end of this one. On an error the row is unchanged.
    pub fn append(&mut self, more: Row<T>) -> Result<(), Memory>
    where
        T: Drop,
        ensures ok { OnOk result (self.new ≡ self.old ++ more) }
        ensures err { OnErr result (self.new ≡ self.old) }
    {
        let mut items = more.items;
        self.items.append(&mut items)?;
        Ok(())
    }
}

impl<T: Copy> Row<T> {
    /// Returns a row of these values.
    pub fn from_slice(alloc: Global, items: &[T]) -> Result<Row<T>, Memory>
        ensures { IfOk result (λ it. it ≡ items.now) }
    {
        Ok(Row {
            items: Vec::from_slice(alloc, items)?,
        })
    }

    /// Returns a row of the same values.
    pub fn copy(&self, alloc: Global) -> Result<Row<T>, Memory>
        ensures { IfOk result (λ it. it ≡ self.now) }
    {
        Row::from_slice(alloc, self.as_slice())
    }
}

impl<'a, T> IntoIterator for &'a Row<T> {
    type Item = &'a T;

    type IntoIter = slice::Iter<'a, T>;

    ghost into_iter_gives = { λ row it.
        (iter_rest it ≡ row.now) × (length (iter_rest it) < 2 ^ 64) × IterYieldsInOrder T };

    fn into_iter(self) -> slice::Iter<'a, T> {
        self.iter()
    }
}

/// Copies a text that may be absent.
pub fn copy_optional_text(alloc: Global, text: &Option<Text>) -> Result<Option<Text>, Memory>
    ensures { IfOk result (λ it. it ≡ text.now) }
{
    match text {
        Some(text) => Ok(Some(text.copy(alloc)?)),
        None => Ok(None),
    }
}

/// Copies texts each of which may be absent.
pub fn copy_optional_texts(
    alloc: Global,
    texts: &[Option<Text>],
) -> Result<Row<Option<Text>>, Memory>
    ensures { IfOk result (λ it. it ≡ texts.now) }
{
    let mut copies = Row::new(alloc);
    for text in texts {
        copies.push(copy_optional_text(alloc, text)?)?;
    }
    Ok(copies)
}
