use crate::error::CaseError;
use mus_units::Text;
use std::alloc::Global;
use std::fmt::Display;

/// The report on a case: a text that grows, and the memory that it grows in.
#[derive(Drop)]
pub struct Report {
    pub alloc: Global,
    pub text: Text,
}

impl Report {
    /// Returns the empty report.
    pub fn new(alloc: Global) -> Report {
        Report {
            alloc,
            text: Text::new(alloc),
        }
    }

    /// Adds a byte.
    pub fn push(&mut self, byte: u8) -> Result<(), CaseError> {
        Ok(self.text.push(byte)?)
    }

    /// Adds bytes.
    pub fn append(&mut self, bytes: &[u8]) -> Result<(), CaseError> {
        Ok(self.text.append(bytes)?)
    }

    /// Adds a space, unless a line begins here, and a word.
    pub fn next(&mut self, word: &[u8]) -> Result<(), CaseError> {
        match self.text.as_slice().last() {
            None | Some(b'\n') => {}
            Some(_) => self.push(b' ')?,
        }
        self.append(word)
    }

    /// Adds a word at the beginning of a line, which is a new one unless the report is empty.
    pub fn line(&mut self, word: &[u8]) -> Result<(), CaseError> {
        if self.text.len() > 0 {
            self.push(b'\n')?;
        }
        self.append(word)
    }

    /// Ends a line.
    pub fn end_line(&mut self) -> Result<(), CaseError> {
        self.push(b'\n')
    }

    /// Adds a word as `next` does, if the condition holds.
    pub fn flag(&mut self, holds: bool, word: &[u8]) -> Result<(), CaseError> {
        if holds { self.next(word) } else { Ok(()) }
    }

    /// Adds a value as it is displayed.
    pub fn show<T: Display + Drop>(&mut self, value: T) -> Result<(), CaseError> {
        self.append(format!(in self.alloc; "{value}")?.as_bytes())
    }

    /// Adds a value as `next` adds a word.
    pub fn tell<T: Display + Drop>(&mut self, value: T) -> Result<(), CaseError> {
        self.next(b"")?;
        self.show(value)
    }

    /// Adds values as `tell` does, one after another.
    pub fn tell_all<T: Display>(&mut self, values: &[T]) -> Result<(), CaseError> {
        for value in values {
            self.tell(value)?;
        }
        Ok(())
    }

    /// Adds a word as `next` does, and a number after it.
    pub fn next_number<T: Display + Drop>(
        &mut self,
        word: &[u8],
        number: T,
    ) -> Result<(), CaseError> {
        self.next(word)?;
        self.show(number)
    }

    /// Adds a word as `line` does, and a number after it.
    pub fn line_number<T: Display + Drop>(
        &mut self,
        word: &[u8],
        number: T,
    ) -> Result<(), CaseError> {
        self.line(word)?;
        self.show(number)
    }
}
