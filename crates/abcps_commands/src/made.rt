//! Generated inputs, which are too long to be stored.

use case_texts::{CaseError, Mistake, number_of};
use std::alloc::{AllocError, Global};

/// Adds a byte a number of times.
fn put_all(text: &mut Vec<u8>, byte: u8, count: u32) -> Result<(), AllocError> {
    for _ in 0..count {
        text.push(byte)?;
    }
    Ok(())
}

fn spaces(alloc: Global, count: u32) -> Result<Vec<u8>, AllocError> {
    let mut text = Vec::new(alloc);
    put_all(&mut text, b' ', count)?;
    Ok(text)
}

/// Returns a book of a tune in free meter, with a line of this many rests and no bar.
fn rests(alloc: Global, count: u32) -> Result<Vec<u8>, AllocError> {
    let mut book = Vec::from_slice(alloc, b"X:1\nM:none\nK:C\n")?;
    put_all(&mut book, b'z', count)?;
    book.push(b'\n')?;
    Ok(book)
}

/// Returns an input of a number of spaces, or of a book of a number of rests.
pub(crate) fn made(alloc: Global, count: &str, what: &str) -> Result<Vec<u8>, CaseError> {
    let count = number_of::<u32>(count)?;
    match what {
        "spaces" => Ok(spaces(alloc, count)?),
        "rests" => Ok(rests(alloc, count)?),
        _ => Err(CaseError::Wrong(Mistake::UnknownInput)),
    }
}
