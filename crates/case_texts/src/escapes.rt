use crate::error::{CaseError, Mistake};
use crate::report::Report;
use mus_units::Text;
use std::alloc::Global;

/// How much of an escape has been read.
#[derive(Clone, Copy)]
enum Escape {
    Outside,
    Begun,
    Hex,
    HexDigit(u8),
}

/// Returns the bytes that a text denotes: `\n`, `\r`, `\t`, `\\`, and `\x` with two lower-case digits denote a byte, a
/// backslash at the end of a line denotes a further line end, and every other byte denotes itself.
pub fn unescaped(alloc: Global, text: &[u8]) -> Result<Text, CaseError> {
    let mut out = Text::new(alloc);
    let mut escape = Escape::Outside;
    for byte in text {
        escape = put_read(&mut out, escape, *byte)?;
    }
    match escape {
        Escape::Outside => Ok(out),
        _ => Err(CaseError::Wrong(Mistake::UnknownEscape)),
    }
}

fn put_read(out: &mut Text, escape: Escape, byte: u8) -> Result<Escape, CaseError> {
    match escape {
        Escape::Outside if byte == b'\\' => Ok(Escape::Begun),
        Escape::Begun if byte == b'x' => Ok(Escape::Hex),
        Escape::Hex => Ok(Escape::HexDigit(digit(byte)?)),
        Escape::Outside => put_whole(out, byte),
        Escape::Begun => put_whole(out, named(byte)?),
        Escape::HexDigit(high) => put_whole(out, high << 4 | digit(byte)?),
    }
}

/// Adds a byte that ends an escape.
fn put_whole(out: &mut Text, byte: u8) -> Result<Escape, CaseError> {
    out.push(byte)?;
    Ok(Escape::Outside)
}

/// Returns the byte that a letter after a backslash names.
fn named(letter: u8) -> Result<u8, CaseError> {
    match letter {
        b'n' | b'\n' => Ok(b'\n'),
        b'r' => Ok(b'\r'),
        b't' => Ok(b'\t'),
        b'\\' => Ok(b'\\'),
        _ => Err(CaseError::Wrong(Mistake::UnknownEscape)),
    }
}

fn digit(byte: u8) -> Result<u8, CaseError> {
    match byte {
        b'0'..=b'9' => Ok(byte - b'0'),
        b'a'..=b'f' => Ok(byte - b'a' + 10),
        _ => Err(CaseError::Wrong(Mistake::UnknownEscape)),
    }
}

/// Adds a byte in visible ASCII, as `unescaped` reads it. For a line end it adds the text that begins a line instead.
pub fn put_shown(out: &mut Report, begin: &[u8], byte: u8) -> Result<(), CaseError> {
    match byte {
        b'\n' => out.append(begin),
        b'\r' => out.append(b"\\r"),
        b'\t' => out.append(b"\\t"),
        b'\\' => out.append(b"\\\\"),
        b' '..=b'~' => out.push(byte),
        _ => out.show(format_args!("\\x{byte:02x}")),
    }
}
