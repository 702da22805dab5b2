ghost use Rattle.std.specs.Prelude.{◌≡◌, ◌≤◌, ◌-◌, ◌+◌, length, take, map, true, false, IfOk};
ghost use Rattle.std.specs.List.{suffix_len, position_or_len};
ghost use Rattle.std.specs.Str.{chars};
ghost use Rattle.abc_lines.specs.Kinds.{is_blank};
ghost use Rattle.abc_lines.specs.Lines.{is_end, without_mark, without_return, narrow, in_latin, comment_len};
ghost use Rattle.abc_lines.specs.Lines.{without_comment, is_empty_text, written, reading_of, reading, first_line};

use crate::kind::is_percent_line;
use bstr::ByteSlice;
use mus_units::bytes::{before_blanks, leading_blanks};
use mus_units::{Memory, Text};
use std::alloc::{AllocError, Global};

/// The content of one line of the input.
#[derive(Drop)]
pub enum LineContent {
    /// Only spaces and tabs.
    Empty,
    /// Only a comment, which is skipped.
    Comment,
    /// Text in Latin-1, without its comment.
    Written(Text),
}

/// Returns the input without the byte order mark at its start.
pub(crate) fn without_mark(bytes: &[u8]) -> &[u8]
    ensures { result.now ≡ without_mark bytes.now }
{
    if bytes.starts_with(b"\xEF\xBB\xBF") {
        bytes.split_at(3).1
    } else {
        bytes
    }
}

/// Returns the first line without its line end, and the rest after it.
#[tactic(auto, unfolding(crate::specs::Lines::first_line))]
pub(crate) fn first_line(bytes: &[u8]) -> (&[u8], &[u8])
    ensures { (result.0.now, result.1.now) ≡ first_line bytes.now }
{
    let (line, rest) = bytes.split_at(line_len(bytes));
    match rest.split_first() {
        None => (line, rest),
        Some((_, rest)) => (line, rest),
    }
}

fn line_len(bytes: &[u8]) -> usize
    ensures value { result ≡ position_or_len is_end bytes.now }
    ensures within { result ≤ length bytes.now }
{
    bytes.iter().take_while(|byte| **byte != b'\n').count()
}

/// Returns the content of a line.
#[tactic(auto, unfolding(crate::specs::Lines::reading))]
pub(crate) fn read_line(alloc: Global, line: &[u8]) -> Result<LineContent, Memory>
    ensures { IfOk result (λ it. it ≡ reading line.now) }
{
    let text = in_latin(alloc, without_return(line))?;
    read_text(alloc, text.as_slice())
}

fn read_text(alloc: Global, text: &[u8]) -> Result<LineContent, Memory>
    ensures { IfOk result (λ it. it ≡ reading_of text.now) }
{
    if is_empty_text(text) {
        return Ok(LineContent::Empty);
    }
    if is_percent_line(text) {
        return Ok(LineContent::Written(Text::from_slice(alloc, text)?));
    }
    written(alloc, without_comment(text))
}

fn written(alloc: Global, text: &[u8]) -> Result<LineContent, Memory>
    ensures { IfOk result (λ it. it ≡ written text.now) }
{
    if text.len() == 0 {
        return Ok(LineContent::Comment);
    }
    Ok(LineContent::Written(Text::from_slice(alloc, text)?))
}

fn is_empty_text(text: &[u8]) -> bool
    ensures { result ≡ is_empty_text text.now }
{
    leading_blanks(text) == text.len()
}

fn without_return(line: &[u8]) -> &[u8]
    ensures { result.now ≡ without_return line.now }
{
    if line.ends_with(&[b'\r']) {
        line.split_at(line.len() - 1).0
    } else {
        line
    }
}

#[tactic(auto, unfolding(crate::specs::Lines::in_latin))]
fn in_latin(alloc: Global, line: &[u8]) -> Result<Text, Memory>
    ensures { IfOk result (λ it. it ≡ in_latin line.now) }
{
    match line.to_str() {
        Ok(text) => Ok(Text {
            bytes: narrowed(alloc, text)?,
        }),
        Err(_) => Text::from_slice(alloc, line),
    }
}

fn narrowed(alloc: Global, text: &str) -> Result<Vec<u8>, AllocError>
    ensures { IfOk result (λ it. it.items ≡ map narrow (chars text.now)) }
{
    text.chars()
        .map(|character| narrow(character))
        .collect(alloc)
}

fn narrow(character: char) -> u8
    ensures { result ≡ narrow character }
{
    if character as u32 <= 255 {
        character as u32 as u8
    } else {
        b'?'
    }
}

#[tactic(auto, unfolding(crate::specs::Lines::without_comment))]
fn without_comment(text: &[u8]) -> &[u8]
    ensures { result.now ≡ without_comment text.now }
{
    before_blanks(text.split_at(comment_len(text)).0)
}

fn comment_len(text: &[u8]) -> usize
    ensures value { result ≡ comment_len false text.now }
    ensures within { result ≤ length text.now }
{
    let mut escaped = false;
    for (i, byte) in text.iter().enumerate() {
        if *byte == b'%' && !escaped {
            return i;
        }
        escaped = *byte == b'\\';
    }
    text.len()
}
