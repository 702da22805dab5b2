ghost use Rattle.std.specs.Prelude.{◌≤◌, length};

use crate::error::{CaseError, Mistake};

/// A case: its name, which says what it shows; its call, with the words after it; its input; and the value that is
/// expected. The input and the value stand as they are written.
#[derive(Clone, Copy)]
pub struct Case<'a> {
    pub name: &'a str,
    pub call: &'a str,
    pub word: &'a str,
    pub input: &'a str,
    pub expected: &'a str,
}

/// Returns whether a paragraph of a table is a comment.
pub fn is_comment(paragraph: &str) -> bool {
    paragraph.lines().all(|line| line.starts_with('#'))
}

/// Returns the case that a paragraph says: a line of its name, a line of its call, the lines of its input, a line `=`,
/// and the lines of the value that is expected.
pub fn case_of(paragraph: &str) -> Result<Case<'_>, CaseError> {
    if paragraph.starts_with('#') {
        return Err(CaseError::Wrong(Mistake::JoinedComment));
    }
    let (asked, expected) = parts_of(paragraph)?;
    let (name, rest) = asked
        .split_once("\n")
        .ok_or(CaseError::Wrong(Mistake::NoCall))?;
    if name.is_empty() {
        return Err(CaseError::Wrong(Mistake::EmptyLine));
    }
    let (line, input) = cut(rest, "\n");
    let (call, word) = cut(line, " ");
    Ok(Case {
        name,
        call,
        word,
        input,
        expected,
    })
}

/// Returns what is before and after the line `=` of a paragraph.
fn parts_of(paragraph: &str) -> Result<(&str, &str), CaseError> {
    match paragraph.split_once("\n=\n") {
        Some(parts) => Ok(parts),
        None => match paragraph.strip_suffix("\n=") {
            Some(asked) => Ok((asked, "")),
            None => Err(CaseError::Wrong(Mistake::NoValue)),
        },
    }
}

/// Returns the text before and after a mark.
pub fn cut<'a>(text: &'a str, mark: &str) -> (&'a str, &'a str) {
    text.split_once(mark).unwrap_or((text, ""))
}

/// Returns at most the first million bytes: no case is longer.
pub fn within_limit(bytes: &[u8]) -> &[u8]
    ensures { length result.now ≤ 1000000 }
{
    let (prefix, _) = bytes.split_at(bytes.len().min(1_000_000));
    prefix
}
