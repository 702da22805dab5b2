ghost use Rattle.std.specs.{Prelude.◌≡◌, Prelude.◌≤◌, Prelude.length, Prelude.drop, List.prefix_len};
ghost use Rattle.abc_lines.specs.Kinds.{is_blank, is_letter, is_music_letter, begins_bar, is_field, is_percent_line};
ghost use Rattle.abc_lines.specs.Kinds.{field_kind, kind_of, after_blanks, field_text};

use crate::book::Line;
use mus_units::bytes::{after_blanks, is_letter};

/// The kind of a line, determined by its first bytes. A field begins with a letter and a colon, a directive with `%%`
/// or `I:`, and every other line is music. A letter A to G, a to g, x, y or z before `:|` or `::` is music too.
#[derive(Clone, Copy, PartialEq, Eq)]
pub enum LineKind {
    Field { letter: u8 },
    Directive,
    Music,
}

/// Returns the kind of a line. Takes no memory.
pub fn kind_of(line: &Line) -> LineKind
    ensures { result ≡ kind_of line.now.text }
{
    let text = line.text.as_slice();
    if is_percent_line(text) {
        return LineKind::Directive;
    }
    match text.split_first() {
        Some((letter, _)) if is_field(text) => field_kind(*letter),
        _ => LineKind::Music,
    }
}

/// Returns the text of a field or a directive: the rest after its first two bytes and the spaces and tabs that follow
/// them. Takes no memory.
pub fn field_text(line: &Line) -> &[u8]
    ensures { result.now ≡ field_text line.now.text }
{
    after_blanks(after_two(line.text.as_slice()))
}

fn field_kind(letter: u8) -> LineKind
    ensures { result ≡ field_kind letter }
{
    if letter == b'I' {
        LineKind::Directive
    } else {
        LineKind::Field { letter }
    }
}

/// Returns whether a line begins with two percent signs.
pub(crate) fn is_percent_line(text: &[u8]) -> bool
    ensures { result ≡ is_percent_line text.now }
{
    let Some((first, rest)) = text.split_first() else {
        return false;
    };
    let Some((second, _)) = rest.split_first() else {
        return false;
    };
    *first == b'%' && *second == b'%'
}

/// Returns whether a line begins with a letter and a colon, but not with a letter of music before a bar.
pub(crate) fn is_field(text: &[u8]) -> bool
    ensures { result ≡ is_field text.now }
{
    let Some((letter, rest)) = text.split_first() else {
        return false;
    };
    let Some((colon, rest)) = rest.split_first() else {
        return false;
    };
    is_letter(*letter) && *colon == b':' && !(is_music_letter(*letter) && begins_bar(rest))
}

fn is_music_letter(byte: u8) -> bool
    ensures { result ≡ is_music_letter byte }
{
    (byte >= b'A' && byte <= b'G')
        || (byte >= b'a' && byte <= b'g')
        || (byte >= b'x' && byte <= b'z')
}

fn begins_bar(text: &[u8]) -> bool
    ensures { result ≡ begins_bar text.now }
{
    match text.split_first() {
        Some((first, _)) => *first == b'|' || *first == b':',
        None => false,
    }
}

/// Returns the rest after the first two bytes.
pub(crate) fn after_two(text: &[u8]) -> &[u8]
    ensures { result.now ≡ drop 2 text.now }
{
    match text.split_at_checked(2) {
        Some((_, rest)) => rest,
        None => &[],
    }
}
