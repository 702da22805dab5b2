ghost use Rattle.std.specs.Prelude.{◌≡◌, ◌≤◌, ◌^◌, length, option_map, Some, IfSome};
ghost use Rattle.std.specs.List.{prefix_len};
ghost use Rattle.abc_notes.specs.Decorations.{is_name_byte};
ghost use Rattle.abc_notes.specs.Items.{is_passed_inside, is_note_byte, item_class, name_at, closed_name, inner_at};
ghost use Rattle.abc_notes.specs.Items.{sense, sense_of, sensed, dot_inside, named_or};
ghost use Rattle.abc_notes.specs.Runs.{span_all, is_note_letter};

use crate::decoration::is_deco_letter;
use crate::note::note_at;
use crate::part::{InnerPiece, ItemClass};
use mus_units::bytes::is_blank;

/// Reads the part of a chord or a grace group at the start, as long as it can be, and returns it with the rest. If
/// `bang` is set, `!` is a line break.
#[tactic(auto, unfolding(crate::specs::Items::inner_at))]
pub fn item_at(bang: bool, bytes: &[u8]) -> Option<(InnerPiece<'_>, &[u8])>
    requires { length bytes.now ≤ 2 ^ 30 }
    ensures { option_map (λ x. sensed (sense_of x.0) x.1.now) result
        ≡ option_map (λ z. sensed (sense z.0) z.1) (inner_at bang bytes.now) }
{
    let (first, rest) = bytes.split_first()?;
    match item_class(*first) {
        ItemClass::Note => {
            let (head, len, rest) = note_at(bytes)?;
            Some((InnerPiece::Note { head, len }, rest))
        }
        ItemClass::Dot => Some(dot_inside(rest)),
        ItemClass::Letter => Some((InnerPiece::Letter(*first), rest)),
        ItemClass::Tie => Some((InnerPiece::Tie, rest)),
        ItemClass::Passed => Some((InnerPiece::Passed, rest)),
        ItemClass::Bang => { if bang { None } else { Some(named_or(rest)) } }
        ItemClass::Nothing => None,
    }
}

fn dot_inside(bytes: &[u8]) -> (InnerPiece<'_>, &[u8])
    ensures { Some (sensed (sense_of result.0) result.1.now)
        ≡ option_map (λ z. sensed (sense z.0) z.1) (dot_inside bytes.now) }
{
    match bytes.split_first() {
        None => (InnerPiece::Letter(b'.'), bytes),
        Some((first, rest)) => {
            if *first == b'(' {
                (InnerPiece::Passed, rest)
            } else if *first == b'-' {
                (InnerPiece::Tie, rest)
            } else {
                (InnerPiece::Letter(b'.'), bytes)
            }
        }
    }
}

fn named_or(bytes: &[u8]) -> (InnerPiece<'_>, &[u8])
    ensures { Some (sensed (sense_of result.0) result.1.now)
        ≡ option_map (λ z. sensed (sense z.0) z.1) (named_or (name_at bytes.now) bytes.now) }
{
    match name_at(bytes) {
        Some((name, rest)) => (InnerPiece::Named(name), rest),
        None => (InnerPiece::Passed, bytes),
    }
}

/// Reads a name and the exclamation mark after it, and returns the name with the rest.
#[tactic(auto, unfolding(crate::specs::Items::name_at, crate::specs::Runs::span_all))]
pub fn name_at(bytes: &[u8]) -> Option<(&[u8], &[u8])>
    ensures read { option_map (λ x. (x.0.now, x.1.now)) result ≡ name_at bytes.now }
    ensures within { IfSome result (λ x. length x.0.now ≤ length bytes.now) }
{
    let (name, rest) = bytes.split_at(name_len(bytes));
    closed_name(name, rest)
}

fn closed_name<'a>(name: &'a [u8], rest: &'a [u8]) -> Option<(&'a [u8], &'a [u8])>
    ensures read { option_map (λ x. (x.0.now, x.1.now)) result ≡ closed_name name.now rest.now }
    ensures same { IfSome result (λ x. x.0.now ≡ name.now) }
{
    name.split_first()?;
    let (mark, rest) = rest.split_first()?;
    if *mark == b'!' {
        Some((name, rest))
    } else {
        None
    }
}

fn name_len(bytes: &[u8]) -> usize
    ensures value { result ≡ prefix_len is_name_byte bytes.now }
    ensures within { result ≤ length bytes.now }
{
    bytes.iter().take_while(|byte| is_name_byte(**byte)).count()
}

fn is_name_byte(byte: u8) -> bool
    ensures { result ≡ is_name_byte byte }
{
    !(is_blank(byte) || byte == b'!' || byte == b'|')
}

#[tactic(auto, unfolding(crate::specs::Items::item_class))]
fn item_class(byte: u8) -> ItemClass
    ensures { result ≡ item_class byte }
{
    if is_note_byte(byte) {
        ItemClass::Note
    } else if byte == b'.' {
        ItemClass::Dot
    } else if is_deco_letter(byte) {
        ItemClass::Letter
    } else if byte == b'-' {
        ItemClass::Tie
    } else if is_passed_inside(byte) {
        ItemClass::Passed
    } else if byte == b'!' {
        ItemClass::Bang
    } else {
        ItemClass::Nothing
    }
}

/// Returns whether a note may begin with this byte.
pub fn is_note_byte(byte: u8) -> bool
    ensures { result ≡ is_note_byte byte }
{
    is_note_letter(byte) || byte == b'^' || byte == b'_' || byte == b'='
}

fn is_note_letter(byte: u8) -> bool
    ensures { result ≡ is_note_letter byte }
{
    matches!(byte, b'A'..=b'G' | b'a'..=b'g')
}

fn is_passed_inside(byte: u8) -> bool
    ensures { result ≡ is_passed_inside byte }
{
    is_blank(byte) || byte == b'(' || byte == b')'
}
