ghost use Rattle.std.specs.Prelude.{◌≡◌, ◌≤◌, ◌+◌, ◌^◌, ◌++◌, ◌||◌, ◌&&◌, ◌-◌, not, ◌==◌, map, ℕ, length, option_map};
ghost use Rattle.std.specs.Prelude.{Some, None, true, false, IfOk, IfSome, OnOk, MatchResult, take, drop};
ghost use Rattle.std.specs.List.{prefix_len};
ghost use Rattle.abc_notes.specs.Chords.{is_inside, has_inner_head, tied_if, heads_of, decos_of, senses, last_head};
ghost use Rattle.abc_notes.specs.Chords.{tie_last, heads_after, given_head, next_last, deco_of, chord_at, bracket_at};
ghost use Rattle.abc_notes.specs.Chords.{bracket_here, bracket_in, bracket_in_name, is_bracket, chord_shown};
ghost use Rattle.abc_notes.specs.Chords.{ChordFault};
ghost use Rattle.abc_notes.specs.Graces.{heads_in, plain_head};
ghost use Rattle.abc_notes.specs.Items.{InnerFlawed, inner_at, inner_flaw, name_at, sense, sense_of, is_inner_note};
ghost use Rattle.abc_notes.specs.Lengths.{len_of};
ghost use Rattle.abc_notes.specs.Parts.{walk, is_done, goes_on_length, length_at_place, later_or};
ghost use Rattle.abc_notes.specs.Runs.{span_all, begins};

use crate::decoration::{deco_of_letter, deco_of_name};
use crate::item::{item_at, name_at};
use crate::length::length_from;
use crate::part::{Flaw, InnerPiece, Len};
use abc_lines::FaultKind;
use mus_units::bytes::is_digit;
use mus_units::{Deco, Head, Memory, Row};
use std::alloc::Global;

/// Returns whether the inside of a chord has a head, or its first fault.
pub fn inside_state(bang: bool, inside: &[u8]) -> Result<bool, Flaw>
    requires { length inside.now ≤ 2 ^ 30 }
    ensures { MatchResult result
        (λ head.
        (is_done (walk (inner_at bang) inside.now) ≡ true)
        × (head ≡ has_inner_head (walk (inner_at bang) inside.now).0))
        (λ flaw.
        (is_done (walk (inner_at bang) inside.now) ≡ false)
        × InnerFlawed bang None inside.now flaw
        × (flaw.left ≤ length inside.now)) }
{
    let mut rest = inside;
    let mut before = None;
    let mut head = false;
    'parts: while let Some((byte, _)) = rest.split_first() {
        let here = rest.len();
        let Some((item, following)) = item_at(bang, rest) else {
            return Err(inner_flaw(before, *byte, here));
        };
        let note = is_inner_note(item);
        head = either(head, note);
        before = place_if(note, here);
        rest = following;
    }
    Ok(head)
}

/// Returns whether one of the two holds.
pub fn either(one: bool, other: bool) -> bool
    ensures { result ≡ (one || other) }
{
    one || other
}

/// Returns the place of a part, if it has a length.
pub fn place_if(lengthy: bool, here: usize) -> Option<usize>
    ensures { result ≡ length_at_place lengthy here }
{
    if lengthy { Some(here) } else { None }
}

/// Returns whether the piece is a note.
pub fn is_inner_note(item: InnerPiece<'_>) -> bool
    ensures { result ≡ is_inner_note (sense_of item.entry) }
{
    match item {
        InnerPiece::Note { .. } => true,
        _ => false,
    }
}

fn inner_flaw(before: Option<usize>, byte: u8, here: usize) -> Flaw
    ensures { result ≡ inner_flaw before byte here }
{
    match before {
        Some(at) if goes_on_length(byte) => Flaw {
            kind: FaultKind::BadLength,
            left: at,
        },
        _ => Flaw {
            kind: FaultKind::BadByte,
            left: here,
        },
    }
}

/// Returns whether a byte continues a length.
pub fn goes_on_length(byte: u8) -> bool
    ensures { result ≡ goes_on_length byte }
{
    is_digit(byte) || byte == b'/'
}

/// Returns the inside of a chord up to its closing bracket, and the rest.
#[tactic(auto, unfolding(crate::specs::Runs::span_all))]
pub fn bracketed(bytes: &[u8]) -> (&[u8], &[u8])
    ensures read { (result.0.now, result.1.now) ≡ span_all is_inside bytes.now }
    ensures within { length result.0.now ≤ length bytes.now }
    ensures parts { length result.0.now + length result.1.now ≡ length bytes.now }
{
    bytes.split_at(inside_len(bytes))
}

fn inside_len(bytes: &[u8]) -> usize
    ensures value { result ≡ prefix_len is_inside bytes.now }
    ensures within { result ≤ length bytes.now }
{
    bytes.iter().take_while(|byte| **byte != b']').count()
}

/// Returns the heads of a chord, in the order of the text.
pub fn read_heads(alloc: Global, bang: bool, inside: &[u8]) -> Result<Row<(Head, Len)>, Memory>
    requires { length inside.now ≤ 2 ^ 30 }
    ensures { IfOk result (λ heads. heads ≡ heads_of (senses bang inside.now)) }
{
    let mut heads = Row::new(alloc);
    let mut last = None;
    let mut rest = inside;
    'parts: while let Some((item, following)) = item_at(bang, rest) {
        last = add_head(&mut heads, last, item)?;
        rest = following;
    }
    add_last(&mut heads, last)?;
    Ok(heads)
}

/// Returns the heads inside a chord, without ties, in the order of the text.
pub fn read_plain_heads(alloc: Global, bang: bool, inside: &[u8]) -> Result<Row<Head>, Memory>
    requires { length inside.now ≤ 2 ^ 30 }
    ensures { IfOk result (λ heads. heads ≡ heads_in (senses bang inside.now)) }
{
    let mut heads = Row::new(alloc);
    let mut rest = inside;
    'parts: while let Some((item, following)) = item_at(bang, rest) {
        add_plain_head(&mut heads, item)?;
        rest = following;
    }
    Ok(heads)
}

fn add_plain_head(heads: &mut Row<Head>, item: InnerPiece<'_>) -> Result<(), Memory>
    ensures { OnOk result (heads.new ≡ heads.old ++ plain_head (sense_of item.entry)) }
{
    match item {
        InnerPiece::Note { head, .. } => heads.push(head),
        _ => Ok(()),
    }
}

/// Adds the head before a part if no tie can reach that head any more, and returns the head that a tie may still
/// reach.
fn add_head(
    heads: &mut Row<(Head, Len)>,
    last: Option<(Head, Len)>,
    item: InnerPiece<'_>,
) -> Result<Option<(Head, Len)>, Memory>
    ensures heads { OnOk result (heads.new ≡ heads.old ++ given_head last (sense_of item.entry)) }
    ensures last { IfOk result (λ it. it ≡ next_last last (sense_of item.entry)) }
{
    match item {
        InnerPiece::Note { head, len } => {
            add_last(heads, last)?;
            Ok(Some((tied_if(false, head), len)))
        }
        InnerPiece::Tie => Ok(tie_last(last)),
        InnerPiece::Letter(_) | InnerPiece::Named(_) | InnerPiece::Passed => Ok(last),
    }
}

fn add_last(heads: &mut Row<(Head, Len)>, last: Option<(Head, Len)>) -> Result<(), Memory>
    ensures { OnOk result (heads.new ≡ heads.old ++ last_head last) }
{
    match last {
        None => Ok(()),
        Some(head) => heads.push(head),
    }
}

fn tie_last(last: Option<(Head, Len)>) -> Option<(Head, Len)>
    ensures { result ≡ tie_last last }
{
    match last {
        None => None,
        Some((head, len)) => Some((tied_if(true, head), len)),
    }
}

fn tied_if(tied: bool, head: Head) -> Head
    ensures { result ≡ tied_if tied head }
{
    Head {
        pitch: head.pitch,
        sign: head.sign,
        tied,
    }
}

/// Returns the decorations inside a chord, in the order of the text.
pub fn read_decos(alloc: Global, bang: bool, inside: &[u8]) -> Result<Row<Deco>, Memory>
    requires { length inside.now ≤ 2 ^ 30 }
    ensures { IfOk result (λ decos. decos ≡ decos_of (senses bang inside.now)) }
{
    let mut decos = Row::new(alloc);
    let mut rest = inside;
    'parts: while let Some((item, following)) = item_at(bang, rest) {
        add_deco(alloc, &mut decos, item)?;
        rest = following;
    }
    Ok(decos)
}

fn add_deco(alloc: Global, decos: &mut Row<Deco>, item: InnerPiece<'_>) -> Result<(), Memory>
    ensures { OnOk result (decos.new ≡ decos.old ++ deco_of (sense_of item.entry)) }
{
    match item {
        InnerPiece::Letter(byte) => decos.push(deco_of_letter(alloc, byte)?),
        InnerPiece::Named(name) => decos.push(deco_of_name(alloc, name)?),
        InnerPiece::Note { .. } | InnerPiece::Tie | InnerPiece::Passed => Ok(()),
    }
}

/// A chord that was read: the text between its brackets, its length, and the rest after it.
#[derive(Clone, Copy)]
pub struct Chord<'a> {
    pub inside: &'a [u8],
    pub len: Len,
    pub rest: &'a [u8],
}

/// Reads the chord after an opening bracket, as long as it can be.
#[tactic(auto, unfolding(crate::specs::Chords::chord_at))]
pub fn chord_at(bang: bool, bytes: &[u8]) -> Option<Chord<'_>>
    requires { length bytes.now ≤ 2 ^ 30 }
    ensures read { option_map (λ x. chord_shown (senses bang x.inside.now) x.len x.inside.now x.rest.now) result
        ≡ option_map (λ z. chord_shown (map sense z.0.parts) (len_of z.0.length) z.0.inside z.1)
        (chord_at bang bytes.now) }
    ensures within { IfSome result (λ x. length x.inside.now ≤ length bytes.now) }
{
    let closing = bracket_at(bang, bytes)?;
    let (_, rest) = closing.split_first()?;
    let (inside, _) = bytes.split_at(bytes.len() - closing.len());
    let (len, rest) = length_from(rest);
    Some(Chord { inside, len, rest })
}

/// Returns the closing bracket of the longest chord after an opening bracket, and the rest after it.
fn bracket_at(bang: bool, bytes: &[u8]) -> Option<&[u8]>
    requires { length bytes.now ≤ 2 ^ 30 }
    ensures read { option_map (λ x. x.now) result ≡ bracket_at bang bytes.now }
    ensures within { IfSome result (λ x. length x.now ≤ length bytes.now) }
{
    let mut rest = bytes;
    let mut head = false;
    let mut last = None;
    'parts: while let Some((item, following)) = item_at(bang, rest) {
        last = later_or(bracket_in_name(bang, head, rest), last);
        head = either(head, is_inner_note(item));
        rest = following;
    }
    later_or(bracket_here(head, rest), last)
}

/// Returns the later one if there is one, otherwise the earlier one.
pub fn later_or<'a>(later: Option<&'a [u8]>, earlier: Option<&'a [u8]>) -> Option<&'a [u8]>
    ensures { option_map (λ x. x.now) result
        ≡ later_or (option_map (λ x. x.now) later.entry) (option_map (λ x. x.now) earlier.entry) }
{
    match later {
        Some(_) => later,
        None => earlier,
    }
}

/// Returns the closing bracket at the start, if there is one and a head before it.
fn bracket_here(head: bool, bytes: &[u8]) -> Option<&[u8]>
    ensures { option_map (λ x. x.now) result ≡ bracket_here head bytes.now }
{
    match bytes.split_first() {
        Some((byte, _)) if *byte == b']' && head => Some(bytes),
        _ => None,
    }
}

/// Returns the bracket that closes the chord if the leading exclamation mark begins no name.
#[tactic(auto, unfolding(crate::specs::Chords::bracket_in_name))]
pub fn bracket_in_name(bang: bool, head: bool, bytes: &[u8]) -> Option<&[u8]>
    requires { length bytes.now ≤ 2 ^ 30 }
    ensures { option_map (λ x. x.now) result ≡ bracket_in_name bang head bytes.now }
{
    match bytes.split_first() {
        Some((mark, following)) if *mark == b'!' && !bang => bracket_in(bang, head, following),
        _ => None,
    }
}

fn bracket_in(bang: bool, head: bool, bytes: &[u8]) -> Option<&[u8]>
    requires { length bytes.now ≤ 2 ^ 30 }
    ensures { option_map (λ x. x.now) result ≡ bracket_in bang head bytes.now (name_at bytes.now) }
{
    let (name, _) = name_at(bytes)?;
    let (inside, closing) = bracketed(name);
    if !closing.is_empty() && is_good_inside(bang, head, inside) {
        Some(bytes.split_at(inside.len()).1)
    } else {
        None
    }
}

fn is_good_inside(bang: bool, head: bool, inside: &[u8]) -> bool
    requires { length inside.now ≤ 2 ^ 30 }
    ensures { let w = walk (inner_at bang) inside.now in result ≡ (is_done w && (head || has_inner_head w.0)) }
{
    match inside_state(bang, inside) {
        Ok(note) => head || note,
        Err(_) => false,
    }
}

/// Returns the fault after an opening bracket where there is no chord.
pub fn chord_fault(bang: bool, bytes: &[u8]) -> Flaw
    requires small { length bytes.now ≤ 2 ^ 30 }
    requires none { chord_at bang bytes.now ≡ None }
    ensures fault { ChordFault bang bytes.now result }
    ensures within { result.left ≤ length bytes.now + 1 }
{
    if bracketed(bytes).1.is_empty() {
        return Flaw {
            kind: FaultKind::Unclosed,
            left: bytes.len() + 1,
        };
    }
    match inside_state(bang, bytes) {
        Ok(_) => Flaw {
            kind: FaultKind::Unclosed,
            left: bytes.len() + 1,
        },
        Err(_) if begins_with_bracket(after_parts(bang, bytes)) => Flaw {
            kind: FaultKind::BadByte,
            left: bytes.len() + 1,
        },
        Err(flaw) => flaw,
    }
}

fn begins_with_bracket(bytes: &[u8]) -> bool
    ensures { result ≡ begins is_bracket bytes.now }
{
    match bytes.split_first() {
        Some((byte, _)) => *byte == b']',
        None => false,
    }
}

/// Returns what is left of the line where the parts of a chord end.
fn after_parts(bang: bool, bytes: &[u8]) -> &[u8]
    requires { length bytes.now ≤ 2 ^ 30 }
    ensures { result.now ≡ (walk (inner_at bang) bytes.now).1 }
{
    let mut rest = bytes;
    'parts: while let Some((_, following)) = item_at(bang, rest) {
        rest = following;
    }
    rest
}
