ghost use Rattle.std.specs.Prelude.{◌≡◌, ◌≢◌, ◌≤◌, ◌<◌, ◌+◌, ◌-◌, ◌^◌, ◌++◌, ◌&&◌, ◌==◌, not, take, drop, [], length};
ghost use Rattle.std.specs.Prelude.{option_map, map, None, Some, true, false, IfOk, OnOk, IfSome, MatchOption};
ghost use Rattle.std.specs.List.{prefix_len};
ghost use Rattle.abc_notes.specs.Graces.{body_of_part, body_of_sense, body_of, part_has_length, IsGraceOwn, IsPartFlaw};
ghost use Rattle.abc_notes.specs.Graces.{GraceFlawed, GraceFault, is_in_grace, grace_part_at, brace_here, brace_in};
ghost use Rattle.abc_notes.specs.Graces.{brace_in_name, brace_in_item, brace_in_chord, brace_between, stands_after};
ghost use Rattle.abc_notes.specs.Graces.{at_most_bytes, IsItemAt, brace_at, grace_at, bodied, body_of_item};
ghost use Rattle.abc_notes.specs.Graces.{inside_of_item, inside_of_part, item_has_length, body_inside, grace_shown};
ghost use Rattle.abc_notes.specs.Graces.{item_within, goes_on_first};
ghost use Rattle.abc_notes.specs.Items.{sense_of, name_at, inner_at};
ghost use Rattle.abc_notes.specs.Parts.{walk, is_done, later_or};
ghost use Rattle.abc_notes.specs.Runs.{span_all};

use crate::bytes::skip;
use crate::chord::{
    bracket_in_name, chord_at, chord_fault, either, goes_on_length, is_inner_note, later_or,
    place_if, read_plain_heads,
};
use crate::item::{item_at, name_at};
use crate::length::length_from;
use crate::part::{Flaw, GraceChord, GracePiece, InnerPiece};
use abc_lines::FaultKind;
use mus_units::{Memory, Row};
use std::alloc::Global;

/// Returns the part of a grace group at the start, as long as it can be, and the rest after it.
#[tactic(auto, unfolding(crate::specs::Graces::grace_part_at))]
pub fn grace_part_at(bang: bool, bytes: &[u8]) -> Option<(GracePiece<'_>, &[u8])>
    requires { length bytes.now ≤ 2 ^ 30 }
    ensures read { option_map (λ x. bodied (body_of_item bang x.0) (item_has_length x.0) (inside_of_item x.0) x.1.now)
        result
        ≡ option_map (λ z. bodied (body_of_part z.0) (part_has_length z.0) (inside_of_part z.0) z.1)
        (grace_part_at bang bytes.now) }
    ensures within { IfSome result (λ x. item_within x.0 (length bytes.now)) }
{
    let (first, rest) = bytes.split_first()?;
    if *first == b'[' {
        let chord = chord_at(bang, rest)?;
        Some((GracePiece::Chord(chord.inside), chord.rest))
    } else {
        let (item, rest) = item_at(bang, bytes)?;
        Some((GracePiece::Part(item), rest))
    }
}

/// Returns the first fault of the inside of a grace group, if it has one.
fn grace_state(bang: bool, inside: &[u8]) -> Option<Flaw>
    requires { length inside.now ≤ 2 ^ 30 }
    ensures { MatchOption result (is_done (walk (grace_part_at bang) inside.now) ≡ true) (λ flaw.
        (is_done (walk (grace_part_at bang) inside.now) ≡ false)
        × GraceFlawed bang None inside.now flaw
        × (flaw.left ≤ length inside.now)) }
{
    let mut rest = inside;
    let mut before = None;
    'parts: while !rest.is_empty() {
        let here = rest.len();
        let Some((part, following)) = grace_part_at(bang, rest) else {
            return Some(part_flaw(bang, before, rest));
        };
        before = place_if(has_length(part), here);
        rest = following;
    }
    None
}

fn has_length(part: GracePiece<'_>) -> bool
    ensures { result ≡ item_has_length part.entry }
{
    match part {
        GracePiece::Part(InnerPiece::Note { .. }) => true,
        GracePiece::Part(_) => false,
        GracePiece::Chord(_) => true,
    }
}

/// Returns the fault where there is no part; `before` is the place of a length before it.
fn part_flaw(bang: bool, before: Option<usize>, bytes: &[u8]) -> Flaw
    requires small { length bytes.now ≤ 2 ^ 30 }
    requires some { length bytes.now ≢ 0 }
    requires none { grace_part_at bang bytes.now ≡ None }
    ensures flaw { IsPartFlaw bang before bytes.now result }
    ensures within { MatchOption before (result.left ≤ length bytes.now)
        (λ at. length bytes.now ≤ at → result.left ≤ at) }
{
    match before {
        Some(at) if goes_on_with_length(bytes) => Flaw {
            kind: FaultKind::BadLength,
            left: at,
        },
        _ => own_flaw(bang, bytes),
    }
}

fn goes_on_with_length(bytes: &[u8]) -> bool
    ensures { result ≡ goes_on_first bytes.now }
{
    match bytes.split_first() {
        Some((byte, _)) => goes_on_length(*byte),
        None => false,
    }
}

fn own_flaw(bang: bool, bytes: &[u8]) -> Flaw
    requires small { length bytes.now ≤ 2 ^ 30 }
    requires some { length bytes.now ≢ 0 }
    requires none { grace_part_at bang bytes.now ≡ None }
    ensures flaw { IsGraceOwn bang bytes.now result }
    ensures within { result.left ≤ length bytes.now }
{
    match bytes.split_first() {
        Some((byte, rest)) if *byte == b'[' => chord_fault(bang, rest),
        _ => Flaw {
            kind: FaultKind::BadByte,
            left: bytes.len(),
        },
    }
}

/// A grace group that was read: whether it has a slash, the text between its braces, and the rest after it.
#[derive(Clone, Copy)]
pub struct Grace<'a> {
    pub slash: bool,
    pub inside: &'a [u8],
    pub rest: &'a [u8],
}

/// Reads the grace group after an opening brace.
#[tactic(auto, unfolding(crate::specs::Graces::grace_at))]
pub fn grace_at(bang: bool, bytes: &[u8]) -> Option<Grace<'_>>
    requires { length bytes.now ≤ 2 ^ 30 }
    ensures read { option_map (λ x. grace_shown x.slash (body_inside bang x.inside.now) x.inside.now x.rest.now) result
        ≡ option_map (λ z. grace_shown z.0.slash (body_of z.0.parts) z.0.inside z.1) (grace_at bang bytes.now) }
    ensures within { IfSome result (λ x. length x.inside.now ≤ length bytes.now) }
{
    let (slash, following) = skip(b'/', bytes);
    let closing = brace_at(bang, following)?;
    let (_, rest) = closing.split_first()?;
    let (inside, _) = following.split_at(following.len() - closing.len());
    Some(Grace {
        slash,
        inside,
        rest,
    })
}

/// Returns the closing brace of the longest grace group whose parts begin here, and the rest after it.
#[cycle(braces)]
fn brace_at(bang: bool, bytes: &[u8]) -> Option<&[u8]>
    requires { length bytes.now ≤ 2 ^ 30 }
    ensures read { option_map (λ x. x.now) result ≡ brace_at bang bytes.now }
    ensures within { IfSome result (λ x. length x.now ≤ length bytes.now) }
{
    let mut rest = bytes;
    let mut last = None;
    'parts: while let Some((part, following)) = grace_part_at(bang, rest) {
        last = later_or(brace_in_part(bang, part, rest), last);
        rest = following;
    }
    later_or(brace_here(rest), last)
}

/// Returns the last closing brace within the first part at which a group may end.
#[cycle(braces)]
fn brace_in_part<'a>(bang: bool, part: GracePiece<'a>, bytes: &'a [u8]) -> Option<&'a [u8]>
    requires small { length bytes.now ≤ 2 ^ 30 }
    requires chord { IsItemAt bang part bytes.now }
    ensures { option_map (λ x. x.now) result ≡ brace_in_item bang part.entry bytes.now }
{
    match part {
        GracePiece::Part(_) => brace_in_name(bang, bytes),
        GracePiece::Chord(inside) => {
            let brace = brace_in_chord(bang, inside)?;
            Some(bytes.split_at(inside.len() + 1 - brace.len()).1)
        }
    }
}

/// Returns the last closing brace inside a chord at which a group that begins with the bracket of the chord may end.
/// Most chords contain no brace.
#[cycle(braces)]
fn brace_in_chord(bang: bool, inside: &[u8]) -> Option<&[u8]>
    requires small { length inside.now ≤ 2 ^ 30 }
    requires good { is_done (walk (inner_at bang) inside.now) ≡ true }
    ensures read { option_map (λ x. x.now) result ≡ brace_in_chord bang inside.now }
    ensures within { IfSome result (λ x. length x.now ≤ length inside.now) }
{
    if braced(inside).1.is_empty() {
        None
    } else {
        brace_after_chords(bang, inside)
    }
}

/// Returns the same, looking after each of the shorter chords that begin here.
#[cycle(braces)]
fn brace_after_chords(bang: bool, inside: &[u8]) -> Option<&[u8]>
    requires small { length inside.now ≤ 2 ^ 30 }
    requires good { is_done (walk (inner_at bang) inside.now) ≡ true }
    ensures read { option_map (λ x. x.now) result ≡ brace_in_chord bang inside.now }
    ensures within { IfSome result (λ x. length x.now ≤ length inside.now) }
{
    let mut rest = inside;
    let mut head = false;
    let mut bracket = None;
    let mut last = None;
    'parts: while let Some((item, following)) = item_at(bang, rest) {
        let closing = bracket_in_name(bang, head, rest);
        last = later_or(brace_between(bang, bracket, closing), last);
        bracket = later_or(closing, bracket);
        head = either(head, is_inner_note(item));
        rest = following;
    }
    later_or(brace_between(bang, bracket, Some(rest)), last)
}

/// Returns the last closing brace at which a group may end, after the chord that ends at the bracket and before the
/// closing byte of a longer one.
#[cycle(braces)]
fn brace_between<'a>(
    bang: bool,
    bracket: Option<&'a [u8]>,
    closing: Option<&'a [u8]>,
) -> Option<&'a [u8]>
    requires small { at_most_bytes (2 ^ 30) (option_map (λ x. x.now) bracket) }
    requires following { stands_after (option_map (λ x. x.now) bracket) (option_map (λ x. x.now) closing) }
    ensures { option_map (λ x. x.now) result
        ≡ brace_between bang (option_map (λ x. x.now) bracket.entry) (option_map (λ x. x.now) closing.entry) }
{
    let closing = closing?;
    let bracket = bracket?;
    brace_past(bang, bracket, closing)
}

#[cycle(braces)]
fn brace_past<'a>(bang: bool, bracket: &'a [u8], closing: &'a [u8]) -> Option<&'a [u8]>
    requires small { length bracket.now ≤ 2 ^ 30 }
    requires following { bracket.now ≡ take (length bracket.now - length closing.now) bracket.now ++ closing.now }
    ensures { option_map (λ x. x.now) result ≡ brace_between bang (Some bracket.now) (Some closing.now) }
{
    let (chord, _) = bracket.split_at(bracket.len() - closing.len());
    let (_, following) = chord.split_first()?;
    let brace = brace_at(bang, length_from(following).1)?;
    Some(bracket.split_at(chord.len() - brace.len()).1)
}

/// Returns the closing brace at the start, if there is one.
fn brace_here(bytes: &[u8]) -> Option<&[u8]>
    ensures { option_map (λ x. x.now) result ≡ brace_here bytes.now }
{
    match bytes.split_first() {
        Some((byte, _)) if *byte == b'}' => Some(bytes),
        _ => None,
    }
}

/// Returns the brace that closes the group if the leading exclamation mark begins no name.
#[tactic(auto, unfolding(crate::specs::Graces::brace_in_name))]
fn brace_in_name(bang: bool, bytes: &[u8]) -> Option<&[u8]>
    requires { length bytes.now ≤ 2 ^ 30 }
    ensures { option_map (λ x. x.now) result ≡ brace_in_name bang bytes.now }
{
    match bytes.split_first() {
        Some((mark, following)) if *mark == b'!' && !bang => brace_in(bang, following),
        _ => None,
    }
}

fn brace_in(bang: bool, bytes: &[u8]) -> Option<&[u8]>
    requires { length bytes.now ≤ 2 ^ 30 }
    ensures { option_map (λ x. x.now) result ≡ brace_in bang bytes.now (name_at bytes.now) }
{
    let (name, _) = name_at(bytes)?;
    let (inside, closing) = braced(name);
    if !closing.is_empty() && is_good_inside(bang, inside) {
        Some(bytes.split_at(inside.len()).1)
    } else {
        None
    }
}

fn is_good_inside(bang: bool, inside: &[u8]) -> bool
    requires { length inside.now ≤ 2 ^ 30 }
    ensures { result ≡ is_done (walk (grace_part_at bang) inside.now) }
{
    match grace_state(bang, inside) {
        None => true,
        Some(_) => false,
    }
}

/// Returns the inside of a grace group up to its closing brace, and the rest.
#[tactic(auto, unfolding(crate::specs::Runs::span_all))]
fn braced(bytes: &[u8]) -> (&[u8], &[u8])
    ensures read { (result.0.now, result.1.now) ≡ span_all is_in_grace bytes.now }
    ensures within { length result.0.now ≤ length bytes.now }
    ensures parts { length result.0.now + length result.1.now ≡ length bytes.now }
{
    bytes.split_at(inside_len(bytes))
}

fn inside_len(bytes: &[u8]) -> usize
    ensures value { result ≡ prefix_len is_in_grace bytes.now }
    ensures within { result ≤ length bytes.now }
{
    bytes.iter().take_while(|byte| **byte != b'}').count()
}

/// Returns the fault after an opening brace where there is no grace group.
pub fn grace_fault(bang: bool, bytes: &[u8]) -> Flaw
    requires small { length bytes.now ≤ 2 ^ 30 }
    requires none { grace_at bang bytes.now ≡ None }
    ensures fault { GraceFault bang bytes.now result }
    ensures within { result.left ≤ length bytes.now + 1 }
{
    if braced(bytes).1.is_empty() {
        return Flaw {
            kind: FaultKind::Unclosed,
            left: bytes.len() + 1,
        };
    }
    let (_, following) = skip(b'/', bytes);
    match grace_state(bang, following) {
        Some(flaw) => flaw,
        None => Flaw {
            kind: FaultKind::Unclosed,
            left: bytes.len() + 1,
        },
    }
}

/// Returns the notes and chords of a grace group, in the order of the text.
pub fn read_body(alloc: Global, bang: bool, inside: &[u8]) -> Result<Row<GraceChord>, Memory>
    requires { length inside.now ≤ 2 ^ 30 }
    ensures { IfOk result (λ body. body ≡ body_inside bang inside.now) }
{
    let mut body = Row::new(alloc);
    let mut rest = inside;
    'parts: while let Some((part, following)) = grace_part_at(bang, rest) {
        add_part(alloc, &mut body, bang, part)?;
        rest = following;
    }
    Ok(body)
}

fn add_part(
    alloc: Global,
    body: &mut Row<GraceChord>,
    bang: bool,
    part: GracePiece<'_>,
) -> Result<(), Memory>
    requires { item_within part (2 ^ 30) }
    ensures { OnOk result (body.new ≡ body.old ++ body_of_item bang part.entry) }
{
    match part {
        GracePiece::Part(item) => add_single(alloc, body, item),
        GracePiece::Chord(inside) => {
            let heads = read_plain_heads(alloc, bang, inside)?;
            body.push(GraceChord { heads })
        }
    }
}

fn add_single(alloc: Global, body: &mut Row<GraceChord>, item: InnerPiece<'_>) -> Result<(), Memory>
    ensures { OnOk result (body.new ≡ body.old ++ body_of_sense (sense_of item.entry)) }
{
    match item {
        InnerPiece::Note { head, .. } => {
            let heads = Row::from_slice(alloc, &[head])?;
            body.push(GraceChord { heads })
        }
        _ => Ok(()),
    }
}
