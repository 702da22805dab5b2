ghost use Rattle.std.specs.Prelude.{◌≡◌, ◌≤◌, ◌^◌, ◌∷◌, [], All, nat_lt, length, flat_map, OnOk, IfOk, IfErr, IfSome};
ghost use Rattle.std.specs.Prelude.{Ok};
ghost use Rattle.abc_music.specs.Good.{AreGoodTokens, IsGoodToken};
ghost use Rattle.abc_items.specs.Good.{IsGoodItem};
ghost use Rattle.abc_items.specs.Voices.{declared_ids};
ghost use Rattle.abc_items.specs.Body.{gives, placed_given, item_of_field, is_line_joined, end_item, item_of_line_end};
ghost use Rattle.abc_items.specs.Body.{
  item_judged,
  MusicGives,
  LineGives,
  BodyGives,
  IsBody,
  IsBodyError,
  IsBodyResult,
};
ghost use Rattle.abc_items.specs.Reading.{maybe_given, Reads, Stops, ReadsSome, StopsBy, LinesStop, judged_as};
ghost use Rattle.abc_items.specs.Reading.{past_fault};
ghost use Rattle.abc_lines.specs.Good.{IsGoodLine, size_of};
ghost use Rattle.abc_lines.specs.Results.{IsOnlyFault, IsOnlyResult};
ghost use Rattle.abc_lines.specs.declared.kind.LineKind.{LineKind};
ghost use Rattle.abc_lines.specs.Kinds.{kind_of};
ghost use Rattle.abc_field.specs.Fields.{field_of};
ghost use Rattle.abc_fields.specs.Voicing.{with_id};

use crate::token::{field_item, token_item};
use crate::voices::{declared_ids, is_mentioned, mention_item};
use abc_field::{Breaks, read_field};
use abc_fields::Header;
use abc_lines::{Fault, FaultKind, Line, LineKind, TuneError, kind_of};
use abc_music::{LineRest, Placed, read_part, start};
use abc_steps::BodyItem;
use mus_units::{Memory, Row, Text};
use std::alloc::Global;

/// The part of a body read so far: the voices that it has mentioned, and its items.
#[derive(Drop)]
pub struct Body {
    pub ids: Row<Text>,
    pub items: Row<BodyItem>,
}

/// Returns the items of a body, or its first fault: a fault of a field or of a music line, or a seventeenth voice.
/// `lines` are the lines of the tune after its header.
pub fn read_body(alloc: Global, header: &Header, lines: &[Line]) -> Result<Row<BodyItem>, TuneError>
    requires { size_of lines.now ≤ 2 ^ 30 }
    ensures items { IfOk result (λ items. IsBody header.now lines.now items) }
    ensures good { IfOk result (λ items. All IsGoodItem items) }
    ensures fault { IfErr result (λ e. IsBodyError header.now lines.now e) }
    // There are no other items, and there is no other first fault.
    ensures only { IfOk result (λ items. IsOnlyResult (IsBodyResult header.now lines.now) (Ok items)) }
    ensures only_fault { IfErr result (λ e. IsOnlyFault (IsBodyResult header.now lines.now) e) }
{
    let mut body = Body {
        ids: declared_ids(alloc, header)?,
        items: Row::with_room(alloc, bytes_of(lines).min(1024))?,
    };
    match read_lines(alloc, header.breaks, lines, &mut body) {
        Ok(()) => Ok(body.items),
        Err(e) => Err(e),
    }
}

/// Returns the number of bytes in some lines, plus one for the end of each.
fn bytes_of(lines: &[Line]) -> usize {
    let mut size: usize = 0;
    for line in lines {
        size = size.saturating_add(line.text.len()).saturating_add(1);
    }
    size
}

fn read_lines(
    alloc: Global,
    breaks: Breaks,
    lines: &[Line],
    body: &mut Body,
) -> Result<(), TuneError>
    requires lines { size_of lines.now ≤ 2 ^ 30 }
    requires before { All IsGoodItem body.old.items }
    ensures reads { OnOk result (ReadsSome (BodyGives breaks lines.now) body.old body.new) }
    ensures stops { IfErr result (λ e. LinesStop breaks lines.now body.old e) }
    ensures good { OnOk result (All IsGoodItem body.new.items) }
{
    for line in lines {
        match read_line(alloc, breaks, line, body) {
            Ok(()) => {}
            Err(e) => return Err(e),
        }
    }
    Ok(())
}

/// Adds the items of a line, up to its first fault.
fn read_line(alloc: Global, breaks: Breaks, line: &Line, body: &mut Body) -> Result<(), TuneError>
    requires line { IsGoodLine line.now }
    requires before { All IsGoodItem body.old.items }
    ensures reads { OnOk result (ReadsSome (LineGives breaks line.now) body.old body.new) }
    ensures stops { IfErr result (λ e. StopsBy (LineGives breaks line.now) body.old e) }
    ensures good { OnOk result (All IsGoodItem body.new.items) }
{
    match kind_of(line) {
        LineKind::Music => read_music_line(alloc, breaks, line, body),
        LineKind::Directive => read_field_line(alloc, line, body),
        LineKind::Field { letter: _ } => read_field_line(alloc, line, body),
    }
}

/// Adds the items of a field or a directive.
fn read_field_line(alloc: Global, line: &Line, body: &mut Body) -> Result<(), TuneError>
    requires before { All IsGoodItem body.old.items }
    ensures reads { OnOk result (Reads body.old (item_of_field (field_of line.now.text) line.now.number 1) body.new) }
    ensures stops { IfErr result (λ e. Stops body.old (item_of_field (field_of line.now.text) line.now.number 1) e) }
    ensures good { OnOk result (All IsGoodItem body.new.items) }
{
    match read_field(alloc, line) {
        Ok(field) => {
            let found = field_item(alloc, field, line.number, 1)?;
            put_found(alloc, body, found)
        }
        Err(e) => Err(e),
    }
}

/// Adds the tokens of a music line up to its first fault, and its end.
fn read_music_line(
    alloc: Global,
    breaks: Breaks,
    line: &Line,
    body: &mut Body,
) -> Result<(), TuneError>
    requires line { IsGoodLine line.now }
    requires before { All IsGoodItem body.old.items }
    ensures reads { OnOk result (ReadsSome (MusicGives breaks line.now) body.old body.new) }
    ensures stops { IfErr result (λ e. StopsBy (MusicGives breaks line.now) body.old e) }
    ensures good { OnOk result (All IsGoodItem body.new.items) }
{
    let mut place = start(line);
    loop {
        let part = read_part(alloc, line, breaks.bang, place)?;
        match put_tokens(alloc, breaks, line, part.tokens, body) {
            Ok(()) => {}
            Err(e) => return Err(e),
        }
        match part.following {
            LineRest::More(next) => place = next,
            LineRest::End(fault) => return put_end(alloc, breaks, line, fault, body),
        }
    }
}

fn put_tokens(
    alloc: Global,
    breaks: Breaks,
    line: &Line,
    tokens: Row<Placed>,
    body: &mut Body,
) -> Result<(), TuneError>
    requires tokens { AreGoodTokens tokens }
    requires before { All IsGoodItem body.old.items }
    ensures reads { OnOk result (Reads body.old (flat_map (placed_given breaks line.now) tokens) body.new) }
    ensures stops { IfErr result (λ e. Stops body.old (flat_map (placed_given breaks line.now) tokens) e) }
    ensures good { OnOk result (All IsGoodItem body.new.items) }
{
    for placed in tokens.items {
        match put_token(alloc, breaks, line, placed, body) {
            Ok(()) => {}
            Err(e) => return Err(e),
        }
    }
    Ok(())
}

fn put_token(
    alloc: Global,
    breaks: Breaks,
    line: &Line,
    placed: Placed,
    body: &mut Body,
) -> Result<(), TuneError>
    requires token { IsGoodToken placed.token }
    requires before { All IsGoodItem body.old.items }
    ensures reads { OnOk result (Reads body.old (placed_given breaks line.now placed) body.new) }
    ensures stops { IfErr result (λ e. Stops body.old (placed_given breaks line.now placed) e) }
    ensures good { OnOk result (All IsGoodItem body.new.items) }
{
    match token_item(alloc, breaks, line, placed.column, placed.token) {
        Ok(found) => put_found(alloc, body, found),
        Err(e) => Err(e),
    }
}

/// Returns whether a music line ends in a backslash.
fn is_line_joined(text: &[u8]) -> bool
    ensures { result ≡ is_line_joined text.now }
{
    text.ends_with(b"\\")
}

fn end_item(breaks: Breaks, line: &Line) -> BodyItem
    requires { IsGoodLine line.now }
    ensures { result ≡ end_item breaks line.now }
{
    let joined = is_line_joined(line.text.as_slice());
    BodyItem::LineEnd {
        joined,
        breaks: breaks.eol && !joined,
        line: line.number,
        column: (line.text.len() + 1) as u32,
    }
}

/// Adds the end of a music line, or returns its fault.
fn put_end(
    alloc: Global,
    breaks: Breaks,
    line: &Line,
    fault: Option<Fault>,
    body: &mut Body,
) -> Result<(), TuneError>
    requires line { IsGoodLine line.now }
    requires before { All IsGoodItem body.old.items }
    ensures reads { OnOk result (Reads body.old (item_of_line_end breaks line.now fault) body.new) }
    ensures stops { IfErr result (λ e. Stops body.old (item_of_line_end breaks line.now fault) e) }
    ensures good { OnOk result (All IsGoodItem body.new.items) }
{
    match fault {
        Some(fault) => Err(TuneError::Fault(fault)),
        None => put_item(alloc, body, end_item(breaks, line)),
    }
}

#[inline(always)]
fn put_found(alloc: Global, body: &mut Body, found: Option<BodyItem>) -> Result<(), TuneError>
    requires found { IfSome found IsGoodItem }
    requires before { All IsGoodItem body.old.items }
    ensures reads { OnOk result (Reads body.old (maybe_given found) body.new) }
    ensures stops { IfErr result (λ e. Stops body.old (maybe_given found) e) }
    ensures good { OnOk result (All IsGoodItem body.new.items) }
{
    match found {
        Some(item) => put_item(alloc, body, item),
        None => Ok(()),
    }
}

/// Adds an item, or returns the fault if it mentions a seventeenth voice.
#[inline(always)]
fn put_item(alloc: Global, body: &mut Body, item: BodyItem) -> Result<(), TuneError>
    requires item { IsGoodItem item }
    requires before { All IsGoodItem body.old.items }
    ensures reads { OnOk result (Reads body.old (gives item ∷ []) body.new) }
    ensures stops { IfErr result (λ e. Stops body.old (gives item ∷ []) e) }
    ensures good { OnOk result (All IsGoodItem body.new.items) }
{
    match voice_fault(body.ids.as_slice(), &item) {
        Some(fault) => Err(TuneError::Fault(fault)),
        None => {
            mention_item(alloc, &mut body.ids, &item)?;
            body.items.push(item)?;
            Ok(())
        }
    }
}

/// Returns whether a voice is beyond the sixteenth.
#[inline(never)]
fn is_past(ids: &[Text], id: &[u8]) -> bool
    ensures { result ≡ nat_lt 16 (length (with_id ids.now id.now)) }
{
    if is_mentioned(ids, id) {
        return ids.len() > 16;
    }
    ids.len() >= 16
}

/// Returns the fault of a voice field that mentions a seventeenth voice.
#[inline(always)]
fn voice_fault(ids: &[Text], item: &BodyItem) -> Option<Fault>
    ensures { judged_as result item.now ≡ item_judged ids.now item.now }
{
    match item {
        BodyItem::Step(_) => None,
        BodyItem::LineEnd { .. } => None,
        BodyItem::Words { text: _, line: _ } => None,
        BodyItem::Voice { def, line, column } => past_fault(
            is_past(ids, def.id.as_slice()),
            *line,
            *column,
        ),
    }
}

fn past_fault(past: bool, line: u32, column: u32) -> Option<Fault>
    ensures { result ≡ past_fault past line column }
{
    if past {
        return Some(Fault {
            kind: FaultKind::TooManyVoices,
            line,
            column,
        });
    }
    None
}
