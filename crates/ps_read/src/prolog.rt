ghost use Rattle.std.specs.Prelude.{◌≡◌, ◌<◌, ◌^◌, ◌++◌, ℕ, List, Some, MatchOption, IfOk, IfSome, Decides, ◌+◌, ◌/◌};
ghost use Rattle.std.specs.Prelude.{◌%◌, [], ◌≤◌};
ghost use Rattle.glyph_paths.specs.Names.{glyphs_in_order};
ghost use Rattle.ps_text.specs.Prolog.{percent, page_line, glyph_lines, last_text};
ghost use Rattle.ps_read.specs.ReaderStates.{after_prolog};
ghost use Rattle.ps_read.specs.Lines.{IsFirstLine, after_line};
ghost use Rattle.ps_read.specs.Steps.{IsStep};
ghost use Rattle.eng_lines.specs.Lines.{Lacks};
ghost use Rattle.ps_read.specs.declared.state.ReaderState.TheVariants as at;

use crate::lines::is_text;
use crate::state::ReaderState;
use eng_lines::{number_and_rest, numbers_after, strip};
use glyph_paths::all_glyphs;
use mus_units::{Memory, Row, Text};
use ps_text::prolog::{BOX, LAST, PAGE_START, PROCEDURES, put_glyphs, put_page_line};
use ps_text::{Frame, Sheet};
use std::alloc::Global;

/// Returns what follows the line, if the text begins with it.
fn following<'a>(line: &[u8], text: &'a [u8]) -> Option<&'a [u8]>
    requires { Lacks 10 line.now }
    ensures { MatchOption result (IsFirstLine line.now text.now → ⊥)
        (λ rest. IsFirstLine line.now text.now × (rest.now ≡ after_line line.now text.now)) }
{
    match strip(line, text) {
        Some([b'\n', rest @ ..]) => Some(rest),
        _ => None,
    }
}

/// Returns the state after the first line, or `None` if the line isn't good there.
pub fn after_nothing(raw: &[u8]) -> Option<ReaderState>
    ensures { IsStep at.Begun raw.now result }
{
    if is_text(raw, b"%!PS-Adobe-3.0") {
        Some(ReaderState::Titled)
    } else {
        None
    }
}

/// Returns the state after a line that follows the first line, or `None` if the line isn't good there.
pub fn after_title(alloc: Global, raw: &[u8]) -> Result<Option<ReaderState>, Memory>
    ensures { IfOk result (IsStep at.Titled raw.now) }
{
    match numbers_after(BOX, raw) {
        Some((wide, high)) => {
            let rest = Text::from_slice(alloc, PROCEDURES)?;
            Ok(Some(ReaderState::Boxed { wide, high, rest }))
        }
        None => Ok(None),
    }
}

/// Returns the percentage that three digits spell.
fn percent_of(a: u8, b: u8, c: u8) -> Option<u16>
    ensures { (p : ℕ) → p ≤ 150 → a ≡ 48 + p / 100 → b ≡ 48 + p / 10 % 10 → c ≡ 48 + p % 10 → result ≡ Some p }
{
    if !(b'0' <= a && a <= b'1') {
        return None;
    }
    if !(b'0' <= b && b <= b'9') {
        return None;
    }
    if !(b'0' <= c && c <= b'9') {
        return None;
    }
    Some(u16::from(a - b'0') * 100 + u16::from(b - b'0') * 10 + u16::from(c - b'0'))
}

/// Returns the percentage that these bytes may begin with.
fn scan_percent(bytes: &[u8]) -> Option<u16>
    ensures { (p : ℕ) (rest : List ℕ) → p ≤ 150 → bytes.now ≡ percent p ++ rest → result ≡ Some p }
{
    match bytes {
        [hundreds, _, tens, ones, ..] => percent_of(*hundreds, *tens, *ones),
        _ => None,
    }
}

/// Returns the margins and the scale that a line may spell.
fn scan_page_line(raw: &[u8]) -> Option<(u32, u32, u16)>
    ensures small { IfSome result (λ r. (r.0 < 2 ^ 32) × (r.1 < 2 ^ 32)) }
    ensures reported { (left bottom scale : ℕ)
        → left < 2 ^ 32 → bottom < 2 ^ 32 → scale ≤ 150 → raw.now ≡ page_line left bottom scale
        → result ≡ Some (left, bottom, scale) }
{
    let rest = strip(PAGE_START, raw)?;
    let (left, rest) = number_and_rest(rest)?;
    let (bottom, rest) = number_and_rest(rest)?;
    let rest = strip(b"translate ", rest)?;
    let scale = scan_percent(rest)?;
    Some((left, bottom, scale))
}

fn is_page_line(alloc: Global, raw: &[u8], frame: &Frame) -> Result<bool, Memory>
    ensures { IfOk result (λ r. Decides r (raw.now ≡ page_line frame.now.left frame.now.bottom frame.now.scale)) }
{
    let mut line = Text::new(alloc);
    put_page_line(&mut line, frame.left, frame.bottom, frame.scale)?;
    Ok(line.as_slice() == raw)
}

/// Returns the end of the prolog, from after the line with the scale.
fn last_lines(alloc: Global) -> Result<Text, Memory>
    ensures { IfOk result (λ t. t ≡ glyph_lines glyphs_in_order ++ last_text) }
{
    let mut rest = Text::new(alloc);
    put_glyphs(alloc, &mut rest, all_glyphs())?;
    rest.append(LAST)?;
    Ok(rest)
}

fn page_start(
    alloc: Global,
    wide: u32,
    high: u32,
    raw: &[u8],
) -> Result<Option<ReaderState>, Memory>
    ensures { IfOk result (IsStep (at.Boxed wide high []) raw.now) }
{
    let Some((left, bottom, scale)) = scan_page_line(raw) else {
        return Ok(None);
    };
    let frame = Frame {
        wide,
        high,
        left,
        bottom,
        scale,
    };
    if scale < 40 || 150 < scale {
        return Ok(None);
    }
    if !is_page_line(alloc, raw, &frame)? {
        return Ok(None);
    }
    let rest = last_lines(alloc)?;
    Ok(Some(ReaderState::Framed { frame, rest }))
}

/// Returns the state after a line that follows the bounding box, or `None` if the line isn't good there.
pub fn after_box(
    alloc: Global,
    wide: u32,
    high: u32,
    rest: Text,
    raw: &[u8],
) -> Result<Option<ReaderState>, Memory>
    requires { Lacks 10 raw.now }
    ensures { IfOk result (IsStep (at.Boxed wide high rest) raw.now) }
{
    if rest.as_slice().is_empty() {
        return page_start(alloc, wide, high, raw);
    }
    match following(raw, rest.as_slice()) {
        Some(more) => {
            let rest = Text::from_slice(alloc, more)?;
            Ok(Some(ReaderState::Boxed { wide, high, rest }))
        }
        None => Ok(None),
    }
}

fn after_prolog(alloc: Global, frame: Frame, rest: &[u8]) -> Result<ReaderState, Memory>
    ensures { IfOk result (λ p. p ≡ after_prolog frame rest.now) }
{
    match rest {
        [] => Ok(ReaderState::Between(Sheet {
            frame,
            pages: Row::new(alloc),
        })),
        _ => {
            let rest = Text::from_slice(alloc, rest)?;
            Ok(ReaderState::Framed { frame, rest })
        }
    }
}

/// Returns the state after a line that follows the frame, or `None` if the line isn't good there.
pub fn after_frame(
    alloc: Global,
    frame: Frame,
    rest: Text,
    raw: &[u8],
) -> Result<Option<ReaderState>, Memory>
    requires { Lacks 10 raw.now }
    ensures { IfOk result (IsStep (at.Framed frame rest) raw.now) }
{
    match following(raw, rest.as_slice()) {
        Some(more) => Ok(Some(after_prolog(alloc, frame, more)?)),
        None => Ok(None),
    }
}
