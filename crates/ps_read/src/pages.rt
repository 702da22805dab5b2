ghost use Rattle.std.specs.Prelude.{◌≡◌, ◌+◌, ◌<◌, ◌^◌, length, IfOk, Decides};
ghost use Rattle.ps_text.specs.Document.{heading_line};
ghost use Rattle.ps_read.specs.Steps.{IsStep, IsStepOf, IsItemLine, IsSystemLine};
ghost use Rattle.ps_read.specs.declared.state.ReaderState.TheVariants as at;

use crate::lines::{Title, is_count, is_heading, is_text, read_title};
use crate::state::{OpenPage, OpenSystem, ReaderState, with_item, with_page};
use eng_lines::{number_after, numbers_after};
use mus_units::{Memory, Row};
use ps_text::{Item, Sheet};
use std::alloc::Global;

/// Returns whether the line numbers the page after `pages` pages.
fn is_next_heading(alloc: Global, raw: &[u8], pages: usize) -> Result<bool, Memory>
    ensures { IfOk result (λ r. Decides r ((pages + 1 < 2 ^ 32) × (raw.now ≡ heading_line (pages + 1)))) }
{
    if pages >= u32::MAX as usize {
        return Ok(false);
    }
    is_heading(alloc, raw, pages as u64 + 1)
}

/// Returns the state after a line that follows whole pages, or `None` if the line isn't good there.
pub fn after_page(alloc: Global, sheet: Sheet, raw: &[u8]) -> Result<Option<ReaderState>, Memory>
    ensures { IfOk result (IsStep (at.Between sheet) raw.now) }
{
    if is_text(raw, b"%%Trailer") {
        return Ok(Some(ReaderState::Trailer(sheet)));
    }
    if is_next_heading(alloc, raw, sheet.pages.len())? {
        return Ok(Some(ReaderState::Headed(sheet)));
    }
    Ok(None)
}

/// Returns the state after a line that follows the number of a page, or `None` if the line isn't good there.
pub fn after_heading(alloc: Global, sheet: Sheet, raw: &[u8]) -> Option<ReaderState>
    ensures { IsStep (at.Headed sheet) raw.now result }
{
    if is_text(raw, b"pg") {
        Some(ReaderState::Items(OpenPage {
            sheet,
            items: Row::new(alloc),
        }))
    } else {
        None
    }
}

fn system_line(alloc: Global, page: OpenPage, raw: &[u8]) -> Option<ReaderState>
    ensures { IsStepOf IsSystemLine (at.Items page) raw.now result }
{
    match numbers_after(b"% system ", raw) {
        Some((a, b)) if a < b => Some(ReaderState::System(OpenSystem {
            page,
            a,
            b,
            join: None,
            staves: Row::new(alloc),
        })),
        _ => None,
    }
}

/// Reads any line except a title that may come after an item.
pub fn item_line(alloc: Global, page: OpenPage, raw: &[u8]) -> Result<Option<ReaderState>, Memory>
    ensures { IfOk result (IsStepOf IsItemLine (at.Items page) raw.now) }
{
    if is_text(raw, b"grestore") {
        return Ok(Some(ReaderState::Closed(page)));
    }
    match number_after(b"% tune ", raw) {
        Some(0) => Ok(None),
        Some(ordinal) => {
            let page = with_item(page, Item::Tune { ordinal })?;
            Ok(Some(ReaderState::Items(page)))
        }
        None => Ok(system_line(alloc, page, raw)),
    }
}

/// Returns the state after a line that follows the beginning of a page, a tune or a title, or `None` if the line
/// isn't good there.
pub fn after_item(alloc: Global, page: OpenPage, raw: &[u8]) -> Result<Option<ReaderState>, Memory>
    ensures { IfOk result (IsStep (at.Items page) raw.now) }
{
    match read_title(alloc, raw)? {
        Some(Title { x, y, size, text }) => {
            let page = with_item(page, Item::Title { x, y, size, text })?;
            Ok(Some(ReaderState::Items(page)))
        }
        None => item_line(alloc, page, raw),
    }
}

/// Returns the state after a line that follows the items of a page, or `None` if the line isn't good there.
pub fn after_items(page: OpenPage, raw: &[u8]) -> Result<Option<ReaderState>, Memory>
    ensures { IfOk result (IsStep (at.Closed page) raw.now) }
{
    if !is_text(raw, b"showpage") {
        return Ok(None);
    }
    let sheet = with_page(page)?;
    Ok(Some(ReaderState::Between(sheet)))
}

/// Returns the state after a line that follows the line `%%Trailer`, or `None` if the line isn't good there.
pub fn after_trailer(alloc: Global, sheet: Sheet, raw: &[u8]) -> Result<Option<ReaderState>, Memory>
    ensures { IfOk result (IsStep (at.Trailer sheet) raw.now) }
{
    if is_count(alloc, raw, sheet.pages.len() as u64)? {
        return Ok(Some(ReaderState::Counted(sheet)));
    }
    Ok(None)
}

/// Returns the state after a line that follows the number of pages, or `None` if the line isn't good there.
pub fn after_count(sheet: Sheet, raw: &[u8]) -> Option<ReaderState>
    ensures { IsStep (at.Counted sheet) raw.now result }
{
    if is_text(raw, b"%%EOF") {
        Some(ReaderState::Ended(sheet))
    } else {
        None
    }
}
