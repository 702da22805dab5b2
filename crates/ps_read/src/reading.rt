ghost use Rattle.std.specs.Prelude.{IfOk, IfErr, ◌≡◌};
ghost use Rattle.ps_read.specs.Answers.{IsDocumentRead, IsCause, pages_error};
ghost use Rattle.ps_read.specs.Laws.{GoodByLines, NoPrefix, OneSheet};
ghost use Rattle.ps_read.specs.Steps.{IsStep};
ghost use Rattle.eng_lines.specs.Lines.{Lacks};
ghost use Rattle.ps_read.specs.ReaderStates.{documents};

use crate::pages::{
    after_count, after_heading, after_item, after_items, after_page, after_trailer,
};
use crate::prolog::{after_box, after_frame, after_nothing, after_title};
use crate::state::ReaderState;
use crate::systems::{after_mark, after_staff, after_system};
use eng_reader::{LineError, LineReader, read_lines};
use mus_units::Memory;
use ps_text::Sheet;
use std::alloc::Global;

/// Why there is no sheet.
#[derive(Clone, Copy, PartialEq, Eq)]
pub enum PagesError {
    /// The bytes aren't a document; `line` is the first line that isn't good given the lines before it, or one past
    /// the last if the text ends early.
    NotPages { line: u64 },
    /// Memory ran out.
    Memory,
}

impl From<LineError> for PagesError {
    ghost from_gives = { λ e r. r ≡ pages_error e };

    fn from(error: LineError) -> Self {
        match error {
            LineError::Bad { line } => PagesError::NotPages { line },
            LineError::Memory => PagesError::Memory,
        }
    }
}

/// Returns the state after the line, or `None` if the line isn't good.
fn state_after(alloc: Global, state: ReaderState, raw: &[u8]) -> Result<Option<ReaderState>, Memory>
    requires { Lacks 10 raw.now }
    ensures { IfOk result (IsStep state raw.now) }
{
    match state {
        ReaderState::Begun => Ok(after_nothing(raw)),
        ReaderState::Titled => after_title(alloc, raw),
        ReaderState::Boxed { wide, high, rest } => after_box(alloc, wide, high, rest, raw),
        ReaderState::Framed { frame, rest } => after_frame(alloc, frame, rest, raw),
        ReaderState::Between(sheet) => after_page(alloc, sheet, raw),
        ReaderState::Headed(sheet) => Ok(after_heading(alloc, sheet, raw)),
        ReaderState::Items(page) => after_item(alloc, page, raw),
        ReaderState::System(system) => after_system(alloc, system, raw),
        ReaderState::Staff(system) => after_staff(alloc, system, raw),
        ReaderState::Marks { system, staff } => after_mark(alloc, system, staff, raw),
        ReaderState::Closed(page) => after_items(page, raw),
        ReaderState::Trailer(sheet) => after_trailer(alloc, sheet, raw),
        ReaderState::Counted(sheet) => Ok(after_count(sheet, raw)),
        ReaderState::Ended(_) => Ok(None),
    }
}

impl LineReader<Sheet> for ReaderState {
    ghost grammar = { documents };

    ghost is_at = { λ s p. p ≡ s };

    ghost says = { λ s t. t ≡ s };

    fn step(self, alloc: Global, raw: &[u8]) -> Result<Option<Self>, Memory> {
        state_after(alloc, self, raw)
    }

    fn finish(self) -> Option<Sheet> {
        match self {
            ReaderState::Ended(sheet) => Some(sheet),
            _ => None,
        }
    }
}

/// Returns the sheet that the bytes spell.
///
/// A last piece without an LF is a line that isn't good. Each line is read once.
pub fn read_document(alloc: Global, b: &[u8]) -> Result<Sheet, PagesError>
    ensures sheet { IfOk result (IsDocumentRead b.now) }
    ensures cause { IfErr result (IsCause b.now) }
{
    Ok(read_lines(alloc, ReaderState::Begun, b)?)
}

/// The law that a sheet spells a text exactly when each of its lines is good given those before it and the last is
/// `%%EOF`.
pub fn good_by_lines()
    ensures { GoodByLines }
{}

/// The law that no proper prefix of a document is a document.
pub fn no_prefix_is_a_document()
    ensures { NoPrefix }
{}

/// The law that one sheet alone spells a text.
pub fn one_sheet()
    ensures { OneSheet }
{}
