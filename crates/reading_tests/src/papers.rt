ghost use Rattle.{std.specs.Prelude.{IfOk}, abc_fields.specs.Papers.{IsGoodPaper}};

use crate::books::book_of;
use abc_fields::{Paper, body_of, read_paper};
use case_texts::{CaseError, Report};
use mus_units::Memory;
use std::alloc::Global;

/// Returns the paper that a book's file header states.
fn paper_of(alloc: Global, bytes: &[u8]) -> Result<Paper, Memory>
    ensures { IfOk result IsGoodPaper }
{
    let book = book_of(alloc, bytes)?;
    Ok(read_paper(&book))
}

/// Adds the paper that a book's file header states.
pub(crate) fn put_paper_of_book(out: &mut Report, bytes: &[u8]) -> Result<(), CaseError> {
    let paper = paper_of(out.alloc, bytes)?;
    out.next_number(b"wide ", paper.wide)?;
    out.next_number(b"high ", paper.high)?;
    out.next_number(b"left ", paper.left)?;
    out.next_number(b"right ", paper.right)?;
    out.next_number(b"top ", paper.top)?;
    out.next_number(b"bottom ", paper.bottom)?;
    out.next_number(b"scale ", paper.scale)
}

/// Adds the width and the height of the body of the paper that a book's file header states.
pub(crate) fn put_body_of_book(out: &mut Report, bytes: &[u8]) -> Result<(), CaseError> {
    let (width, height) = body_of(&paper_of(out.alloc, bytes)?);
    out.next_number(b"width ", width)?;
    out.next_number(b"height ", height)
}
