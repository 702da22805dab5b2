//! Layouts as text.

use crate::error::CaseError;
use crate::report::Report;
use lay_breaks::{Breaking, Span};
use lay_pages::Heights;
use lay_springs::Placed;

/// Adds a force, whether the system is ragged, and where its columns are.
pub fn put_placed(out: &mut Report, placed: &Placed) -> Result<(), CaseError> {
    out.next_number(b"force ", placed.force)?;
    out.flag(placed.ragged, b"ragged")?;
    out.next(b"at")?;
    out.tell_all(placed.at.as_slice())?;
    out.end_line()
}

/// Adds the breaks of a breaking, its total and its potentials.
pub fn put_breaking(out: &mut Report, breaking: &Breaking) -> Result<(), CaseError> {
    out.next(b"breaks")?;
    out.tell_all(breaking.breaks.as_slice())?;
    out.next_number(b"total ", breaking.total)?;
    out.next(b"potentials")?;
    for potential in breaking.potentials.as_slice() {
        match potential {
            Some(sum) => out.tell(sum)?,
            None => out.next(b"none")?,
        }
    }
    out.end_line()
}

/// Adds that no breaking is legal, and the greatest bar that one reaches.
pub fn put_no_way(out: &mut Report, reached: u32) -> Result<(), CaseError> {
    out.tell(format_args!("no way {reached}\n"))
}

/// Adds how staves are stacked: their bases, and their total height.
pub fn put_heights(out: &mut Report, heights: &Heights) -> Result<(), CaseError> {
    out.next(b"bases")?;
    out.tell_all(heights.bases.as_slice())?;
    out.next_number(b"height ", heights.height)?;
    out.end_line()
}

/// Adds a line for each span: its bars and its badness.
pub fn put_spans(out: &mut Report, spans: &[Span]) -> Result<(), CaseError> {
    for span in spans {
        out.tell(format_args!("span {} {} {}\n", span.a, span.b, span.badness))?;
    }
    Ok(())
}
