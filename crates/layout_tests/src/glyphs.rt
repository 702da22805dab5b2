//! The glyphs.

use case_texts::{CaseError, Report};
use glyph_paths::{all_glyphs, bounds_of, name_of, outline, procedure};
use mus_units::Glyph;

fn put_glyph(out: &mut Report, glyph: Glyph) -> Result<(), CaseError> {
    let bounds = bounds_of(glyph);
    out.next(name_of(glyph))?;
    out.tell_all(&[bounds.left, bounds.low, bounds.right, bounds.high])?;
    out.tell(outline(glyph).len())?;
    out.end_line()?;
    out.next(procedure(out.alloc, glyph)?.as_slice())?;
    out.end_line()
}

/// Adds for each glyph its name, its bounds and the number of its steps, and the line of its procedure.
pub(crate) fn put_glyphs(out: &mut Report) -> Result<(), CaseError> {
    for glyph in all_glyphs() {
        put_glyph(out, *glyph)?;
    }
    Ok(())
}
