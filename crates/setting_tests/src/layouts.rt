//! Scores laid out on a width.

ghost use Rattle.mus_score.specs.GoodScore.{IsGoodScore};

use crate::marks::put_system;
use case_texts::{CaseError, Report, put_breaking, put_heights, put_no_way, put_placed, put_spans};
use eng_jobs::Jobs;
use lay_tune::{Layout, LayoutError, lay_out};
use mus_score::Score;
use std::thread::Threads;

/// Adds a layout: its spans, its breaking, and each system with its columns and its staves.
fn put_layout(out: &mut Report, layout: &Layout) -> Result<(), CaseError> {
    put_spans(out, layout.spans.as_slice())?;
    put_breaking(out, &layout.breaking)?;
    let placed = layout.placed.as_slice();
    let heights = layout.heights.as_slice();
    for ((system, placed), heights) in layout.systems.as_slice().iter().zip(placed).zip(heights) {
        out.tell(format_args!("system {} {}", system.a, system.b))?;
        put_placed(out, placed)?;
        put_heights(out, heights)?;
    }
    Ok(())
}

/// Adds the systems of a layout with all that they draw.
fn put_systems(out: &mut Report, layout: &Layout) -> Result<(), CaseError> {
    for system in layout.systems.as_slice() {
        out.tell(format_args!("system {} {}\n", system.a, system.b))?;
        put_system(out, system)?;
    }
    Ok(())
}

fn put_laid_out(out: &mut Report, layout: &Layout, drawn: bool) -> Result<(), CaseError> {
    if drawn {
        put_systems(out, layout)
    } else {
        put_layout(out, layout)
    }
}

/// Adds a score laid out on a width: where things are, or what its systems draw.
pub(crate) fn put_score_layout<R: Threads + Sync>(
    rt: &R,
    out: &mut Report,
    score: &Score,
    width: u32,
    drawn: bool,
) -> Result<(), CaseError>
    requires { IsGoodScore score.now }
{
    if score.voices.len() == 0 {
        return out.next(b"no voice\n");
    }
    match lay_out(rt, out.alloc, score, width, Jobs { count: 2 }) {
        Ok(layout) => put_laid_out(out, &layout, drawn),
        Err(LayoutError::NoWay { reached }) => put_no_way(out, reached),
        Err(LayoutError::Memory) => Err(CaseError::Memory),
    }
}
