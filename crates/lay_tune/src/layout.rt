ghost use Rattle.std.specs.Prelude.{◌≡◌, ◌<◌, ◌≤◌, IfErr, IfOk, length};
ghost use Rattle.mus_score.specs.GoodScore.{IsGoodScore};
ghost use Rattle.lay_reaches.specs.Columns.{column_reach};
ghost use Rattle.lay_spans.specs.Columns.{AreMeasures};
ghost use Rattle.lay_tune.specs.declared.layout.LayoutError.TheVariants as errors;
ghost use Rattle.lay_tune.specs.Layout.{IsCauseIn, IsLayout, layout_error};
ghost use Rattle.lay_tune.specs.Measured.{IsMeasured};
ghost use Rattle.lay_tune.specs.Spans.{AreColumnsOf, verses_of};

use crate::measures::{columns_of_measures, measures_in, others_of};
use crate::systems::{Measured, set_systems};
use eng_jobs::Jobs;
use lay_breaks::{BreakError, Breaking, Span};
use lay_columns::{measures_join, staff_verses};
use lay_pages::Heights;
use lay_reaches::{Column, gaps_of};
use lay_spans::{SpanInput, break_of, spans_of};
use lay_springs::Placed;
use mus_laid::SystemMarks;
use mus_marks::{DrawnScore, draw_voices};
use mus_onsets::onsets;
use mus_score::Score;
use mus_units::{Memory, Row};
use std::alloc::Global;
use std::thread::Threads;

/// A score laid out: the spans that fit and the cost of each; the breaking that is chosen among
/// them; and for each of its spans, in order, the marks of the system, the abscissas of its
/// columns, in u, and how its staves are stacked.
#[derive(Drop)]
pub struct Layout {
    pub breaking: Breaking,
    pub systems: Row<SystemMarks>,
    pub placed: Row<Placed>,
    pub spans: Row<Span>,
    pub heights: Row<Heights>,
}

/// Why a score isn't laid out.
#[derive(Clone, Copy, PartialEq, Eq)]
pub enum LayoutError {
    /// No breaking is legal; `reached` is the greatest bar at which a legal prefix ends.
    NoWay { reached: u32 },
    /// Memory ran out.
    Memory,
}

impl From<Memory> for LayoutError {
    ghost from_gives = { λ _ e. e ≡ errors.Memory };

    fn from(_: Memory) -> LayoutError {
        LayoutError::Memory
    }
}

fn layout_error(error: BreakError) -> LayoutError
    ensures { result ≡ layout_error error }
{
    match error {
        BreakError::NoWay { reached } => LayoutError::NoWay { reached },
        BreakError::Memory => LayoutError::Memory,
    }
}

/// Returns the layout of a score that is measured.
fn lay_out_measures<R: Threads + Sync>(
    rt: &R,
    alloc: Global,
    measured: &Measured<'_>,
    jobs: Jobs,
) -> Result<Layout, LayoutError>
    requires { IsMeasured measured.now }
    ensures layout { IfOk result (IsLayout measured.now.drawn.score.now measured.now.width) }
    ensures no_way { IfErr result (IsCauseIn measured.now.drawn.score.now measured.now.width) }
{
    let score = measured.drawn.score;
    let forced = score.forced.as_slice();
    let input = SpanInput {
        measures: measured.measures,
        width: measured.width,
        forced,
    };
    let spans = spans_of(rt, alloc, &input, jobs)?;
    let breaking = match break_of(alloc, &spans, forced, score.measures) {
        Ok(breaking) => breaking,
        Err(error) => return Err(layout_error(error)),
    };
    let breaks = breaking.breaks.as_slice();
    let set = set_systems(alloc, measured, breaks, &spans.rows)?;
    Ok(Layout {
        breaking,
        systems: set.marks,
        placed: set.placed,
        spans: spans.list,
        heights: set.heights,
    })
}

/// Lays out a score in systems of a width, in u. Returns the spans that fit, each with the badness
/// of its greatest force; the legal breaking of least total badness; and each system of it, set to
/// the width unless it is a ragged last one. Among equals the breaking is the one that, read from
/// its end, is lexicographically greatest.
///
/// A score without voices has no measures. A score of no measures has the empty breaking. Returns
/// `NoWay` exactly when no breaking is legal. No search for a force takes memory.
///
/// The spans are found by `jobs` jobs; the layout doesn't depend on their number.
pub fn lay_out<R: Threads + Sync>(
    rt: &R,
    alloc: Global,
    s: &Score,
    width: u32,
    jobs: Jobs,
) -> Result<Layout, LayoutError>
    requires good { IsGoodScore s.now }
    requires heard { 0 < s.now.measures → 1 ≤ length s.now.voices }
    ensures layout { IfOk result (IsLayout s.now width) }
    ensures no_way { IfErr result (IsCauseIn s.now width) }
{
    let times = onsets(alloc, s)?;
    let voices = draw_voices(alloc, s)?;
    let drawn = DrawnScore {
        score: s,
        times: &times,
        voices: voices.as_slice(),
    };
    let counts = staff_verses(alloc, &drawn)?;
    let verses = counts.as_slice();
    let columns = columns_of_measures(alloc, &drawn, verses)?;
    let further = others_of(alloc, s, &columns)?;
    let gaps = gaps_of(alloc, verses)?;
    let starts = columns.starts.as_slice();
    let others = further.as_slice();
    let list = gaps.as_slice();
    let measures = measures_in(starts, others, list);
    let measured = Measured {
        drawn,
        measures: &measures,
        width,
    };
    measures_join();
    lay_out_measures(rt, alloc, &measured, jobs)
}
