ghost use Rattle.std.specs.Prelude.{◌≡◌, ◌+◌, ◌≤◌, ℕ, Option, IfOk, IfErr, length, slice_index_or};
ghost use Rattle.lay_breaks.specs.Answers.{IsCause};
ghost use Rattle.lay_breaks.specs.Breaking.{IsChosen, sum_from, IsPotential};
ghost use Rattle.lay_breaks.specs.Spans.{listed};
ghost use Rattle.lay_spans.specs.Forced.{is_forced};

use crate::costs::{FittingSpans, SpanCosts};
use crate::marks::marks_of;
use lay_breaks::{BreakError, Breaking, least};
use mus_units::Memory;
use std::alloc::Global;

/// Returns the legal breaking of `n` bars into listed spans that costs least. Among equals it is
/// the one that, read from its end, is lexicographically greatest.
///
/// Bars in `forced` past `n` are ignored, and so is bar 0. Returns `NoWay` exactly when no breaking
/// is legal.
pub fn break_of(
    alloc: Global,
    spans: &FittingSpans,
    forced: &[u32],
    n: u32,
) -> Result<Breaking, BreakError>
    requires bars { n ≡ length spans.now.rows.rows }
    ensures chosen { IfOk result (λ b. IsChosen (listed spans.now.list) (is_forced n forced.now) n b.breaks) }
    ensures total { IfOk result (λ b. b.total ≡ sum_from (listed spans.now.list) 0 b.breaks) }
    ensures one_each { IfOk result (λ b. length b.potentials ≡ n + 1) }
    ensures potentials { IfOk result (λ b. (i : ℕ) → i ≤ n
        → IsPotential (listed spans.now.list) (is_forced n forced.now) i (slice_index_or b.potentials i Option.None)) }
    ensures no_way { IfErr result (IsCause (listed spans.now.list) (is_forced n forced.now) n) }
{
    let marks = match marks_of(alloc, forced, n as usize) {
        Ok(marks) => marks,
        Err(Memory) => return Err(BreakError::Memory),
    };
    let costs = SpanCosts {
        rows: &spans.rows,
        marks,
    };
    least(alloc, &costs, n)
}
