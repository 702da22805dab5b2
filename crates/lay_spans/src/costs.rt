ghost use Rattle.std.{specs.Prelude.{◌≡◌, ℕ, length, slice_index_or, false}, proofs.Props.{props}};
ghost use Rattle.{lay_breaks.specs.Spans.{listed}, lay_rows.specs.Costs.{cost_in, cost_stops, cost_small}};

use lay_breaks::{Costs, Span};
use lay_rows::Rows;
use mus_units::Row;

/// The spans that fit, as a list by the bar after which they begin and then by the bar with which
/// they end, and their forces as rows.
#[derive(Drop)]
pub struct FittingSpans {
    pub list: Row<Span>,
    pub rows: Rows,
    pub ghost same: { (a b : ℕ) → cost_in rows.rows a b ≡ listed list a b } by { Prim.hlevel props },
}

/// The costs of spans by rows, and which bars are forced.
#[derive(Drop)]
pub(crate) struct SpanCosts<'a> {
    pub(crate) rows: &'a Rows,
    pub(crate) marks: Row<bool>,
    pub(crate) ghost begins: { slice_index_or marks 0 false ≡ false },
}

impl<'a> Costs for SpanCosts<'a> {
    ghost bars = { λ s. length s.rows.now.rows };

    ghost badness = { λ s a b. cost_in s.rows.now.rows a b };

    ghost is_forced = { λ s b. slice_index_or s.marks b false };

    fn cost(&self, a: u32, b: u32) -> Option<u64> {
        self.rows.cost(a, b)
    }

    fn forced(&self, b: u32) -> bool {
        match self.marks.as_slice().get(b as usize) {
            Some(mark) => *mark,
            None => false,
        }
    }

    ghost stays_none = { λ s a b c l m h e. cost_stops s.rows.now.rows a b c l m e };

    ghost is_small = { λ s a b l h. cost_small s.rows.now.rows s.rows.now.low a b l };

    ghost begins_free = { λ s. s.begins };
}
