ghost use Rattle.std.specs.Prelude.{◌≡◌, ◌+◌, ◌<◌, ◌≤◌, ◌^◌, ℕ, length, slice_index, slice_index_or, false};
ghost use Rattle.lay_spans.specs.Rows.{IsRowFrom};
ghost use Rattle.lay_spans.specs.Single.{one_row, row_low};

use crate::measures::Measures;
use crate::rows::{RowSpace, row_from};
use lay_rows::RowMaker;
use lay_springs::{LinearSpring, Spaced};
use mus_units::{Memory, Row};
use std::alloc::Global;

/// The columns of measures, and all else that determines which of their spans fit.
#[derive(Drop)]
pub(crate) struct SpanMaker<'a, C: Spaced + LinearSpring> {
    pub(crate) alloc: Global,
    pub(crate) measures: &'a Measures<'a, C>,
    pub(crate) width: u32,
    pub(crate) marks: &'a [bool],
    pub(crate) ghost marked: { length marks.now ≡ length measures.now.starts.now + 1 },
}

impl<'a, C: Spaced + LinearSpring> RowMaker for SpanMaker<'a, C> {
    ghost bars = { λ m. length m.measures.now.starts.now };

    ghost is_row = { λ m a row.
        IsRowFrom C.reach_of C.length_of m.measures.now.gaps.list.now m.width m.measures.now.starts.now
        m.measures.now.others.now
        (λ b. slice_index_or m.marks.now b false) a row };

    fn rows_between(&self, from: u32, to: u32) -> Result<Row<Row<u16>>, Memory> {
        let mut rows = Row::with_room(self.alloc, (to - from) as usize)?;
        let measures = self.measures;
        let mut space = RowSpace::new(self.alloc, measures.gaps.list.len())?;
        for a in from..to {
            let row = row_from(self, &mut space, a as usize)?;
            rows.push(row)?;
        }
        Ok(rows)
    }

    ghost is_one = { λ m a row other l h k.
        one_row C.reach_of C.length_of m.measures.now.gaps.list.now m.width m.measures.now.starts.now
        m.measures.now.others.now
        (λ b. slice_index_or m.marks.now b false) (λ c f g l m. C.rises c f g l m) a row other h k };

    ghost is_low = { λ m a row l h.
        row_low C.reach_of C.length_of m.measures.now.gaps.list.now m.width m.measures.now.starts.now
        m.measures.now.others.now
        (λ b. slice_index_or m.marks.now b false) a row h };
}
