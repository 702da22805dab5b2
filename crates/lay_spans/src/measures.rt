ghost use Rattle.std.specs.Prelude.{length};
ghost use Rattle.lay_spans.specs.{Columns.AreMeasures, Single.measures_prop};

use crate::borrowed::BorrowedColumns;
use lay_springs::{Gaps, Spaced};
use mus_units::Row;

/// The columns of each measure, in a system that begins with it and in one that doesn't, and the
/// gaps that they keep.
#[derive(Drop)]
pub struct Measures<'a, C: Spaced> {
    pub starts: &'a [Row<C>],
    pub others: &'a [BorrowedColumns<'a, C>],
    pub gaps: Gaps<'a>,
    pub ghost measured: { AreMeasures C.reach_of (length gaps.list.now) starts.now others.now } //
    by { measures_prop C.reach_of (length gaps.list.now) starts.now others.now },
}
