ghost use Rattle.std.specs.Prelude.{◌≡◌, ◌≤◌, length};

use crate::columns::SpacedColumns;
use crate::progress::Progress;

/// Columns that are being placed: an abscissa for each, the frontier of each lane, and how far they
/// are placed.
#[derive(Drop)]
pub struct Placing<'a, 's, C> {
    pub columns: SpacedColumns<'a, C>,
    pub at: &'s mut [i64],
    pub front: &'s mut [i64],
    pub progress: Progress,
    pub ghost room: { length columns.cols.now ≤ length at.now },
    pub ghost one_each: { length front.now ≡ length columns.gaps.list.now },
}

/// The greatest force that a search found, and how far it placed the columns.
#[derive(Clone, Copy)]
pub struct Found {
    pub force: Option<u16>,
    pub progress: Progress,
}
