ghost use Rattle.std.specs.Prelude.{◌≡◌, ◌^◌, ◌<◌, ◌≤◌, ℕ, length, slice_index, ⊤};

use std::alloc::AllocError;

/// The gap that columns keep in each lane, in u: at most 2^20.
#[derive(Clone, Copy)]
pub struct Gaps<'a> {
    pub list: &'a [u32],
    pub ghost lanes: { length list.now < 2 ^ 32 },
    pub ghost narrow: { (lane : ℕ) → lane < length list.now → slice_index list.now lane ≤ 2 ^ 20 },
}

/// Columns to place, from 1 to 2^26, and the gaps that they keep.
pub struct SpacedColumns<'a, C> {
    pub cols: &'a [C],
    pub gaps: Gaps<'a>,
    pub ghost some: { 0 < length cols.now },
    pub ghost few: { length cols.now ≤ 2 ^ 26 },
}

impl<'a, C> Clone for SpacedColumns<'a, C> {
    ghost is_clone = { λ columns other. other ≡ columns };

    ghost is_infallible = { λ _. ⊤ };

    fn clone(&self) -> Result<Self, AllocError> {
        Ok(*self)
    }
}

impl<'a, C> Copy for SpacedColumns<'a, C> {}
