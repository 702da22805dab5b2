ghost use Rattle.std.specs.Prelude.{◌≡◌, ◌+◌, ◌^◌, ◌<◌, ◌≤◌, ℕ, true, false, length, slice_index};
ghost use Rattle.lay_springs.specs.Fit.{IsGreatestForce};
ghost use Rattle.lay_springs.specs.{Place.{reach_at, length_at}, Spaced.{FitAt, HaveGreatest, PassAt}};

use crate::columns::{Gaps, SpacedColumns};
use crate::forces::end_at;
use crate::placing::Placing;
use crate::progress::Progress;
use crate::traits::{Spaced, Spring};

/// The greatest force that springs are stretched by.
const MOST_FORCE: u16 = 2048;

/// Returns whether the columns end within the width at a force. Places them anew.
fn fits_at<C: Spaced + Spring>(placing: &mut Placing<'_, '_, C>, width: u32, force: u16) -> bool
    ensures columns { placing.new.columns ≡ placing.old.columns }
    ensures at { placing.new.at.ghost_name ≡ placing.old.at.ghost_name }
    ensures front { placing.new.front.ghost_name ≡ placing.old.front.ghost_name }
    ensures fits { result ≡ true → FitAt C.reach_of C.length_of placing.old.columns width force }
    ensures passes { result ≡ false → PassAt C.reach_of C.length_of placing.old.columns width force }
{
    placing.progress = Progress::none();
    end_at(placing, force).end <= i64::from(width)
}

/// Returns the greatest force at which the columns end within the width, as `fit` does.
fn greatest<C: Spaced + Spring>(placing: &mut Placing<'_, '_, C>, width: u32) -> Option<u16>
    ensures { HaveGreatest C.reach_of C.length_of placing.old.columns width 2048 result }
{
    let mut low = 0;
    let mut high = MOST_FORCE + 1;
    while low < high {
        let middle = (low + high) / 2;
        if fits_at(placing, width, middle) {
            low = middle + 1;
        } else {
            high = middle;
        }
    }
    if low == 0 { None } else { Some(low - 1) }
}

/// Returns the greatest force from 0 to 2048 at which the columns end within the width, in u; `None`
/// exactly when their end at force 0 passes it. It halves the forces that are left, and places the
/// columns at each that it tries. `search_within` gives the same for linear springs, in fewer tries.
///
/// `scratch` has an entry per column and one per lane. Takes no memory.
pub fn fit<'a, C: Spaced + Spring>(
    cols: &'a [C],
    gaps: &'a [u32],
    width: u32,
    scratch: &mut [i64],
) -> Option<u16>
    requires some { 0 < length cols.now }
    requires few { length cols.now ≤ 2 ^ 26 }
    requires lanes { length gaps.now < 2 ^ 32 }
    requires narrow { (lane : ℕ) → lane < length gaps.now → slice_index gaps.now lane ≤ 2 ^ 20 }
    requires room { length cols.now + length gaps.now ≤ length scratch.old }
    ensures { IsGreatestForce (length cols.now) (reach_at C.reach_of cols.now) gaps.now
        (length_at C.length_of cols.now) width 2048 result }
{
    let (at, front) = scratch.split_at_mut(cols.len());
    let mut placing = Placing {
        columns: SpacedColumns {
            cols,
            gaps: Gaps { list: gaps },
        },
        at,
        front: &mut front[..gaps.len()],
        progress: Progress::none(),
    };
    greatest(&mut placing, width)
}
