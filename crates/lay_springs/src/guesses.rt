ghost use Rattle.std.specs.Prelude.{◌≡◌, ◌+◌, ◌-◌, ◌*◌, ◌<◌, ◌≤◌, ◌^◌, ℕ, ℤ, List, pos, ◌+ℤ◌, ◌≤ℤ◌, length};
ghost use Rattle.std.specs.Prelude.{slice_index_or};
ghost use Rattle.lay_springs.specs.{Fit.CanStandWithin, Place.{reach_at, length_at, slack, IsNearLeast, StandApart}};

use crate::progress::{Progress, TightSprings};
use crate::traits::{LinearSpring, Spaced};

/// Given columns that pass a width by `over` at `force`, returns a force from which on only `force`
/// itself can let them end within it.
pub(crate) fn lowered(force: u16, over: u64, tight: TightSprings) -> u16
    requires { over ≤ 2 ^ 49 }
    ensures below { result ≤ force }
    ensures past { (g drop : ℕ)
        → g + drop ≡ force → 0 < drop → result ≤ g → slack tight.natural tight.count drop < over }
{
    let room = (256 * over).saturating_sub(255 * tight.count);
    let steps = room.saturating_sub(1) / tight.natural.max(1);
    u64::from(force).saturating_sub(steps) as u16
}

/// Returns the greatest force below `high` that leaves at most `half` candidates from `low` to
/// `high` if it fits.
pub(crate) fn highest(low: u16, high: u16, half: u16) -> u16
    requires some { low < high }
    requires within { high ≤ 2049 }
    requires short { half ≤ 8196 }
    requires few { high < low + 2 * half }
    ensures low { low ≤ result }
    ensures high { result < high }
    ensures above { high ≤ result + half }
    ensures below { result < low + half }
{
    (high - 1).min(low + half - 1)
}

/// The abscissa of the last column if only springs hold the columns after the placed ones, and the
/// tight springs up to it.
struct Stretch {
    end: i64,
    springs: TightSprings,
}

/// Extends the placed columns, the last of which is at `from`, by springs alone. In any list that keeps the columns
/// apart at that force, the last column is no nearer.
fn stretched<C: Spaced + LinearSpring>(cols: &[C], from: i64, placed: Progress) -> Stretch
    requires few { length cols.now ≤ 2 ^ 26 }
    requires some { 0 < placed.count }
    requires within { placed.count ≤ length cols.now }
    requires tight { (placed.tight.natural ≤ 1048576 * placed.count) × (placed.tight.count ≤ placed.count) }
    requires begins { pos 0 ≤ℤ from }
    requires small { from ≤ℤ pos (1048576 + 3145728 * (placed.count - 1)) }
    requires force { placed.force ≤ 2048 }
    ensures small { (pos 0 ≤ℤ result.end) × (result.end ≤ℤ pos (2 ^ 48)) }
    ensures near { (gaps : List ℕ) (x : List ℤ) → slice_index_or x (placed.count - 1) (pos 0) ≡ from
        → IsNearLeast placed.count (reach_at C.reach_of cols.now) gaps (length_at C.length_of cols.now) placed.force
        placed.tight.natural placed.tight.count x
        → (g drop : ℕ) (y : List ℤ) → g + drop ≡ placed.force
        → StandApart (length cols.now) (reach_at C.reach_of cols.now) gaps (length_at C.length_of cols.now g) y
        → result.end ≤ℤ
        (slice_index_or y (length cols.now - 1) (pos 0) +ℤ pos
        (slack result.springs.natural result.springs.count drop)) }
{
    let mut end = from;
    let TightSprings {
        mut natural,
        mut count,
    } = placed.tight;
    for j in placed.count - 1..cols.len() - 1 {
        end += i64::from(cols[j].length(placed.force));
        natural += u64::from(cols[j].length(256));
        count += 1;
    }
    let springs = TightSprings { natural, count };
    Stretch { end, springs }
}

/// Returns a force from which on, up to that of the placed columns, the placed columns, the last of
/// which is at `from`, and the springs after them pass the width. If they don't pass it, returns one more than the
/// force of the placed columns.
pub(crate) fn too_long<C: Spaced + LinearSpring>(
    cols: &[C],
    width: u32,
    from: i64,
    placed: Progress,
) -> u16
    requires few { length cols.now ≤ 2 ^ 26 }
    requires some { 0 < placed.count }
    requires within { placed.count ≤ length cols.now }
    requires tight { (placed.tight.natural ≤ 1048576 * placed.count) × (placed.tight.count ≤ placed.count) }
    requires begins { pos 0 ≤ℤ from }
    requires small { from ≤ℤ pos (1048576 + 3145728 * (placed.count - 1)) }
    requires force { placed.force ≤ 2048 }
    ensures bound { result ≤ placed.force + 1 }
    ensures never { (gaps : List ℕ) (x : List ℤ) → slice_index_or x (placed.count - 1) (pos 0) ≡ from
        → IsNearLeast placed.count (reach_at C.reach_of cols.now) gaps (length_at C.length_of cols.now) placed.force
        placed.tight.natural placed.tight.count x
        → (f : ℕ) → result ≤ f → f ≤ placed.force
        → CanStandWithin (length cols.now) (reach_at C.reach_of cols.now) gaps (length_at C.length_of cols.now) width f
        → ⊥ }
{
    let Stretch { end, springs } = stretched(cols, from, placed);
    let width = i64::from(width);
    if end <= width {
        return placed.force + 1;
    }
    lowered(placed.force, (end - width) as u64, springs)
}
