ghost use Rattle.std.specs.Prelude.{◌≡◌, ◌+◌, ◌^◌, ◌<◌, ◌≤◌, ℕ, ℤ, pos, ◌≤ℤ◌, IfSome, IfNone, length, slice_index};
ghost use Rattle.std.specs.Prelude.{slice_index_or};
ghost use Rattle.lay_springs.specs.Fit.{IsEndOf, LongerFitsLess, OneForce, most_columns};
ghost use Rattle.lay_springs.specs.Place.{reach_at, length_at, slack, AreLinear};
ghost use Rattle.lay_springs.specs.Spaced.{CanStand, FitAt, HaveEnd, HaveGreatest, HavePlaced};

use crate::columns::SpacedColumns;
use crate::guesses::{highest, lowered, too_long};
use crate::least::{larger, place_all, place_to};
use crate::placing::{Found, Placing};
use crate::progress::Progress;
use crate::traits::{LinearSpring, Spaced, Spring};

/// Where columns end that are placed, and their progress.
#[derive(Clone, Copy)]
pub(crate) struct Ended {
    pub(crate) end: i64,
    pub(crate) progress: Progress,
}

/// Returns the end of a column at `at`.
pub(crate) fn end_of<C: Spaced>(col: &C, lanes: usize, at: i64) -> i64
    requires few { lanes < 2 ^ 32 }
    requires begins { pos 0 ≤ℤ at }
    requires small { at ≤ℤ pos (2 ^ 60) }
    ensures { IsEndOf (C.reach_of col.now) lanes at result }
{
    let stands = col.stands();
    let mut end = at;
    for lane in 0..lanes {
        let Some(r) = stands.at(lane) else {
            continue;
        };
        end = larger(end, at + i64::from(r.right));
    }
    end
}

/// Places the columns at a force and returns their end. If their springs are linear, the tight
/// springs bound how far it can fall with the force.
pub(crate) fn end_at<C: Spaced + Spring>(placing: &mut Placing<'_, '_, C>, force: u16) -> Ended
    requires placed { HavePlaced C.reach_of C.length_of placing.old.columns placing.old.progress placing.old.at.now
        placing.old.front.now }
    ensures columns { placing.new.columns ≡ placing.old.columns }
    ensures at { placing.new.at.ghost_name ≡ placing.old.at.ghost_name }
    ensures front { placing.new.front.ghost_name ≡ placing.old.front.ghost_name }
    ensures progress { placing.new.progress ≡ result.progress }
    ensures placed { HavePlaced C.reach_of C.length_of placing.old.columns result.progress placing.new.at.now
        placing.new.front.now }
    ensures end { HaveEnd C.reach_of C.length_of placing.old.columns force result.end }
    ensures begins { pos 0 ≤ℤ result.end }
    ensures small { result.end ≤ℤ pos (2 ^ 49) }
    ensures near { AreLinear (length placing.old.columns.cols.now) (length_at C.length_of placing.old.columns.cols.now)
        → (g drop width : ℕ) → g + drop ≡ force → CanStand C.reach_of C.length_of placing.old.columns width g
        → result.end ≤ℤ pos (width + slack result.progress.tight.natural result.progress.tight.count drop) }
{
    let SpacedColumns { cols, gaps, .. } = placing.columns;
    let progress = place_all(placing, force);
    let last = cols.len() - 1;
    let at = placing.at[last];
    Ended {
        end: end_of(&cols[last], gaps.list.len(), at),
        progress,
    }
}

/// Returns `None` if the columns end within the width at a force. Otherwise returns a force, at
/// most the given one, from which on they can't.
fn too_great<C: Spaced + LinearSpring>(
    placing: &mut Placing<'_, '_, C>,
    width: u32,
    force: u16,
) -> Option<u16>
    requires placed { HavePlaced C.reach_of C.length_of placing.old.columns placing.old.progress placing.old.at.now
        placing.old.front.now }
    ensures columns { placing.new.columns ≡ placing.old.columns }
    ensures at { placing.new.at.ghost_name ≡ placing.old.at.ghost_name }
    ensures front { placing.new.front.ghost_name ≡ placing.old.front.ghost_name }
    ensures placed { HavePlaced C.reach_of C.length_of placing.old.columns placing.new.progress placing.new.at.now
        placing.new.front.now }
    ensures fits { IfNone result (FitAt C.reach_of C.length_of placing.old.columns width force) }
    ensures below { IfSome result (λ past. past ≤ force) }
    ensures never { IfSome result (λ past. (g : ℕ) → past ≤ g → g < 2 ^ 16
        → CanStand C.reach_of C.length_of placing.old.columns width g
        → ⊥) }
{
    let Ended { end, progress } = end_at(placing, force);
    if end <= i64::from(width) {
        return None;
    }
    Some(lowered(force, (end - i64::from(width)) as u64, progress.tight))
}

/// Returns the most columns that fit within a width, in u, if neighbors are 100 apart.
pub fn most_columns(width: u32) -> usize
    ensures { result ≡ most_columns width }
{
    width as usize / 100 + 1
}

/// Returns the number of columns up to and including the first one with a spring.
fn head_of<C: Spring>(cols: &[C]) -> usize
    ensures { result ≤ length cols.now }
{
    for j in 0..cols.len() {
        if 0 < cols[j].length(256) {
            return j + 1;
        }
    }
    cols.len()
}

impl<'a, 's, C: Spaced + LinearSpring> Placing<'a, 's, C> {
    /// Returns the greatest force from 0 to `most` at which the columns end within the width, in u;
    /// `None` exactly when their end at force 0 passes it; and how far they are placed then. The
    /// search tries the highest remaining force that still lets it finish within 15 forces in all.
    /// If no column is placed yet, it first places those of the head, and searches below the force
    /// from which on the springs after them pass the width. If the columns end past the width, the
    /// tight springs give a lower bound on how far the force has to fall.
    ///
    /// A search for columns that continue others resumes from those that are placed, if it begins at
    /// their force. Takes no memory.
    pub fn search_within(&mut self, width: u32, most: u16) -> Found
        requires most { most ≤ 2048 }
        requires placed { HavePlaced C.reach_of C.length_of self.old.columns self.old.progress self.old.at.now
            self.old.front.now }
        ensures columns { self.new.columns ≡ self.old.columns }
        ensures at { self.new.at.ghost_name ≡ self.old.at.ghost_name }
        ensures front { self.new.front.ghost_name ≡ self.old.front.ghost_name }
        ensures progress { self.new.progress ≡ result.progress }
        ensures placed { HavePlaced C.reach_of C.length_of self.old.columns result.progress self.new.at.now
            self.new.front.now }
        ensures greatest { HaveGreatest C.reach_of C.length_of self.old.columns width most result.force }
    {
        let mut low = 0;
        let mut high = first_past(self, width, most);
        let mut half = 8196;
        while low < high {
            let force = highest(low, high, half);
            half = half.div_ceil(2);
            match too_great(self, width, force) {
                None => low = force + 1,
                Some(past) => high = past,
            }
        }
        let progress = self.progress;
        if low == 0 {
            return Found {
                force: None,
                progress,
            };
        }
        Found {
            force: Some(low - 1),
            progress,
        }
    }
}

/// Returns a force from which on the columns can't be within the width, or one more than `most`. If
/// no column is placed yet, places those of the head at `most`.
fn first_past<C: Spaced + LinearSpring>(
    placing: &mut Placing<'_, '_, C>,
    width: u32,
    most: u16,
) -> u16
    requires most { most ≤ 2048 }
    requires placed { HavePlaced C.reach_of C.length_of placing.old.columns placing.old.progress placing.old.at.now
        placing.old.front.now }
    ensures columns { placing.new.columns ≡ placing.old.columns }
    ensures at { placing.new.at.ghost_name ≡ placing.old.at.ghost_name }
    ensures front { placing.new.front.ghost_name ≡ placing.old.front.ghost_name }
    ensures placed { HavePlaced C.reach_of C.length_of placing.old.columns placing.new.progress placing.new.at.now
        placing.new.front.now }
    ensures bound { result ≤ most + 1 }
    ensures never { (g : ℕ) → result ≤ g → g ≤ most → CanStand C.reach_of C.length_of placing.old.columns width g
        → ⊥ }
{
    if 0 < placing.progress.count {
        return most + 1;
    }
    let columns = placing.columns;
    let progress = place_to(placing, most, head_of(columns.cols));
    let last = placing.at[progress.count - 1];
    too_long(columns.cols, width, last, progress)
}

/// A law of `search_within`: a list of columns that continues another, and whose last column has a
/// reach in each lane, never has a greater force, and doesn't fit if the other doesn't. Does
/// nothing.
pub fn longer_fits_less<C: Spaced + Spring>()
    ensures { LongerFitsLess C.reach_of C.length_of }
{}

/// A law of `fit` and `search_within`: columns have only one greatest force up to a bound, or none. So
/// both give one answer. Does nothing.
pub fn one_force<C: Spaced + Spring>()
    ensures { OneForce C.reach_of C.length_of }
{}
