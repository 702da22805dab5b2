ghost use Rattle.std.specs.Prelude.{◌≡◌, ◌*◌, ◌/◌, ◌^◌, ◌<◌, ◌≤◌, ℕ, Option, IfSome};
ghost use Rattle.lay_springs.specs.ReachView.{cut_reach, reach_in, reach_in_view};

/// The largest value that a reach of a row counts as.
pub const MOST_REACH: u32 = 1 << 20;

/// How far a column extends to the left and to the right of its abscissa in a lane, in u.
#[derive(Clone, Copy, PartialEq, Eq)]
pub struct Reach {
    pub left: u32,
    pub right: u32,
}

/// A lane that a column is in, and its reach there.
#[derive(Clone, Copy)]
pub struct LaneReach {
    pub lane: u32,
    pub reach: Reach,
}

/// The reaches of a column: one lane alone, or a row with `None` for each lane that the column
/// isn't in. It is in no lane past the row. A reach of a row counts as at most 2^20.
#[derive(Clone, Copy)]
pub enum ReachView<'a> {
    OneLane(LaneReach),
    EachLane(&'a [Option<Reach>]),
}

/// Returns a reach, each side counted as at most 2^20.
pub fn cut_reach(reach: Reach) -> Reach
    ensures { result ≡ cut_reach reach }
{
    Reach {
        left: reach.left.min(MOST_REACH),
        right: reach.right.min(MOST_REACH),
    }
}

/// Returns the reach that a row has in a lane; `None` past its last.
#[tactic(auto, unfolding(crate::specs::ReachView::reach_in))]
pub fn reach_in(row: &[Option<Reach>], lane: usize) -> Option<Reach>
    ensures { result ≡ reach_in row.now lane }
{
    Some(cut_reach((*row.get(lane)?)?))
}

impl<'a> ReachView<'a> {
    /// Returns the reach in a lane; `None` exactly when the column isn't in it.
    pub(crate) fn at(&self, lane: usize) -> Option<Reach>
        ensures { result ≡ reach_in_view self.now lane }
    {
        match self {
            ReachView::OneLane(stand) if stand.lane as usize == lane => Some(stand.reach),
            ReachView::OneLane(_) => None,
            ReachView::EachLane(row) => reach_in(row, lane),
        }
    }
}

/// A column that is kept apart from others by rods, lane by lane.
pub trait Spaced {
    ghost use Rattle.lay_springs.specs.{declared.traits.Reach.Reach, ReachView.TellsReach};

    // the reach in a lane, if the column is in it
    ghost reach_of: { Self → ℕ → Option Reach };

    /// Returns the reaches of the column. Takes no memory.
    fn stands(&self) -> ReachView<'_>
        ensures { TellsReach result (reach_of self.now) };

    // no reach passes 2^20
    ghost is_near: { (c : Self) (lane : ℕ)
        → lane < 2 ^ 32 → IfSome (reach_of c lane) (λ r. (r.left ≤ 2 ^ 20) × (r.right ≤ 2 ^ 20)) };
}

/// A column from which a spring leads to the next.
pub trait Spring {
    // the length at a force
    ghost length_of: { Self → ℕ → ℕ };

    /// Returns the length of the spring at a force, in u. Takes no memory.
    fn length(&self, force: u16) -> u32
        ensures { result ≡ length_of self.now force };

    // the length doesn't fall as the force rises
    ghost rises: { (c : Self) (f g : ℕ) → f ≤ g → g < 2 ^ 16 → length_of c f ≤ length_of c g };

    // it is at most 2^20
    ghost is_short: { (c : Self) (f : ℕ) → f < 2 ^ 16 → length_of c f ≤ 2 ^ 20 };

    // at force 0 it is 0
    ghost is_slack: { (c : Self) → length_of c 0 ≡ 0 };
}

/// A column whose spring has a length in proportion to the force, rounded down. The natural length,
/// the one at force 256, is at most 2^12, as none passes 2^20.
pub trait LinearSpring: Spring {
    // the length is this part of the natural one
    ghost scales: { (c : Self) (f : ℕ) → Self.length_of c f ≡ Self.length_of c 256 * f / 256 };
}
