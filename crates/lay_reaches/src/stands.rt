ghost use Rattle.std.specs.Prelude.{◌≡◌, ◌<◌, IfOk, IfSome, None, OnOk, Option, Some, length, option_copied, replicate};
ghost use Rattle.std.specs.Prelude.{slice_get, slice_index_or, slice_set};
ghost use Rattle.std.proofs.Props.{props};
ghost use Rattle.lay_reaches.specs.Reaches.{standing};
ghost use Rattle.lay_springs.specs.ReachView.{TellsReach, reach_in};

use lay_springs::{LaneReach, Reach, ReachView, cut_reach};
use mus_units::{Memory, Row};
use std::alloc::Global;
use std::marker::Model;

/// A number of lanes, and the reach in one of them, if the column is in it. The column is in no
/// other lane.
#[derive(Clone, Copy)]
struct Single {
    lanes: usize,
    lane: usize,
    reach: Option<Reach>,
    ghost inside: { IfSome reach (λ r. lane < lanes) } by { Prim.hlevel props },
}

/// A reach or none for each lane, stored inline for the three lanes of a staff without verses.
#[derive(Drop)]
enum LaneReaches {
    Three([Option<Reach>; 3]),
    Row(Row<Option<Reach>>),
}

impl LaneReaches {
    ghost use Rattle.lay_reaches.specs.Stands.{reaches_of};

    fn as_slice(&self) -> &[Option<Reach>]
        ensures { result.now ≡ reaches_of self.now }
    {
        match self {
            LaneReaches::Three(reaches) => reaches,
            LaneReaches::Row(reaches) => reaches.as_slice(),
        }
    }

    fn get(&self, lane: usize) -> Option<&Option<Reach>>
        ensures { option_copied result ≡ slice_get (reaches_of self.now) lane }
    {
        self.as_slice().get(lane)
    }
}

/// Storage for the reaches of a column: a single lane or none, or an entry per lane.
#[derive(Drop)]
enum ReachStore {
    Single(Single),
    Row(LaneReaches),
}

/// The reach of a column in each lane, `None` if the column isn't in it. Contracts see it as a
/// list. A column in at most one lane takes no memory.
#[derive(Drop)]
pub struct Reaches {
    held: ReachStore,
}

impl Model for Reaches {
    ghost use Rattle.std.specs.Prelude.{List, Option};
    ghost use Rattle.lay_springs.specs.declared.traits.Reach.{Reach};

    ghost Value = { List (Option Reach) };

    ghost use Rattle.lay_reaches.specs.Stands.{stored_reaches};

    ghost view = { λ r. stored_reaches r.held };
}

impl Reaches {
    /// Returns the reaches in some lanes before any mark: 0 to both sides in each, or none.
    pub(crate) fn bare(alloc: Global, always: bool, lanes: usize) -> Result<Reaches, Memory>
        ensures { IfOk result (λ r. r ≡ replicate lanes (standing always None)) }
    {
        if !always {
            let single = Single {
                lanes,
                lane: 0,
                reach: None,
            };
            return Ok(Reaches {
                held: ReachStore::Single(single),
            });
        }
        let here = Reach { left: 0, right: 0 };
        if lanes == 3 {
            return Ok(Reaches {
                held: ReachStore::Row(LaneReaches::Three([Some(here); 3])),
            });
        }
        let items = vec![in alloc; Some(here); lanes]?;
        Ok(Reaches::from(Row { items }))
    }

    /// Returns the number of lanes.
    pub fn len(&self) -> usize
        ensures { result ≡ length self.now }
    {
        match &self.held {
            ReachStore::Single(single) => single.lanes,
            ReachStore::Row(row) => row.as_slice().len(),
        }
    }

    /// Returns the reach in a lane; `None` past the last.
    #[tactic(auto, using(crate::proofs::Lone::row_at))]
    pub fn at(&self, lane: usize) -> Option<Reach>
        ensures { result ≡ slice_index_or self.now lane None }
    {
        match &self.held {
            ReachStore::Single(single) if single.lane == lane => single.reach,
            ReachStore::Single(_) => None,
            ReachStore::Row(row) => match row.get(lane) {
                Some(reach) => *reach,
                None => None,
            },
        }
    }

    /// Returns the reaches as the column's view of its lanes.
    pub(crate) fn stands(&self) -> ReachView<'_>
        ensures { TellsReach result (reach_in self.now) }
    {
        let single = match &self.held {
            ReachStore::Single(single) => single,
            ReachStore::Row(row) => return ReachView::EachLane(row.as_slice()),
        };
        let Some(reach) = single.reach else {
            return ReachView::EachLane(&[]);
        };
        let Ok(lane) = u32::try_from(single.lane) else {
            return ReachView::EachLane(&[]);
        };
        let reach = cut_reach(reach);
        ReachView::OneLane(LaneReach { lane, reach })
    }

    /// Sets the reach in a lane.
    pub(crate) fn put(&mut self, alloc: Global, lane: usize, reach: Reach) -> Result<(), Memory>
        requires { lane < length self.old }
        ensures { OnOk result (self.new ≡ slice_set self.old lane (Some reach)) }
    {
        match &mut self.held {
            ReachStore::Row(LaneReaches::Three(row)) => row.as_mut_slice()[lane] = Some(reach),
            ReachStore::Row(LaneReaches::Row(row)) => row.items[lane] = Some(reach),
            ReachStore::Single(single) => {
                let reaches = with_reach(alloc, *single, lane, reach)?;
                *self = reaches;
            }
        }
        Ok(())
    }
}

/// Adds a reach in a lane: inline if there was none or one of the same lane, else as a row.
fn with_reach(alloc: Global, single: Single, lane: usize, reach: Reach) -> Result<Reaches, Memory>
    requires { lane < single.lanes }
    ensures { IfOk result
        (λ r. r ≡ slice_set (slice_set (replicate single.lanes None) single.lane single.reach) lane (Some reach)) }
{
    match single.reach {
        Some(other) if single.lane != lane => {
            let mut items = vec![in alloc; None; single.lanes]?;
            items[single.lane] = Some(other);
            items[lane] = Some(reach);
            Ok(Reaches::from(Row { items }))
        }
        _ => {
            let single = Single {
                lanes: single.lanes,
                lane,
                reach: Some(reach),
            };
            Ok(Reaches {
                held: ReachStore::Single(single),
            })
        }
    }
}

impl From<Row<Option<Reach>>> for Reaches {
    ghost from_gives = { λ row reaches. reaches ≡ row };

    fn from(row: Row<Option<Reach>>) -> Reaches {
        Reaches {
            held: ReachStore::Row(LaneReaches::Row(row)),
        }
    }
}
