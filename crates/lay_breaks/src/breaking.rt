ghost use Rattle.std.specs.Prelude.{◌≡◌, ◌+◌, ◌^◌, ◌<◌, ◌≤◌, ℕ, Option, IfOk, IfErr, length, slice_index_or};
ghost use Rattle.lay_breaks.specs.Breaking.{IsChosen, sum_from, IsPotential, OneIsChosen};
ghost use Rattle.lay_breaks.specs.Answers.{IsCause};
ghost use Rattle.lay_breaks.specs.declared.breaking.BreakError.TheVariants.{Memory};

use crate::costs::Costs;
use crate::table::{BreakTable, fill, last_reached, walk_back};
use mus_units::Row;
use std::alloc::{AllocError, Global};

/// A breaking of the bars 1 to n.
#[derive(Drop)]
pub struct Breaking {
    /// The bars at which its spans end, rising; the last is n. Empty if n is 0.
    pub breaks: Row<u32>,
    /// The total cost of its spans.
    pub total: u64,
    /// For each bar from 0 to n the least sum of a legal prefix that ends there, or `None` if no
    /// legal prefix does.
    pub potentials: Row<Option<u64>>,
}

/// Why there is no breaking.
#[derive(Clone, Copy, PartialEq, Eq)]
pub enum BreakError {
    /// No breaking is legal; `reached` is the greatest bar at which a legal prefix ends.
    NoWay { reached: u32 },
    /// Memory ran out.
    Memory,
}

impl From<AllocError> for BreakError {
    ghost from_gives = { λ _ e. e ≡ Memory };

    fn from(_: AllocError) -> Self {
        BreakError::Memory
    }
}

/// Returns the legal breaking of the bars 1 to `n` that is least in sum. Among equals it is the one
/// that, read from its end, is lexicographically greatest.
///
/// `n` is the number of bars of `costs`. Returns `NoWay` exactly when no legal breaking exists.
/// From each bar it asks for the spans from the shortest on, up to the first that doesn't fit.
pub fn least<K: Costs>(alloc: Global, costs: &K, n: u32) -> Result<Breaking, BreakError>
    requires bars { n ≡ K.bars costs.now }
    requires few { n ≤ 8388608 }
    ensures chosen { IfOk result (λ b. IsChosen (K.badness costs.now) (K.is_forced costs.now) n b.breaks) }
    ensures total { IfOk result (λ b. b.total ≡ sum_from (K.badness costs.now) 0 b.breaks) }
    ensures one_each { IfOk result (λ b. length b.potentials ≡ n + 1) }
    ensures potentials { IfOk result (λ b. (i : ℕ) → i ≤ n
        → IsPotential (K.badness costs.now) (K.is_forced costs.now) i (slice_index_or b.potentials i Option.None)) }
    ensures no_way { IfErr result (IsCause (K.badness costs.now) (K.is_forced costs.now) n) }
{
    let BreakTable { potentials, froms } = fill(alloc, costs, n)?;
    match potentials[n as usize] {
        Some(total) => {
            let breaks = walk_back(alloc, &froms, n)?;
            Ok(Breaking {
                breaks: Row { items: breaks },
                total,
                potentials: Row { items: potentials },
            })
        }
        None => Err(BreakError::NoWay {
            reached: last_reached(&potentials, n),
        }),
    }
}

/// The law that the chosen breaking is unique: two calls with the same costs agree.
pub fn one_is_chosen()
    ensures { OneIsChosen }
{}
