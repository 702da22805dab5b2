ghost use Rattle.std.specs.{Prelude.◌≡◌, Prelude.IfOk, List.Sorted.IsPermutation};
ghost use Rattle.abc_faults.specs.First.{first_of, IsFirstInOrder};
ghost use Rattle.abc_faults.specs.Weights.{AreInOrder, crowded, crowd_fault};

use crate::weights::Weight;
use abc_lines::{Fault, FaultKind};
use mus_score::HEAD_LIMIT;
use mus_units::{Memory, Row};
use std::alloc::Global;

fn crowd_fault(w: Weight) -> Fault
    ensures { result ≡ crowd_fault w }
{
    Fault {
        kind: FaultKind::TooManyEvents,
        line: w.line,
        column: w.column,
    }
}

/// Returns the fault at the first weight that makes the sum too large, given weights in the order of the text.
fn first_crowded(weights: &[Weight]) -> Option<Fault>
    requires { AreInOrder weights.now }
    ensures { IsFirstInOrder (crowded weights.now) result }
{
    let mut left = HEAD_LIMIT;
    for w in weights {
        if w.count > left {
            return Some(crowd_fault(*w));
        }
        left -= w.count;
    }
    None
}

/// Returns the weights in the order of the text.
fn in_order(alloc: Global, weights: Row<Weight>) -> Result<Row<Weight>, Memory>
    ensures order { IfOk result (λ r. AreInOrder r) }
    ensures same { IfOk result (λ r. IsPermutation weights r) }
{
    let mut items = weights.items;
    items.as_mut_slice().sort(alloc)?;
    Ok(Row { items })
}

/// Returns the fault at the first place of a tune up to which there are more than 50,000 heads and rests, given the
/// weights of all its voices in any order. `None` exactly when there is no such place.
pub fn crowding(alloc: Global, weights: Row<Weight>) -> Result<Option<Fault>, Memory>
    ensures value { IfOk result (λ f. f ≡ first_of (crowded weights)) }
    ensures first { IfOk result (λ f. IsFirstInOrder (crowded weights) f) }
{
    let weights = in_order(alloc, weights)?;
    Ok(first_crowded(weights.as_slice()))
}
