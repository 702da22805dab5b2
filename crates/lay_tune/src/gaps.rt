ghost use Rattle.std.specs.Prelude.{◌≡◌, IfOk};
ghost use Rattle.lay_tune.specs.Systems.{gaps_between};

use mus_score::Voice;
use mus_units::{Memory, Row};
use std::alloc::Global;

/// Returns the distance that each staff but the first keeps from the one above it, in u.
pub(crate) fn gaps_between(alloc: Global, voices: &[Voice]) -> Result<Row<u32>, Memory>
    ensures { IfOk result (λ r. r ≡ gaps_between voices.now) }
{
    let mut gaps = Row::new(alloc);
    let [_, others @ ..] = voices else {
        return Ok(gaps);
    };
    for v in others {
        if !v.seat.is_lower() {
            gaps.push(v.gap)?;
        }
    }
    Ok(gaps)
}
