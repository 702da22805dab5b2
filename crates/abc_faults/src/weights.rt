ghost use Rattle.std.specs.Prelude.{◌≡◌, ◌*◌, ◌++◌, length, map, max, OnOk};
ghost use Rattle.abc_faults.specs.Weights.{weight_at, capped, count_parts, grace_count, grace_weights_of};
ghost use Rattle.abc_faults.specs.Weights.{grace_weights};

use abc_music::GraceChord;
use abc_steps::{PlacedStep, Step, StoredSound};
use mus_score::HEAD_LIMIT;
use mus_units::{Few, Memory, Row, Value};

/// The number of heads and rests at a place of the text, or `HEAD_LIMIT` plus one if there are more. Weights are
/// ordered by their places, then by their counts.
#[derive(Clone, Copy, PartialEq, Eq, PartialOrd, Ord)]
pub struct Weight {
    pub line: u32,
    pub column: u32,
    pub count: u32,
}

pub(crate) fn weight_at(count: u128, at: &PlacedStep) -> Weight
    ensures { result ≡ capped (weight_at count at.now) }
{
    Weight {
        line: at.line,
        column: at.column,
        count: count.min(u128::from(HEAD_LIMIT) + 1) as u32,
    }
}

/// Returns the number of parts of a length with these parts, or one if it has none.
pub(crate) fn count_parts(parts: &Option<Few<Value>>) -> usize
    ensures { result ≡ count_parts parts.now }
{
    match parts {
        Some(values) => values.as_slice().len(),
        None => 1,
    }
}

/// Returns the number of heads of a note or a chord, or 1 for a rest, times its parts.
pub(crate) fn sound_count(s: &StoredSound, parts: usize) -> u128
    ensures { result ≡ max 1 (length s.now.heads) * parts }
{
    s.heads().len().max(1) as u128 * parts as u128
}

/// Returns the number of heads in a group of graces.
fn grace_count(body: &[GraceChord]) -> u128
    ensures { result ≡ grace_count body.now }
{
    let mut count = 0;
    for chord in body {
        count += chord.heads.len() as u128;
    }
    count
}

#[tactic(auto, unfolding(crate::specs::Weights::grace_weights_of))]
fn put_grace(out: &mut Row<Weight>, at: &PlacedStep) -> Result<(), Memory>
    ensures { OnOk result (out.new ≡ out.old ++ map capped (grace_weights_of at.now at.now.step)) }
{
    match &at.step {
        Step::Grace { slash: _, body } => out.push(weight_at(grace_count(body.as_slice()), at)),
        _ => Ok(()),
    }
}

/// Adds the weights of the graces pending for an event.
#[tactic(auto, using(crate::proofs::Caps::capped_append))]
pub(crate) fn put_graces(out: &mut Row<Weight>, waits: &[PlacedStep]) -> Result<(), Memory>
    ensures { OnOk result (out.new ≡ out.old ++ map capped (grace_weights waits.now)) }
{
    for s in waits {
        put_grace(out, s)?;
    }
    Ok(())
}
