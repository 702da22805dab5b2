ghost use Rattle.std.specs.Prelude.{◌≡◌, ◌++◌, map, IfSome, OnOk};
ghost use Rattle.{mus_onsets.specs.{Order.key_rank, Ranks.AreRanked}, mus_laid.specs.Ranked.{bridge_at, span_at}};

use crate::drawn::{Bridge, BridgeShape};
use crate::laid::{Laid, Lane, Mark};
use mus_onsets::{ColumnKey, rank_of};
use mus_units::{Memory, Row};

/// How many columns are tried in turn before a binary search.
const NEAR: usize = 16;

/// Returns the rank of a column if the column is at this place among the keys.
pub(crate) fn found_at(keys: &[ColumnKey], place: usize, key: ColumnKey) -> Option<u32>
    requires { AreRanked keys.now }
    ensures { IfSome result (λ rank. rank ≡ key_rank keys.now key) }
{
    match keys.get(place) {
        Some(found) if *found == key => Some(place as u32),
        _ => None,
    }
}

/// Returns the rank of a column, which is usually a few places after that of another.
fn rank_after(keys: &[ColumnKey], other: u32, key: ColumnKey) -> u32
    requires { AreRanked keys.now }
    ensures { result ≡ key_rank keys.now key }
{
    let other = other as usize;
    for place in other..other + NEAR {
        if let Some(rank) = found_at(keys, place, key) {
            return rank;
        }
    }
    rank_of(keys, key)
}

fn span_at(first: u32, last: u32, span: BridgeShape) -> Mark
    ensures { result ≡ span_at first last span }
{
    match span {
        BridgeShape::Beam { way, from, to } => Mark::Beam {
            way,
            first,
            last,
            from,
            to,
        },
        BridgeShape::Arc { from, to, bulge } => Mark::Arc {
            first,
            last,
            from,
            to,
            bulge,
        },
    }
}

/// Adds beams and arcs, in order, each by the ranks of its two columns in the system of these keys. The only error is
/// out of memory.
pub fn put_bridges(
    out: &mut Row<Laid>,
    keys: &[ColumnKey],
    bridges: &[Bridge],
) -> Result<(), Memory>
    requires { AreRanked keys.now }
    ensures { OnOk result (out.new ≡ out.old ++ map (bridge_at keys.now) bridges.now) }
{
    let mut first = 0;
    for bridge in bridges {
        first = rank_after(keys, first, bridge.first);
        let last = rank_after(keys, first, bridge.last);
        out.push(Laid {
            mark: span_at(first, last, bridge.span),
            lane: Lane::Loose,
        })?;
    }
    Ok(())
}
