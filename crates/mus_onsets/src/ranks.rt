ghost use Rattle.std.specs.Prelude.{◌≡◌};
ghost use Rattle.mus_onsets.specs.{Order.class_number, Order.is_below, Order.key_rank, Order.same_key, Ranks.AreRanked};

use crate::keys::ColumnKey;

/// Returns whether two keys belong to one column.
#[tactic(auto, unfolding(crate::specs::Order::same_key))]
pub fn is_same(k: ColumnKey, l: ColumnKey) -> bool
    ensures { result ≡ same_key k l }
{
    k.measure == l.measure && k.tick == l.tick && k.class == l.class && k.place == l.place
}

/// Returns whether a key comes before another.
fn is_below(key: &ColumnKey, other: ColumnKey) -> bool
    ensures { result ≡ is_below key.now other }
{
    *key < other
}

/// Returns the rank of a column among those of its system: the number of keys before its own.
pub fn rank_of(keys: &[ColumnKey], key: ColumnKey) -> u32
    requires { AreRanked keys.now }
    ensures { result ≡ key_rank keys.now key }
{
    keys.partition_point(|k| is_below(k, key)) as u32
}

/// Returns the rank of a column, as `key_rank` defines it. Tries the place `near` first and then sets it to the next
/// place, so columns that are asked for in order are found at once.
pub fn next_rank(keys: &[ColumnKey], near: &mut usize, key: ColumnKey) -> u32
    requires { AreRanked keys.now }
    ensures { result ≡ key_rank keys.now key }
{
    let rank = match keys.get(*near) {
        Some(found) if *found == key => *near as u32,
        _ => rank_of(keys, key),
    };
    *near = rank as usize + 1;
    rank
}
