// The table of the search, and reading the breaking from it.

ghost use Rattle.std.specs.Prelude.{◌≡◌, ◌+◌, ◌^◌, ◌<◌, ◌≤◌, ℕ, Option, List, if◌then◌else◌, nat_lt, IfOk, IsSome};
ghost use Rattle.std.specs.Prelude.{IsTrue, length, reverse, vec_len, slice_index, slice_index_or, slice_set};
ghost use Rattle.lay_breaks.specs.Table.{IsBreakTable, IsLeastBack, IsOffered, LeadsBack};

use crate::costs::Costs;
use std::alloc::{AllocError, Global};

/// For each bar the least sum of a legal prefix that ends there, and the bar at which its last span
/// begins.
#[derive(Drop)]
pub struct BreakTable {
    pub potentials: Vec<Option<u64>>,
    pub froms: Vec<u32>,
}

/// Records that bar i is reached at `sum` by a last span from bar a, unless it is known to be
/// reached at less.
fn offer(potentials: &mut [Option<u64>], froms: &mut [u32], i: usize, sum: u64, a: u32)
    requires one_each { i < length potentials.old }
    requires one_from { i < length froms.old }
    ensures { IsOffered (slice_index_or potentials.old i Option.None) sum
        ((potentials.new ≡ slice_set potentials.old i (Option.Some sum)) × (froms.new ≡ slice_set froms.old i a))
        ((potentials.new ≡ potentials.old) × (froms.new ≡ froms.old)) }
{
    match potentials[i] {
        Some(old) if old < sum => {}
        _ => {
            potentials[i] = Some(sum);
            froms[i] = a;
        }
    }
}

/// Tries the spans that begin at bar a, which is reached at the sum `so_far`.
fn try_spans<K: Costs>(
    costs: &K,
    n: u32,
    a: u32,
    so_far: u64,
    potentials: &mut [Option<u64>],
    froms: &mut [u32],
)
    requires bars { n ≡ K.bars costs.now }
    requires few { n ≤ 8388608 }
    requires inside { a < n }
    requires one_each { length potentials.old ≡ n + 1 }
    requires one_from { length froms.old ≡ n + 1 }
    requires known { IsBreakTable (K.badness costs.now) (K.is_forced costs.now) n a potentials.old froms.old }
    requires best { IsLeastBack (K.badness costs.now) (K.is_forced costs.now) a so_far }
    ensures { IsBreakTable (K.badness costs.now) (K.is_forced costs.now) n (a + 1) potentials.new froms.new }
{
    for b in a + 1..n + 1 {
        let Some(cost) = costs.cost(a, b) else {
            return;
        };
        offer(potentials, froms, b as usize, so_far + cost, a);
        if costs.forced(b) {
            return;
        }
    }
}

/// Returns the table of the bars 0 to `n`, once all spans have been tried.
pub fn fill<K: Costs>(alloc: Global, costs: &K, n: u32) -> Result<BreakTable, AllocError>
    requires bars { n ≡ K.bars costs.now }
    requires few { n ≤ 8388608 }
    ensures one_each { IfOk result (λ t. vec_len t.potentials ≡ n + 1) }
    ensures one_from { IfOk result (λ t. vec_len t.froms ≡ n + 1) }
    ensures known { IfOk result
        (λ t. IsBreakTable (K.badness costs.now) (K.is_forced costs.now) n n t.potentials.items t.froms.items) }
{
    let bars = n as usize + 1;
    let mut potentials = vec![in alloc; None; bars]?;
    let mut froms = vec![in alloc; 0; bars]?;
    potentials[0] = Some(0);
    for a in 0..n {
        let Some(so_far) = potentials[a as usize] else {
            continue;
        };
        try_spans(costs, n, a, so_far, &mut potentials, &mut froms);
    }
    Ok(BreakTable { potentials, froms })
}

/// Returns the bars on the way back from n through `froms`, rising.
pub fn walk_back(alloc: Global, froms: &[u32], n: u32) -> Result<Vec<u32>, AllocError>
    requires one_from { length froms.now ≡ n + 1 }
    requires falls { (i : ℕ) → 0 < i → i ≤ n → slice_index froms.now i < i }
    ensures { IfOk result (λ v. LeadsBack froms.now n (reverse v.items)) }
{
    let mut back = Vec::new(alloc);
    let mut at = n;
    while at > 0 {
        back.push(at)?;
        at = froms[at as usize];
    }
    back.reverse();
    Ok(back)
}

/// Returns the last bar that has a potential.
pub fn last_reached(potentials: &[Option<u64>], n: u32) -> u32
    requires one_each { length potentials.now ≡ n + 1 }
    requires begins { slice_index_or potentials.now 0 Option.None ≡ Option.Some 0 }
    ensures within { result ≤ n }
    ensures reached { IsSome (slice_index_or potentials.now result Option.None) }
    ensures greatest { (i : ℕ) → i ≤ n → IsSome (slice_index_or potentials.now i Option.None) → i ≤ result }
{
    let mut reached = 0;
    for i in 1..=n {
        if potentials[i as usize].is_some() {
            reached = i;
        }
    }
    reached
}
