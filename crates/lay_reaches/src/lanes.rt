ghost use Rattle.std.specs.Prelude.{◌≡◌, ◌++◌, ◌*◌, ◌^◌, ◌<◌, ◌≤◌, ℕ, All, IfOk, OnOk, length, slice_index};
ghost use Rattle.lay_reaches.specs.Lanes.{lane_count, lane_number, lanes_of, staff_gaps, gaps_of};

use crate::distances::{MAIN_GAP, OTHER_GAP};
use mus_laid::Lane;
use mus_units::{Memory, Row};
use std::alloc::Global;

/// Returns the number of lanes of a staff.
pub(crate) fn lane_count(verses: u8) -> usize
    ensures { result ≡ lane_count verses }
{
    3 + usize::from(verses)
}

/// Returns the number of a lane among those of its staff, from 0.
pub(crate) fn lane_number(lane: Lane) -> Option<usize>
    ensures { result ≡ lane_number lane }
{
    match lane {
        Lane::Main => Some(0),
        Lane::Above => Some(1),
        Lane::Below => Some(2),
        Lane::Verse(verse) => Some(3 + usize::from(verse)),
        Lane::Loose => None,
    }
}

/// Returns the number of lanes of a system; out of memory if there are too many to count.
pub(crate) fn lanes_of(verses: &[u8]) -> Result<usize, Memory>
    ensures { IfOk result (λ n. n ≡ lanes_of verses.now) }
{
    let mut lanes = 0usize;
    for count in verses {
        lanes = lanes.checked_add(lane_count(*count)).ok_or(Memory)?;
    }
    Ok(lanes)
}

fn put_gaps(out: &mut Row<u32>, verses: u8) -> Result<(), Memory>
    ensures { OnOk result (out.new ≡ out.old ++ staff_gaps verses) }
{
    out.push(MAIN_GAP)?;
    for _ in 1..lane_count(verses) {
        out.push(OTHER_GAP)?;
    }
    Ok(())
}

/// Returns the gap that columns keep in each lane, in u: 100 in main lanes, 300 in all others. The
/// lanes are, for each staff from the top: main, above, below and one per verse. `verses` has the
/// number of verses of each staff.
pub fn gaps_of(alloc: Global, verses: &[u8]) -> Result<Row<u32>, Memory>
    ensures value { IfOk result (λ r. r ≡ gaps_of verses.now) }
    ensures narrow { IfOk result (λ r. (lane : ℕ) → lane < length r → slice_index r lane ≤ 2 ^ 20) }
    ensures few { IfOk result (λ r. All (λ v. v ≤ 255) verses.now → length r ≤ 258 * length verses.now) }
{
    let mut out = Row::new(alloc);
    for count in verses {
        put_gaps(&mut out, *count)?;
    }
    Ok(out)
}
