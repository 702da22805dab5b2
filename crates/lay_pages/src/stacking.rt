ghost use Rattle.std.specs.Prelude.{◌≡◌, ◌≤◌, ◌-◌, ◌++◌, ◌^◌, pos, ◌-ℤ◌, ◌≤ℤ◌, length, IfOk, OnOk};
ghost use Rattle.lay_pages.specs.Distances.{tallest_block};
ghost use Rattle.lay_pages.specs.Stacking.{AreGoodStaves, AreStavesStacked, above_base, below_base, under_top};
ghost use Rattle.lay_pages.specs.Stacking.{bases_after, bases_under, bottom_after, bottom_under};

use mus_laid::{StaffMarks, SystemMarks};
use mus_units::{Memory, Row};
use std::alloc::Global;

/// The staves of a block: the height of each base line, counted from the top of the block and so
/// negative below it, and the height of the block, in u.
#[derive(Drop)]
pub struct Heights {
    pub bases: Row<i64>,
    pub height: i64,
}

/// Stacks the staves of a system. The highest mark of the first is at the top; each next staff's
/// highest mark is below the lowest mark of the one before, by the gap before that staff. There is
/// a gap for each staff but the first, in u. The block ends at the lowest mark of the last.
pub fn stack(alloc: Global, system: &SystemMarks, gaps: &[u32]) -> Result<Heights, Memory>
    requires few { length system.now.staves ≤ 16 }
    requires good { AreGoodStaves system.now.staves }
    requires gaps { length gaps.now ≡ length system.now.staves - 1 }
    ensures stacked { IfOk result
        (λ h. AreStavesStacked (pos 0) gaps.now system.now.staves h.bases (pos 0 -ℤ h.height)) }
    ensures low { IfOk result (λ h. pos 0 ≤ℤ h.height) }
    ensures high { IfOk result (λ h. h.height ≤ℤ pos tallest_block) }
{
    let (bases, bottom) = bases_under(alloc, system.staves.as_slice(), gaps)?;
    Ok(Heights {
        bases,
        height: bottom as i64,
    })
}

/// Returns how far a height is above the base line.
fn above_base(height: i32) -> u64
    ensures value { result ≡ above_base height }
    ensures most { result ≤ 2 ^ 31 }
{
    if height < 0 { 0 } else { height as u64 }
}

/// Returns how far a height is below the base line.
fn below_base(height: i32) -> u64
    ensures value { result ≡ below_base height }
    ensures most { result ≤ 2 ^ 31 }
{
    if height < 0 {
        u64::from(height.unsigned_abs())
    } else {
        0
    }
}

/// Returns the height of what is this far below the top of the block.
fn under_top(down: u64) -> i64
    requires { down ≤ tallest_block }
    ensures { result ≡ under_top down }
{
    -(down as i64)
}

/// Adds the bases of staves under one whose lowest mark is this far below the top. Returns how far
/// below the top the lowest mark of the last staff is.
fn put_bases(
    bases: &mut Row<i64>,
    bottom: u64,
    staves: &[StaffMarks],
    gaps: &[u32],
) -> Result<u64, Memory>
    requires few { length staves.now ≤ 16 }
    requires each { length gaps.now ≡ length staves.now }
    requires low { bottom ≤ 2 ^ 33 }
    ensures bases { OnOk result (bases.new ≡ bases.old ++ bases_after bottom staves.now gaps.now) }
    ensures bottom { IfOk result (λ r. r ≡ bottom_after bottom staves.now gaps.now) }
    ensures within { IfOk result (λ r. r ≤ tallest_block) }
{
    let mut bottom = bottom;
    for (staff, gap) in staves.iter().zip(gaps) {
        let base = bottom + u64::from(*gap) + above_base(staff.high);
        bases.push(under_top(base))?;
        bottom = base + below_base(staff.low);
    }
    Ok(bottom)
}

/// Returns the bases of staves, and how far the lowest mark of the last is below the top.
fn bases_under(
    alloc: Global,
    staves: &[StaffMarks],
    gaps: &[u32],
) -> Result<(Row<i64>, u64), Memory>
    requires few { length staves.now ≤ 16 }
    requires each { length gaps.now ≡ length staves.now - 1 }
    ensures bases { IfOk result (λ r. r.0 ≡ bases_under staves.now gaps.now) }
    ensures bottom { IfOk result (λ r. r.1 ≡ bottom_under staves.now gaps.now) }
    ensures within { IfOk result (λ r. r.1 ≤ tallest_block) }
{
    let mut bases = Row::new(alloc);
    let [first, more @ ..] = staves else {
        return Ok((bases, 0));
    };
    let base = above_base(first.high);
    bases.push(under_top(base))?;
    let bottom = put_bases(&mut bases, base + below_base(first.low), more, gaps)?;
    Ok((bases, bottom))
}
