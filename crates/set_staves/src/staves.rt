ghost use Rattle.std.specs.Prelude.{◌≡◌, ◌+ℤ◌, All, IfOk, length};
ghost use Rattle.{ps_text.specs.Range.{IsStaff}, law_marks_in_range.specs.{Ranks.AreMarksRanked, Texts.HavePrinted}};
ghost use Rattle.set_staves.specs.Drawn.{IsBase, IsOnPage, IsWidth};
ghost use Rattle.set_staves.specs.Marks.{RisesAlong, staff_at, staves_at};

use crate::marks::place_marks;
use mus_laid::StaffMarks;
use mus_units::{Memory, Row};
use ps_text::Staff;
use std::alloc::Global;

/// Returns the height of a base on the page.
fn base_at(top: i64, base: i64) -> i64
    requires { IsBase top base }
    ensures value { result ≡ top +ℤ base }
    ensures height { IsOnPage result }
{
    top + base
}

/// Returns a staff with its lowest line at `y`.
fn staff_for(alloc: Global, width: u32, at: &[i64], y: i64, s: &StaffMarks) -> Result<Staff, Memory>
    requires wide { IsWidth width }
    requires height { IsOnPage y }
    requires numbers { All IsOnPage at.now }
    requires rise { RisesAlong at.now }
    requires ranked { AreMarksRanked (length at.now) s.now.marks }
    requires printed { HavePrinted s.now.marks }
    ensures value { IfOk result (λ staff. staff ≡ staff_at width at.now y s.now) }
    ensures good { IfOk result IsStaff }
{
    let marks = place_marks(alloc, at, y, s.marks.as_slice())?;
    Ok(Staff { y, width, marks })
}

/// Returns each staff at its base.
pub fn staves_for(
    alloc: Global,
    width: u32,
    at: &[i64],
    top: i64,
    staves: &[StaffMarks],
    bases: &[i64],
) -> Result<Row<Staff>, Memory>
    requires wide { IsWidth width }
    requires numbers { All IsOnPage at.now }
    requires rise { RisesAlong at.now }
    requires ranked { All (λ s. AreMarksRanked (length at.now) s.marks) staves.now }
    requires printed { All (λ s. HavePrinted s.marks) staves.now }
    requires count { length bases.now ≡ length staves.now }
    requires heights { All (IsBase top) bases.now }
    ensures value { IfOk result (λ all. all ≡ staves_at width at.now top staves.now bases.now) }
    ensures good { IfOk result (All IsStaff) }
{
    let mut placed = Row::with_room(alloc, staves.len())?;
    for (staff, base) in staves.iter().zip(bases) {
        let y = base_at(top, *base);
        placed.push(staff_for(alloc, width, at, y, staff)?)?;
    }
    Ok(placed)
}
