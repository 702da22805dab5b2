ghost use Rattle.std.specs.Prelude.{◌≡◌, All, IfOk, length};
ghost use Rattle.{ps_text.specs.Range.{IsItem}, law_marks_in_range.specs.Shown.{IsShown}};
ghost use Rattle.set_staves.specs.Drawn.{IsBase, IsOnPage, IsTop, IsWidth};
ghost use Rattle.set_staves.specs.Marks.{RisesAlong, ShowsCall, staves_of_item, system_at};

use crate::staves::staves_for;
use mus_laid::SystemMarks;
use mus_units::Memory;
use ps_text::Item;
use std::alloc::Global;

/// Returns a system as an item of a page. Its staves are `width` u long, at their bases, which are counted from
/// `top`, and each mark is where `at` has the columns of its ranks. All are in u. `Memory` means only that memory ran
/// out: the caller guarantees that the system can be shown and lies on the page.
pub fn system_item(
    alloc: Global,
    width: u32,
    top: i64,
    m: &SystemMarks,
    at: &[i64],
    bases: &[i64],
) -> Result<Item, Memory>
    requires shown { IsShown m.now }
    requires wide { IsWidth width }
    requires top { IsTop top }
    requires count { length at.now ≡ length m.now.keys }
    requires rise { RisesAlong at.now }
    requires numbers { All IsOnPage at.now }
    requires bases { length bases.now ≡ length m.now.staves }
    requires heights { All (IsBase top) bases.now }
    ensures item { IfOk result (λ item. item ≡ system_at width at.now top m.now bases.now) }
    ensures good { IfOk result IsItem }
    ensures shows { IfOk result (λ item. ShowsCall (staves_of_item item) m.now.staves) }
{
    let (a, b) = (m.a, m.b);
    let staves = staves_for(alloc, width, at, top, m.staves.as_slice(), bases)?;
    Ok(Item::System { a, b, staves })
}
