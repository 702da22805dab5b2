ghost use Rattle.std.specs.Prelude.{◌≡◌, ◌<◌, ◌++◌, false, flat_map, length, IfOk, OnOk, MatchOption};
ghost use Rattle.std.specs.List.{HoldsAt, list_any};
ghost use Rattle.std.specs.List.Sorted.{IsStrictlySortedBy};
ghost use Rattle.std.specs.Ordering.{int_cmp, int_eq};
ghost use Rattle.{ps_text.specs.Ranks.{anchor_of, anchors}, ps_heard.specs.Columns.{rising}};

use mus_units::{Memory, Row};
use ps_text::{PageMark, Staff};
use std::alloc::Global;

/// Adds the anchor of a mark, if the mark is at one.
fn put_anchor(out: &mut Row<i64>, mark: &PageMark) -> Result<(), Memory>
    ensures { OnOk result (out.new ≡ out.old ++ anchor_of mark.now) }
{
    match mark {
        PageMark::Glyph { x, .. } | PageMark::Words { x, .. } | PageMark::Stem { x, .. } => {
            out.push(*x)
        }
        PageMark::Beam { .. } | PageMark::Arc { .. } => Ok(()),
    }
}

fn put_anchors(out: &mut Row<i64>, marks: &[PageMark]) -> Result<(), Memory>
    ensures { OnOk result (out.new ≡ out.old ++ flat_map anchor_of marks.now) }
{
    for mark in marks {
        put_anchor(out, mark)?;
    }
    Ok(())
}

/// Returns the anchors of all staves of a system.
#[tactic(auto, unfolding(ps_text::specs::Ranks::anchors))]
fn anchors_of(alloc: Global, staves: &[Staff]) -> Result<Row<i64>, Memory>
    ensures { IfOk result (λ r. r ≡ anchors staves.now) }
{
    let mut out = Row::new(alloc);
    for staff in staves {
        put_anchors(&mut out, staff.marks.as_slice())?;
    }
    Ok(out)
}

/// Returns the numbers of a row in rising order, each once.
fn rising(numbers: Row<i64>) -> Row<i64>
    ensures value { result ≡ rising numbers }
    ensures rise { IsStrictlySortedBy int_cmp result }
{
    let mut items = numbers.items;
    items.sort_unstable();
    items.dedup();
    Row { items }
}

/// Returns the places of the columns of a system, from the left.
pub fn places_of(alloc: Global, staves: &[Staff]) -> Result<Row<i64>, Memory>
    ensures value { IfOk result (λ r. r ≡ rising (anchors staves.now)) }
    ensures rise { IfOk result (λ r. IsStrictlySortedBy int_cmp r) }
{
    Ok(rising(anchors_of(alloc, staves)?))
}

/// Returns the index of a number among rising numbers, if it is one of them.
pub fn place_of(numbers: &[i64], x: i64) -> Option<usize>
    requires { IsStrictlySortedBy int_cmp numbers.now }
    ensures { MatchOption result (list_any (int_eq x) numbers.now ≡ false)
        (λ k. (k < length numbers.now) × HoldsAt (λ y. y ≡ x) numbers.now k) }
{
    match numbers.binary_search(&x) {
        Ok(place) => Some(place),
        Err(_) => None,
    }
}
