//! The tunes of a sheet, each with its systems.

ghost use Rattle.std.specs.Prelude.{◌≡◌, ◌++◌, ◌∷◌, [], IfOk, OnOk};
ghost use Rattle.ps_heard.specs.Tunes.{items_of, most_staves, systems_till, tunes_of};

use mus_units::{Memory, Row};
use ps_text::{Item, Sheet, Staff};
use std::alloc::Global;
use std::marker::Model;

/// A borrowed item of a sheet.
#[derive(Drop)]
pub struct BorrowedItem<'a> {
    pub item: &'a Item,
}

impl<'a> Model for BorrowedItem<'a> {
    ghost use Rattle.ps_text.specs.declared.sheet.Item.{Item};

    ghost Value = { Item };

    ghost view = { λ s. s.item.now };
}

/// The borrowed staves of a system.
#[derive(Drop)]
pub struct BorrowedStaves<'a> {
    pub staves: &'a [Staff],
}

impl<'a> Model for BorrowedStaves<'a> {
    ghost use Rattle.std.specs.Prelude.{List};
    ghost use Rattle.ps_text.specs.declared.sheet.Staff.{Staff};

    ghost Value = { List Staff };

    ghost view = { λ s. s.staves.now };
}

/// A tune of a sheet: its ordinal, and its systems in order.
#[derive(Drop)]
pub struct SheetTune<'a> {
    pub ordinal: u32,
    pub systems: Row<BorrowedStaves<'a>>,
}

fn put_items<'a>(out: &mut Row<BorrowedItem<'a>>, items: &'a [Item]) -> Result<(), Memory>
    ensures { OnOk result (out.new ≡ out.old ++ items.now) }
{
    for item in items {
        out.push(BorrowedItem { item })?;
    }
    Ok(())
}

/// Returns all items of a sheet, page by page.
fn items_of<'a>(alloc: Global, s: &'a Sheet) -> Result<Row<BorrowedItem<'a>>, Memory>
    ensures { IfOk result (λ r. r ≡ items_of s.now) }
{
    let mut out = Row::new(alloc);
    for page in s.pages.as_slice() {
        put_items(&mut out, page.items.as_slice())?;
    }
    Ok(out)
}

/// Returns the systems before the next tune.
fn systems_till<'a>(
    alloc: Global,
    items: &[BorrowedItem<'a>],
) -> Result<Row<BorrowedStaves<'a>>, Memory>
    ensures { IfOk result (λ r. r ≡ systems_till items.now) }
{
    let mut out = Row::new(alloc);
    for shown in items {
        match shown.item {
            Item::Tune { .. } => return Ok(out),
            Item::Title { .. } => {}
            Item::System { staves, .. } => out.push(BorrowedStaves {
                staves: staves.as_slice(),
            })?,
        }
    }
    Ok(out)
}

/// Adds the tune that has these items.
fn put_part<'a>(
    alloc: Global,
    out: &mut Row<SheetTune<'a>>,
    ordinal: u32,
    items: &[BorrowedItem<'a>],
) -> Result<(), Memory>
    ensures { OnOk result (out.new ≡ out.old ++ record { ordinal = ordinal; systems = systems_till items.now } ∷ []) }
{
    let systems = systems_till(alloc, items)?;
    out.push(SheetTune { ordinal, systems })
}

/// Returns the tunes among items, in order.
fn tunes_among<'a>(alloc: Global, items: &[BorrowedItem<'a>]) -> Result<Row<SheetTune<'a>>, Memory>
    ensures { IfOk result (λ r. r ≡ tunes_of items.now) }
{
    let mut out = Row::new(alloc);
    for (at, shown) in items.iter().enumerate() {
        if let Item::Tune { ordinal } = shown.item {
            put_part(alloc, &mut out, *ordinal, &items[at + 1..])?;
        }
    }
    Ok(out)
}

/// Returns the tunes of a sheet, in order.
pub fn tunes_of<'a>(alloc: Global, s: &'a Sheet) -> Result<Row<SheetTune<'a>>, Memory>
    ensures { IfOk result (λ r. r ≡ tunes_of (items_of s.now)) }
{
    let items = items_of(alloc, s)?;
    tunes_among(alloc, items.as_slice())
}

/// Returns the number of staves of the largest of these systems.
pub fn most_staves(systems: &[BorrowedStaves<'_>]) -> usize
    ensures { result ≡ most_staves systems.now }
{
    let mut most = 0;
    for system in systems {
        most = most.max(system.staves.len());
    }
    most
}
