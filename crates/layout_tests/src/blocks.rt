//! Staves under one another, and blocks on pages.

ghost use Rattle.std.specs.Prelude.{◌≡◌, ◌≤◌, ◌^◌, IfOk, IfSome, IsTrue, length};
ghost use Rattle.lay_pages.specs.{Stacking.AreGoodStaves, Filling.AreGoodBlocks};

use case_texts::{
    CaseError, Report, count_at, number_at, numbers_of, put_breaking, put_heights, put_no_way,
    small_at,
};
use lay_breaks::{BreakError, least};
use lay_pages::{Block, PageCosts, PageError, Spot, fill, fill_even, stack};
use mus_laid::{StaffMarks, SystemMarks};
use mus_units::{Memory, Row};
use std::alloc::Global;

/// Returns a staff by its line: how low and how high it reaches, at least 0 and 2000 u.
fn staff_of(alloc: Global, line: &str) -> Result<StaffMarks, CaseError> {
    let numbers = numbers_of(alloc, line)?;
    Ok(StaffMarks {
        marks: Row::new(alloc),
        low: small_at(&numbers, 0)?,
        high: small_at(&numbers, 1)?,
    })
}

fn staves_of(alloc: Global, text: &str) -> Result<Row<StaffMarks>, CaseError> {
    let mut staves = Row::new(alloc);
    for line in text.lines() {
        staves.push(staff_of(alloc, line)?)?;
    }
    Ok(staves)
}

/// Returns how far each staff but the first keeps from the one before it, by its line.
fn gaps_of(alloc: Global, text: &str) -> Result<Row<u32>, CaseError> {
    let mut gaps = Row::new(alloc);
    for line in text.lines().skip(1) {
        gaps.push(count_at(&numbers_of(alloc, line)?, 2)?)?;
    }
    Ok(gaps)
}

/// Returns whether each staff covers its lines.
fn are_good_staves(staves: &[StaffMarks]) -> bool
    ensures { IsTrue result → AreGoodStaves staves.now }
{
    for staff in staves {
        if staff.low > 0 || staff.high < 2000 {
            return false;
        }
    }
    true
}

/// Adds staves under one another.
pub(crate) fn put_stack(out: &mut Report, text: &str) -> Result<(), CaseError> {
    let system = SystemMarks {
        a: 0,
        b: 1,
        keys: Row::new(out.alloc),
        staves: staves_of(out.alloc, text)?,
    };
    if system.staves.len() > 16 || !are_good_staves(system.staves.as_slice()) {
        return out.next(b"no staves\n");
    }
    put_stacked(out, &system, gaps_of(out.alloc, text)?.as_slice())
}

/// Adds the staves of a system under one another with these gaps between them.
fn put_stacked(out: &mut Report, system: &SystemMarks, gaps: &[u32]) -> Result<(), CaseError>
    requires few { length system.now.staves ≤ 16 }
    requires good { AreGoodStaves system.now.staves }
{
    if system.staves.len() == 0 || gaps.len() != system.staves.len() - 1 {
        return out.next(b"no staves\n");
    }
    put_heights(out, &stack(out.alloc, system, gaps)?)
}

/// Returns a block by its line: its height, and 1 if it is tied to the next.
fn block_of(alloc: Global, line: &str) -> Result<Block, CaseError> {
    let numbers = numbers_of(alloc, line)?;
    Ok(Block {
        height: number_at(&numbers, 0)?,
        keep: number_at(&numbers, 1)? == 1,
    })
}

fn blocks_of(alloc: Global, text: &str) -> Result<Row<Block>, CaseError> {
    let mut blocks = Row::new(alloc);
    for line in text.lines() {
        blocks.push(block_of(alloc, line)?)?;
    }
    Ok(blocks)
}

/// Returns whether no block's height is negative or greater than 2^40.
fn are_good_blocks(blocks: &[Block]) -> bool
    ensures { IsTrue result → AreGoodBlocks blocks.now }
{
    for block in blocks {
        if block.height < 0 || block.height > 1 << 40 {
            return false;
        }
    }
    true
}

/// Returns the costs of pages of these groups, if each fits on a page that is at most 2^26 u high.
fn costs_of(alloc: Global, high: u32, groups: &[Block]) -> Result<Option<PageCosts>, Memory>
    requires { high ≤ 2 ^ 26 }
    ensures { IfOk result (λ o. IfSome o (λ costs. length costs.heights ≡ length groups.now)) }
{
    let mut heights = Row::new(alloc);
    for group in groups {
        if group.height < 0 || group.height > i64::from(high) {
            return Ok(None);
        }
        heights.push(group.height)?;
    }
    Ok(Some(PageCosts { heights, high }))
}

/// Adds the breaking of groups into pages of a height that costs least.
fn put_costs(out: &mut Report, high: u32, groups: &[Block]) -> Result<(), CaseError>
    requires high { high ≤ 2 ^ 26 }
    requires few { length groups.now ≤ 1000 }
{
    let Some(costs) = costs_of(out.alloc, high, groups)? else {
        return out.next(b"no costs\n");
    };
    match least(out.alloc, &costs, groups.len() as u32) {
        Ok(breaking) => put_breaking(out, &breaking),
        Err(BreakError::NoWay { reached }) => put_no_way(out, reached),
        Err(BreakError::Memory) => Err(CaseError::Memory),
    }
}

fn put_spots(out: &mut Report, spots: &[Spot]) -> Result<(), CaseError> {
    for spot in spots {
        out.tell(format_args!("{} {}\n", spot.page, spot.top))?;
    }
    Ok(())
}

/// Adds where blocks are on pages of a height: a line for each, with its page and its top.
pub(crate) fn put_fill(out: &mut Report, words: &str, text: &str) -> Result<(), CaseError> {
    let alloc = out.alloc;
    let high = count_at(&numbers_of(alloc, words)?, 0)?;
    let blocks = blocks_of(alloc, text)?;
    if blocks.len() > 1000 || !are_good_blocks(blocks.as_slice()) {
        return out.next(b"no blocks\n");
    }
    put_filled(out, fill(alloc, blocks.as_slice(), high))
}

/// Adds the costs of pages of groups, and where the groups are on even pages of a height.
pub(crate) fn put_even(out: &mut Report, words: &str, text: &str) -> Result<(), CaseError> {
    let alloc = out.alloc;
    let high = count_at(&numbers_of(alloc, words)?, 0)?;
    let blocks = blocks_of(alloc, text)?;
    if high > 1 << 26 || blocks.len() > 1000 || !are_good_blocks(blocks.as_slice()) {
        return out.next(b"no blocks\n");
    }
    put_costs(out, high, blocks.as_slice())?;
    put_filled(out, fill_even(alloc, blocks.as_slice(), high))
}

/// Adds where blocks are, or why they have no place.
fn put_filled(out: &mut Report, filled: Result<Row<Spot>, PageError>) -> Result<(), CaseError> {
    match filled {
        Ok(spots) => put_spots(out, spots.as_slice()),
        Err(PageError::TooTall { block }) => out.tell(format_args!("too tall {block}\n")),
        Err(PageError::Memory) => Err(CaseError::Memory),
    }
}
