ghost use Rattle.std.specs.Prelude.{◌≡◌, ◌<◌, ◌≤◌, ◌+◌, ◌-◌, ◌*◌, ◌^◌, pos, ◌≤ℤ◌, nat_le, nat_lt, length, IfOk, IfErr};
ghost use Rattle.std.specs.Prelude.{None};
ghost use Rattle.lay_pages.specs.Distances.{tallest_block};
ghost use Rattle.lay_pages.specs.Filling.{AreGoodBlocks, CanFollow, IsLoose, last_block_after, down_after, first_place};
ghost use Rattle.lay_pages.specs.Filling.{height_number, group_height, next_place, pages_after, spot_at, spots_after};
ghost use Rattle.lay_pages.specs.Filling.{spots_from, spots_of, standing_from, first_tall, AreWithin, AreFilled};
ghost use Rattle.lay_pages.specs.Filling.{IsPageError};
ghost use Rattle.lay_pages.specs.declared.filling.PageError.TheVariants as errors;

use crate::distances::BLOCK_GAP;
use mus_units::{Memory, Row};
use std::alloc::Global;

/// A unit on a page: its height in u, and whether it is tied to the next block, so that both are on
/// one page.
#[derive(Clone, Copy, PartialEq, Eq)]
pub struct Block {
    pub height: i64,
    pub keep: bool,
}

/// The spot of a block: its page, from 0, and the height of its top, in u above the bottom of the
/// body.
#[derive(Clone, Copy, PartialEq, Eq)]
pub struct Spot {
    pub page: u32,
    pub top: i64,
}

/// Why blocks can't be placed on pages: the first group that is higher than a page, reported by the
/// block with which it begins, counted from 0; or out of memory.
#[derive(Clone, Copy, PartialEq, Eq)]
pub enum PageError {
    TooTall { block: u32 },
    Memory,
}

impl From<Memory> for PageError {
    ghost from_gives = { λ _ e. e ≡ errors.Memory };

    fn from(_e: Memory) -> PageError {
        PageError::Memory
    }
}

/// Returns the spots of blocks on pages that are `high` u high: under one another with a gap
/// between two. A block that is tied to the next makes a group with it. A group that doesn't fit
/// under the blocks before it goes to a new page.
pub fn fill(alloc: Global, blocks: &[Block], high: u32) -> Result<Row<Spot>, PageError>
    requires few { length blocks.now < 2 ^ 32 }
    requires good { AreGoodBlocks blocks.now }
    ensures spots { IfOk result (λ spots. spots ≡ spots_of high blocks.now) }
    ensures within { IfOk result (λ spots. AreWithin high blocks.now spots) }
    ensures filled { IfOk result (λ spots. AreFilled high blocks.now spots) }
    ensures fits { IfOk result (λ spots. first_tall high blocks.now ≡ None) }
    ensures tall { IfErr result (λ e. IsPageError high blocks.now e) }
{
    match first_tall(blocks, high) {
        Some(block) => Err(PageError::TooTall { block }),
        None => match spots_from(alloc, high, BlockSpot { page: 0, down: 0 }, blocks) {
            Ok(filled) => Ok(filled.spots),
            Err(Memory) => Err(PageError::Memory),
        },
    }
}

/// A spot for a block: its page, from 0, and how far below the top of the page.
#[derive(Clone, Copy, PartialEq, Eq)]
pub struct BlockSpot {
    pub page: u32,
    pub down: u64,
}

/// A block, and its spot.
#[derive(Clone, Copy, PartialEq, Eq)]
pub struct PlacedBlock {
    pub place: BlockSpot,
    pub block: Block,
}

/// The spots of blocks, and the last block; if there is none, the last of those before them, if
/// any.
#[derive(Drop)]
pub struct Placement {
    pub spots: Row<Spot>,
    pub last_block: Option<PlacedBlock>,
}

pub(crate) fn height_number(height: i64) -> u64
    requires { height ≤ℤ pos tallest_block }
    ensures value { result ≡ height_number height }
    ensures most { result ≤ tallest_block }
{
    if height < 0 { 0 } else { height as u64 }
}

/// Returns the height of the group that begins here.
pub(crate) fn group_height(blocks: &[Block]) -> u128
    requires few { length blocks.now < 2 ^ 32 }
    requires good { AreGoodBlocks blocks.now }
    ensures value { result ≡ group_height blocks.now }
    ensures most { result ≤ 2 ^ 42 * length blocks.now }
{
    let mut sum: u128 = 0;
    let mut rest = blocks;
    'group: while let Some((block, more)) = rest.split_first() {
        let height = u128::from(height_number(block.height));
        if !block.keep || more.is_empty() {
            return sum + height;
        }
        sum = sum + height + u128::from(BLOCK_GAP);
        rest = more;
    }
    sum
}

/// Returns whether the group that begins here is higher than a page.
fn is_tall(high: u32, blocks: &[Block]) -> bool
    requires few { length blocks.now < 2 ^ 32 }
    requires good { AreGoodBlocks blocks.now }
    ensures { result ≡ nat_lt high (group_height blocks.now) }
{
    u128::from(high) < group_height(blocks)
}

/// Returns the number, from 0, of the block with which the first group begins that is higher than a page of `high` u,
/// if there is one.
pub fn first_tall(blocks: &[Block], high: u32) -> Option<u32>
    requires few { length blocks.now < 2 ^ 32 }
    requires good { AreGoodBlocks blocks.now }
    ensures { result ≡ first_tall high blocks.now }
{
    let mut tied = false;
    let mut number: u32 = 0;
    let mut rest = blocks;
    'groups: while let Some((block, more)) = rest.split_first() {
        if !tied && is_tall(high, rest) {
            return Some(number);
        }
        tied = block.keep;
        number += 1;
        rest = more;
    }
    None
}

/// Returns whether the group of the next blocks ends on the page.
fn fits_at(high: u32, down: u64, blocks: &[Block]) -> bool
    requires few { length blocks.now < 2 ^ 32 }
    requires good { AreGoodBlocks blocks.now }
    ensures { result ≡ nat_le (down + group_height blocks.now) high }
{
    u128::from(down) + group_height(blocks) <= u128::from(high)
}

/// Returns the spot of the block after the one at `place`.
fn next_place(high: u32, place: BlockSpot, block: Block, more: &[Block]) -> BlockSpot
    requires few { length more.now < 2 ^ 32 }
    requires good { AreGoodBlocks more.now }
    requires height { block.height ≤ℤ pos tallest_block }
    requires page { place.page < 2 ^ 32 - 1 }
    requires down { place.down ≤ 2 ^ 32 }
    ensures { result ≡ next_place high place block more.now }
{
    let under = place.down + height_number(block.height) + BLOCK_GAP;
    if block.keep || fits_at(high, under, more) {
        return BlockSpot {
            page: place.page,
            down: under,
        };
    }
    BlockSpot {
        page: place.page + 1,
        down: 0,
    }
}

pub(crate) fn spot_at(high: u32, place: BlockSpot) -> Spot
    requires { place.down ≤ 2 ^ 32 }
    ensures { result ≡ spot_at high place }
{
    Spot {
        page: place.page,
        top: i64::from(high) - place.down as i64,
    }
}

/// Returns the spot of the first of some blocks, which come after another block if there is one.
fn first_place(high: u32, last_block: Option<PlacedBlock>, blocks: &[Block]) -> BlockSpot
    requires few { length blocks.now < 2 ^ 32 }
    requires good { AreGoodBlocks blocks.now }
    requires last_block { CanFollow last_block }
    requires page { pages_after last_block < 2 ^ 32 }
    ensures { result ≡ first_place high last_block blocks.now }
{
    match last_block {
        Some(last) => next_place(high, last.place, last.block, blocks),
        None => BlockSpot { page: 0, down: 0 },
    }
}

/// Returns the spots of blocks, if the first has this spot and no group is too tall.
fn spots_from(
    alloc: Global,
    high: u32,
    first: BlockSpot,
    blocks: &[Block],
) -> Result<Placement, Memory>
    requires few { first.page + length blocks.now < 2 ^ 32 }
    requires good { AreGoodBlocks blocks.now }
    requires room { first.down + group_height blocks.now ≤ high }
    requires fits { first_tall high blocks.now ≡ None }
    ensures spots { IfOk result (λ f. f.spots ≡ spots_from high first blocks.now) }
    ensures last_block { IfOk result (λ f. f.last_block ≡ standing_from high first blocks.now) }
    ensures down { IfOk result (λ f. down_after f.last_block ≤ high) }
    ensures pages { IfOk result (λ f. pages_after f.last_block ≤ first.page + length blocks.now) }
{
    let mut spots = Row::new(alloc);
    let mut place = first;
    let mut rest = blocks;
    'placing: while let Some((block, more)) = rest.split_first() {
        spots.push(spot_at(high, place))?;
        if more.is_empty() {
            let block = *block;
            return Ok(Placement {
                spots,
                last_block: Some(PlacedBlock { place, block }),
            });
        }
        place = next_place(high, place, *block, more);
        rest = more;
    }
    Ok(Placement {
        spots,
        last_block: None,
    })
}

/// Returns the spots of blocks that come after others, as `fill` places them. `last_block` is the last
/// of the others and its spot; the result has the last block of all. So blocks may be placed a list
/// at a time, if each list ends with a block that isn't tied to the next one.
///
/// No group of the blocks is higher than a page. There are fewer than 2^32 pages, even if each block
/// begins one.
pub fn fill_after(
    alloc: Global,
    high: u32,
    last_block: Option<PlacedBlock>,
    blocks: &[Block],
) -> Result<Placement, Memory>
    requires good { AreGoodBlocks blocks.now }
    requires fits { first_tall high blocks.now ≡ None }
    requires last_block { CanFollow last_block }
    requires few { pages_after last_block + length blocks.now < 2 ^ 32 }
    ensures spots { IfOk result (λ f. f.spots ≡ spots_after high last_block blocks.now) }
    ensures last_block { IfOk result (λ f. f.last_block ≡ last_block_after high last_block blocks.now) }
    ensures within { IfOk result (λ f. AreWithin high blocks.now f.spots) }
    ensures follows { IfOk result (λ f. IsLoose blocks.now → CanFollow f.last_block) }
    ensures pages { IfOk result (λ f. pages_after f.last_block ≤ pages_after last_block + length blocks.now) }
{
    if blocks.is_empty() {
        return Ok(Placement {
            spots: Row::new(alloc),
            last_block,
        });
    }
    let place = first_place(high, last_block, blocks);
    let filled = spots_from(alloc, high, place, blocks)?;
    Ok(filled)
}
