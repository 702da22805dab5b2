ghost use Rattle.std.specs.Prelude.{◌≡◌, ◌<◌, ◌≤◌, ◌-◌, ◌^◌, pos, ◌≤ℤ◌, false, refl, true, All, length, IfOk, IfErr};
ghost use Rattle.std.specs.Prelude.{None};
ghost use Rattle.lay_breaks.specs.Breaking.{IsChosen};
ghost use Rattle.lay_pages.specs.Distances.{tallest_block, tallest_page};
ghost use Rattle.lay_pages.specs.Even.{AreHeights, AreSpots, StandByPages, cost_small, cost_stops, group_heights};
ghost use Rattle.lay_pages.specs.Even.{groups_after, most_groups, page_cost, page_height};
ghost use Rattle.lay_pages.specs.Filling.{AreGoodBlocks, AreWithin, IsPageError, first_tall};
ghost use Rattle.lay_pages.specs.Parting.{AreFitting, ends_after, even_spot_after, parted_spots, turns};

use crate::distances::{BLOCK_GAP, FREE_STEP};
use crate::filling::{
    Block, BlockSpot, PageError, Spot, fill, first_tall, group_height, height_number, spot_at,
};
use lay_breaks::{BreakError, Costs, least};
use mus_units::{Memory, Row};
use std::alloc::Global;

/// The greatest number of groups that is split evenly.
const MOST_GROUPS: usize = 8_388_608;

/// The costs of pages of groups. Groups are the bars, given by their heights in u, each of which
/// fits on a page that is `high` u high. A page costs the square of what it leaves free, by 100 u;
/// the last page nothing.
#[derive(Drop)]
pub struct PageCosts {
    pub heights: Row<i64>,
    pub high: u32,
    ghost small: { high ≤ tallest_page },
    ghost within: { AreHeights high heights },
}

/// Returns the height of groups on a page, with a gap between two.
fn page_height(heights: &[i64]) -> u64
    requires few { length heights.now < 2 ^ 32 }
    requires good { All (λ h. h ≤ℤ pos tallest_page) heights.now }
    ensures { result ≡ page_height heights.now }
{
    let mut stacked: u64 = 0;
    for height in heights {
        stacked += height_number(*height) + BLOCK_GAP;
    }
    stacked.saturating_sub(BLOCK_GAP)
}

impl Costs for PageCosts {
    ghost bars = { λ s. length s.heights };

    ghost badness = { λ s a b. page_cost s.high s.heights a b };

    ghost is_forced = { λ s b. false };

    fn cost(&self, a: u32, b: u32) -> Option<u64> {
        let heights = self.heights.as_slice();
        let height = page_height(&heights[a as usize..b as usize]);
        if height > u64::from(self.high) {
            return None;
        }
        if b as usize == heights.len() {
            return Some(0);
        }
        let free = (u64::from(self.high) - height) / FREE_STEP;
        Some(free * free)
    }

    fn forced(&self, _b: u32) -> bool {
        false
    }

    ghost stays_none = { λ s a b c l m h e. cost_stops s.high s.heights a b c l m e };

    ghost is_small = { λ s a b l h. cost_small s.high s.heights s.small a b };

    ghost begins_free = { λ s. refl };
}

/// Returns the heights of the groups of blocks, in order.
fn group_heights(alloc: Global, blocks: &[Block], high: u32) -> Result<Row<i64>, Memory>
    requires few { length blocks.now < 2 ^ 32 }
    requires good { AreGoodBlocks blocks.now }
    requires fits { first_tall high blocks.now ≡ None }
    ensures value { IfOk result (λ heights. heights ≡ group_heights blocks.now) }
    ensures within { IfOk result (AreHeights high) }
{
    let mut heights = Row::new(alloc);
    let mut tied = false;
    let mut rest = blocks;
    'groups: while let Some((block, more)) = rest.split_first() {
        if !tied {
            heights.push(group_height(rest) as i64)?;
        }
        tied = block.keep;
        rest = more;
    }
    Ok(heights)
}

/// Returns the chosen split of groups into pages: the numbers of groups up to the end of each page.
fn even_breaks(alloc: Global, costs: PageCosts, groups: u32) -> Result<Row<u32>, Memory>
    requires few { groups ≤ most_groups }
    requires all { groups ≡ length costs.heights }
    ensures { IfOk result (IsChosen (page_cost costs.high costs.heights) (λ b. false) groups) }
{
    match least(alloc, &costs, groups) {
        Ok(breaking) => Ok(breaking.breaks),
        Err(BreakError::Memory) => Err(Memory),
        Err(BreakError::NoWay { .. }) => unreachable!(),
    }
}

/// Returns whether a page ends with a block, if `group` groups end before the block's own.
fn turns(ends: &[u32], group: u32, block: Block) -> bool
    requires { group < 2 ^ 32 - 1 }
    ensures { result ≡ turns ends.now group block }
{
    match ends.first() {
        Some(end) => !block.keep && *end == group + 1,
        None => false,
    }
}

/// Returns the ends of the pages after a block.
fn ends_after(turned: bool, ends: &[u32]) -> &[u32]
    ensures { result.now ≡ ends_after turned ends.now }
{
    match ends.split_first() {
        Some((_, later)) if turned => later,
        _ => ends,
    }
}

/// Returns the spot of the block after the one at `place`.
fn even_spot_after(turned: bool, place: BlockSpot, block: Block) -> BlockSpot
    requires height { block.height ≤ℤ pos tallest_block }
    requires page { place.page < 2 ^ 32 - 1 }
    requires down { place.down ≤ 2 ^ 32 }
    ensures { result ≡ even_spot_after turned place block }
{
    if turned {
        return BlockSpot {
            page: place.page + 1,
            down: 0,
        };
    }
    BlockSpot {
        page: place.page,
        down: place.down + height_number(block.height) + BLOCK_GAP,
    }
}

/// Returns the number of groups that end with a block or before it.
fn groups_after(group: u32, block: Block) -> u32
    requires { group < 2 ^ 32 - 1 }
    ensures { result ≡ groups_after group block }
{
    if block.keep { group } else { group + 1 }
}

/// Returns the spots of blocks on pages that end after these numbers of groups.
fn part(alloc: Global, high: u32, breaks: &[u32], blocks: &[Block]) -> Result<Row<Spot>, Memory>
    requires few { length blocks.now < 2 ^ 32 }
    requires good { AreGoodBlocks blocks.now }
    requires fits { AreFitting high 0 0 breaks.now (group_heights blocks.now) }
    ensures { IfOk result (λ spots. spots ≡ parted_spots high breaks.now blocks.now) }
{
    let mut spots = Row::new(alloc);
    let mut place = BlockSpot { page: 0, down: 0 };
    let mut ends = breaks;
    let mut group: u32 = 0;
    let mut rest = blocks;
    'placing: while let Some((block, more)) = rest.split_first() {
        spots.push(spot_at(high, place))?;
        let turned = turns(ends, group, *block);
        ends = ends_after(turned, ends);
        place = even_spot_after(turned, place, *block);
        group = groups_after(group, *block);
        rest = more;
    }
    Ok(spots)
}

/// Returns the spots of blocks on pages that are `high` u high and filled evenly: their groups are
/// split into pages so that no other split into pages that fit costs less. Each page but the last
/// costs the square of what it leaves free, by 100 u. On a page the blocks are under one another as
/// `fill` places them. More than 8,388,608 groups are placed by `fill`.
pub fn fill_even(alloc: Global, blocks: &[Block], high: u32) -> Result<Row<Spot>, PageError>
    requires few { length blocks.now < 2 ^ 32 }
    requires good { AreGoodBlocks blocks.now }
    requires page { high ≤ tallest_page }
    ensures spots { IfOk result (AreSpots true high blocks.now) }
    ensures within { IfOk result (AreWithin high blocks.now) }
    ensures stacked { IfOk result (StandByPages high blocks.now) }
    ensures fits { IfOk result (λ spots. first_tall high blocks.now ≡ None) }
    ensures tall { IfErr result (IsPageError high blocks.now) }
{
    if let Some(block) = first_tall(blocks, high) {
        return Err(PageError::TooTall { block });
    }
    let heights = group_heights(alloc, blocks, high)?;
    let groups = heights.len();
    if groups > MOST_GROUPS {
        return fill(alloc, blocks, high);
    }
    let breaks = even_breaks(alloc, PageCosts { heights, high }, groups as u32)?;
    let spots = part(alloc, high, breaks.as_slice(), blocks)?;
    Ok(spots)
}
