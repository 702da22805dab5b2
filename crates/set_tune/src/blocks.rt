ghost use Rattle.std.specs.Prelude.{◌≡◌, ◌≤◌, ◌+◌, ◌++◌, ◌^◌, All, length, min, pos, IfOk, OnOk};
ghost use Rattle.lay_pages.specs.Filling.{AreGoodBlocks};
ghost use Rattle.set_tune.specs.Blocks.{HasGoodHeight, block_height, blocks_of, is_some_list, system_blocks};
ghost use Rattle.set_tune.specs.Blocks.{title_blocks};

use lay_pages::distances::TALLEST_BLOCK;
use lay_pages::{Block, Heights, TitleBlock};
use mus_units::{Memory, Row};
use std::alloc::Global;

/// Returns the blocks of a tune on a page: the title block, if it has a row, tied to the system below it if there is
/// one; and each system. A title block of more than 2^40 u counts as 2^40 u high.
#[tactic(auto, using(crate::proofs::GoodBlocks::good_blocks), unfolding(crate::specs::Blocks::blocks_of))]
pub fn blocks_of(
    alloc: Global,
    title: &TitleBlock,
    heights: &[Heights],
) -> Result<Row<Block>, Memory>
    requires { All HasGoodHeight heights.now }
    ensures value { IfOk result (λ blocks. blocks ≡ blocks_of title.now heights.now) }
    ensures good { IfOk result AreGoodBlocks }
{
    let mut blocks = title_blocks(alloc, title, is_some_list(heights))?;
    put_systems(&mut blocks, heights)?;
    Ok(blocks)
}

/// Returns whether a title block is above a system.
fn is_some_list(heights: &[Heights]) -> bool
    ensures { result ≡ is_some_list heights.now }
{
    match heights {
        [] => false,
        [..] => true,
    }
}

fn block_height(height: u64) -> i64
    ensures { result ≡ block_height height }
{
    height.min(TALLEST_BLOCK) as i64
}

fn title_blocks(alloc: Global, title: &TitleBlock, keep: bool) -> Result<Row<Block>, Memory>
    ensures { IfOk result (λ blocks. blocks ≡ title_blocks title.now.rows title.now.height keep) }
{
    let mut blocks = Row::new(alloc);
    if title.rows.len() > 0 {
        blocks.push(Block {
            height: block_height(title.height),
            keep,
        })?;
    }
    Ok(blocks)
}

fn put_systems(blocks: &mut Row<Block>, heights: &[Heights]) -> Result<(), Memory>
    ensures { OnOk result (blocks.new ≡ blocks.old ++ system_blocks heights.now) }
{
    for system in heights {
        blocks.push(Block {
            height: system.height,
            keep: false,
        })?;
    }
    Ok(())
}
