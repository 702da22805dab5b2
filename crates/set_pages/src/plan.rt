ghost use Rattle.std.specs.Prelude.{◌≡◌, ◌<◌, ◌^◌, IfOk, List, length, true};
ghost use Rattle.abc_fields.specs.Papers.{IsGoodPaper};
ghost use Rattle.set_book.specs.declared.outcome.Outcome as outcome;
ghost use Rattle.set_pages.specs.{Drawings.all_blocks, Builder.AreBlocksOn, Sheet.IsPagePlan};

use abc_fields::{Paper, body_of};
use lay_pages::{Block, PageError, Spot, fill_even};
use mus_units::{Memory, Row};
use std::alloc::Global;

/// Where the blocks of a book go: one under another, filled in their order; or at these spots, one for each block of
/// the book.
#[derive(Drop)]
pub enum PagePlan {
    Filled,
    At(Row<Spot>),
}

/// Returns the plan of a book with even pages, from the blocks of all its tunes: their groups are divided into pages
/// so that no other division into pages that fit costs less.
pub fn even_plan(alloc: Global, paper: &Paper, blocks: &[Block]) -> Result<PagePlan, Memory>
    requires paper { IsGoodPaper paper.now }
    requires few { length blocks.now < 2 ^ 32 }
    requires blocks { AreBlocksOn paper.now blocks.now }
    ensures { IfOk result (λ plan.
        (outcomes : List outcome.Outcome)
        → blocks.now ≡ all_blocks outcomes → IsPagePlan true paper.now outcomes plan) }
{
    let (_, high) = body_of(paper);
    match fill_even(alloc, blocks, high) {
        Ok(spots) => Ok(PagePlan::At(spots)),
        Err(PageError::Memory) => Err(Memory),
        Err(PageError::TooTall { .. }) => unreachable!(),
    }
}
