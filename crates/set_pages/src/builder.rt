ghost use Rattle.std.specs.Prelude.{◌≡◌, ◌<◌, ◌≤◌, ◌+◌, ◌^◌, ◌++◌, [], List, None, All, IfOk, OnOk, length};
ghost use Rattle.std.specs.List.{AllZip};
ghost use Rattle.abc_fields.specs.declared.paper.Paper as paper;
ghost use Rattle.abc_fields.specs.Papers.{IsGoodPaper, body_height, body_width};
ghost use Rattle.set_book.specs.declared.outcome.Outcome as outcome;
ghost use Rattle.lay_pages.specs.Filling.{AreGoodBlocks, AreWithin, CanFollow, IsLoose, first_tall, pages_after};
ghost use Rattle.set_pages.specs.Drawings.{all_blocks, all_drawings};
ghost use Rattle.set_pages.specs.Flow.{begun_after};
ghost use Rattle.set_pages.specs.Builder.{AreOutcomesAt, CanDrawOutcome, HasRoom, CanGoOn, IsBuiltFrom, WillAdd};
ghost use Rattle.set_pages.specs.Builder.{IsTextOfOutcome, RisesBy, next_last_block, next_spots, empty_builder};
ghost use Rattle.set_pages.specs.Ready.{AreNumbered, IsReady, IsWhole};
ghost use Rattle.set_pages.specs.Sheet.{IsSetUnder};
ghost use Rattle.set_pages.specs.declared.plan.PagePlan as plan;

use crate::blocks::all_blocks;
use crate::drawing::{block_count, put_outcome};
use crate::plan::PagePlan;
use abc_fields::{Paper, body_of};
use eng_jobs::{Jobs, Work};
use lay_pages::{Block, PlacedBlock, Placement, Spot, fill_after};
use mus_units::{Memory, Row, Text};
use set_book::Outcome;
use std::alloc::Global;

/// The pages of a book as its tunes are set, one list of outcomes after another: how many of its pages were begun,
/// the last block with its place if blocks are filled, and how many blocks there were. A set tune isn't kept once it
/// is added.
#[derive(Drop)]
pub struct PageBuilder {
    pub begun: u32,
    pub(crate) last_block: Option<PlacedBlock>,
    pub(crate) put: usize,
}

/// The outcome of a tune, the places of its blocks, and the number of pages that were begun before them.
#[derive(Drop)]
pub struct PlacedOutcome {
    pub(crate) begun: u32,
    pub(crate) outcome: Outcome,
    pub(crate) spots: Row<Spot>,
}

/// Returns a builder with no outcomes.
pub fn new_builder() -> PageBuilder
    ensures value { result ≡ empty_builder }
    ensures pressed { (plan : plan.PagePlan) (paper : paper.Paper) → RisesBy plan → IsBuiltFrom plan paper [] result }
    ensures open { CanGoOn result }
{
    PageBuilder {
        begun: 0,
        last_block: None,
        put: 0,
    }
}

/// Returns where more blocks go by a plan, and the last block if they are filled.
fn place_blocks(
    alloc: Global,
    high: u32,
    plan: &PagePlan,
    press: &PageBuilder,
    blocks: &[Block],
) -> Result<Placement, Memory>
    requires good { AreGoodBlocks blocks.now }
    requires fits { first_tall high blocks.now ≡ None }
    requires open { CanGoOn press.now }
    requires rises { RisesBy plan.now }
    requires few { press.now.put + length blocks.now < 2 ^ 32 }
    requires room { HasRoom plan.now high press.now blocks.now }
    ensures spots { IfOk result (λ f. f.spots ≡ next_spots plan.now high press.now blocks.now) }
    ensures last_block { IfOk result (λ f. f.last_block ≡ next_last_block plan.now high press.now blocks.now) }
    ensures within { IfOk result (λ f. AreWithin high blocks.now f.spots) }
    ensures numbered { IfOk result (λ f. AreNumbered f.spots) }
    ensures follows { IfOk result (λ f. IsLoose blocks.now → CanFollow f.last_block) }
    ensures pages { IfOk result (λ f. pages_after f.last_block ≤ press.now.put + length blocks.now) }
{
    match plan {
        PagePlan::Filled => fill_after(alloc, high, press.last_block, blocks),
        PagePlan::At(spots) => {
            let here = &spots.as_slice()[press.put..press.put + blocks.len()];
            let spots = Row::from_slice(alloc, here)?;
            Ok(Placement {
                spots,
                last_block: None,
            })
        }
    }
}

/// Returns how many pages are begun once blocks are placed after this number of begun pages.
#[tactic(auto, using(crate::proofs::Texts::last_page))]
fn begun_after(begun: u32, spots: &[Spot]) -> u32
    requires { AreNumbered spots.now }
    ensures value { result ≡ begun_after begun spots.now }
    ensures few { result < 2 ^ 32 }
{
    match spots.last() {
        Some(last) => last.page + 1,
        None => begun,
    }
}

/// Returns outcomes, each with the spots of its own blocks.
fn place_outcomes(
    alloc: Global,
    begun: u32,
    outcomes: Row<Outcome>,
    spots: &[Spot],
) -> Result<Row<PlacedOutcome>, Memory>
    requires whole { All IsWhole outcomes }
    requires ready { AllZip IsReady (all_drawings outcomes) spots.now }
    requires numbered { AreNumbered spots.now }
    ensures { IfOk result (AreOutcomesAt begun outcomes spots.now) }
{
    let mut stood = Row::with_room(alloc, outcomes.len())?;
    let mut begun = begun;
    let mut rest = spots;
    for outcome in outcomes.items {
        let (here, more) = rest.split_at(block_count(&outcome));
        let spots = Row::from_slice(alloc, here)?;
        stood.push(PlacedOutcome {
            begun,
            outcome,
            spots,
        })?;
        begun = begun_after(begun, here);
        rest = more;
    }
    Ok(stood)
}

/// The bytes that are reserved for the text of a tune, so that the text of most tunes is never moved as it grows.
const TEXT_ROOM: usize = 65_536;

/// A writer of the text of placed outcomes, on pages whose body has this width.
#[derive(Drop)]
pub struct OutcomeWriter {
    pub alloc: Global,
    pub width: u32,
}

impl OutcomeWriter {
    /// Returns the writer for a paper.
    pub fn on(alloc: Global, paper: &Paper) -> OutcomeWriter
        requires { IsGoodPaper paper.now }
        ensures { result.width ≡ body_width paper.now }
    {
        let (width, _) = body_of(paper);
        OutcomeWriter { alloc, width }
    }
}

impl Work<PlacedOutcome, Text> for OutcomeWriter {
    ghost takes = { λ w placed. CanDrawOutcome w.width placed };

    ghost gives = { λ w placed text. IsTextOfOutcome w.width placed text };

    fn work(&self, placed: PlacedOutcome, _jobs: Jobs) -> Result<Text, Memory> {
        let mut text = Text {
            bytes: Vec::with_capacity(self.alloc, TEXT_ROOM)?,
        };
        put_outcome(
            self.alloc,
            self.width,
            u64::from(placed.begun),
            &placed.outcome,
            placed.spots.as_slice(),
            &mut text,
        )?;
        Ok(text)
    }
}

/// Places outcomes after those that were added, and returns them with the places of their blocks. `OutcomeWriter`
/// makes from these the text that they add to the document. The blocks of the tunes without fault are placed on pages
/// by the plan, in order. The tune's ordinal comes before the first block of a tune; if a block begins a page, the
/// page before it ends. There are fewer than 2^32 blocks, so the pages can be counted.
pub fn add_outcomes(
    alloc: Global,
    paper: &Paper,
    plan: &PagePlan,
    outcomes: Row<Outcome>,
    press: &mut PageBuilder,
) -> Result<Row<PlacedOutcome>, Memory>
    requires paper { IsGoodPaper paper.now }
    requires outcomes { All (IsSetUnder paper.now) outcomes }
    requires rises { RisesBy plan.now }
    requires few { press.old.put + length (all_blocks outcomes) < 2 ^ 32 }
    requires room { HasRoom plan.now (body_height paper.now) press.old (all_blocks outcomes) }
    requires open { CanGoOn press.old }
    ensures ready { IfOk result (λ placed. All (CanDrawOutcome (body_width paper.now)) placed) }
    ensures adds { IfOk result (λ placed.
        (before : List outcome.Outcome)
        → IsBuiltFrom plan.now paper.now before press.old
        → WillAdd plan.now paper.now before outcomes placed press.new) }
    ensures open { OnOk result (CanGoOn press.new) }
{
    let (_, high) = body_of(paper);
    let blocks = all_blocks(alloc, outcomes.as_slice())?;
    let filled = place_blocks(alloc, high, plan, press, blocks.as_slice())?;
    let spots = filled.spots.as_slice();
    let placed = place_outcomes(alloc, press.begun, outcomes, spots)?;
    press.begun = begun_after(press.begun, spots);
    press.last_block = filled.last_block;
    press.put += blocks.len();
    Ok(placed)
}
