ghost use Rattle.std.specs.Prelude.{◌≡◌, ◌<◌, ◌≤◌, ◌+◌, ◌∷◌, [], ℕ, List, length, slice_index_or, IfOk, OnOk};
ghost use Rattle.std.specs.List.{All};
ghost use Rattle.abc_signs.specs.{declared.written.TreeItem.TreeItem, Signs.HasDrawableValues};
ghost use Rattle.abc_events.specs.Leaf.{Leaf};
ghost use Rattle.abc_events.specs.Leaves.{nodes_of, leaves_from, leaves_of};
ghost use Rattle.abc_events.specs.Nesting.{tree_of, TakesAnother, grown, no_tree};
ghost use Rattle.abc_events.specs.Measures.{leaves_in, measures_of};

use crate::leaves::{Numbers, VoiceEvent, words_of_event};
use crate::nesting::{Tree, nodes_of, put_event, put_tuplet};
use abc_signs::TreeItem;
use mus_score::Measure;
use mus_units::{Bar, Memory, Row, Text};
use smallvec::SmallVec;
use std::alloc::Global;

/// Returns `n` empty trees, each with room for `room` nodes.
fn empty_trees(alloc: Global, n: usize, room: usize) -> Result<Vec<Tree>, Memory>
    ensures len { IfOk result (λ v. length v.items ≡ n) }
    ensures stack { IfOk result (λ v. (k : ℕ) → k < n → (slice_index_or v.items k no_tree).stack.items ≡ []) }
    ensures body { IfOk result (λ v. (k : ℕ) → k < n → (slice_index_or v.items k no_tree).body ≡ []) }
{
    let mut trees = Vec::with_capacity(alloc, n)?;
    for k in 0..n {
        trees.push(Tree {
            stack: SmallVec::new(alloc),
            body: Row::with_room(alloc, room)?,
        })?;
    }
    Ok(trees)
}

/// Adds a written event to the tree of its measure, if there is one.
fn put_written(alloc: Global, trees: &mut [Tree], e: VoiceEvent) -> Result<(), Memory>
    requires ready { (k : ℕ) → k < length trees.old → TakesAnother (slice_index_or trees.old k no_tree).stack.items }
    requires drawn { All (λ v. v.dots ≤ 3) e.written.values }
    ensures ready { OnOk result
        ((k : ℕ) → k < length trees.old → TakesAnother (slice_index_or trees.new k no_tree).stack.items) }
    ensures grown { OnOk result
        ((k : ℕ) (leaves : List Leaf)
        → k < length trees.old
        → grown (slice_index_or trees.new k no_tree) (leaves_in k leaves)
        ≡ grown (slice_index_or trees.old k no_tree)
        (leaves_in k (Leaf.Event e.written.measure (nodes_of e.written e.waits e.words e.id) ∷ leaves))) }
{
    let measure = e.written.measure;
    if measure >= trees.len() as u64 {
        return Ok(());
    }
    put_event(alloc, &mut trees[measure as usize], e)
}

/// Opens a tuplet in the tree of its measure, if there is one.
fn put_opening(
    alloc: Global,
    trees: &mut [Tree],
    measure: u64,
    p: u8,
    q: u8,
    r: u8,
) -> Result<(), Memory>
    requires { (k : ℕ) → k < length trees.old → TakesAnother (slice_index_or trees.old k no_tree).stack.items }
    ensures ready { OnOk result
        ((k : ℕ) → k < length trees.old → TakesAnother (slice_index_or trees.new k no_tree).stack.items) }
    ensures grown { OnOk result
        ((k : ℕ) (leaves : List Leaf)
        → k < length trees.old
        → grown (slice_index_or trees.new k no_tree) (leaves_in k leaves)
        ≡ grown (slice_index_or trees.old k no_tree) (leaves_in k (Leaf.Opens measure p q r ∷ leaves))) }
{
    if measure >= trees.len() as u64 {
        return Ok(());
    }
    put_tuplet(alloc, &mut trees[measure as usize], p, q, r)
}

/// Adds a tree item. `words` has a list for each written event, with an entry for each verse.
fn put_sign(
    alloc: Global,
    trees: &mut [Tree],
    at: &mut Numbers,
    sign: TreeItem,
    words: &[Row<Option<Text>>],
) -> Result<(), Memory>
    requires ready { (k : ℕ) → k < length trees.old → TakesAnother (slice_index_or trees.old k no_tree).stack.items }
    requires drawn { HasDrawableValues sign }
    ensures ready { OnOk result
        ((k : ℕ) → k < length trees.old → TakesAnother (slice_index_or trees.new k no_tree).stack.items) }
    ensures grown { OnOk result
        ((k : ℕ) (signs : List TreeItem)
        → k < length trees.old
        → grown (slice_index_or trees.new k no_tree) (leaves_in k (leaves_from words.now at.new.event at.new.id signs))
        ≡ grown (slice_index_or trees.old k no_tree)
        (leaves_in k (leaves_from words.now at.old.event at.old.id (sign ∷ signs)))) }
{
    match sign {
        TreeItem::Event { written, waiting } => {
            let here = at.step_over(written.values.as_slice().len())?;
            let sung = words_of_event(alloc, words, here.event)?;
            let event = VoiceEvent {
                written,
                waits: waiting,
                words: sung,
                id: here.id,
            };
            put_written(alloc, trees, event)
        }
        TreeItem::Opens { measure, p, q, r } => put_opening(alloc, trees, measure, p, q, r),
    }
}

/// Returns the trees of the measures of a voice with these tree items.
fn trees_of(
    alloc: Global,
    signs: Row<TreeItem>,
    words: &[Row<Option<Text>>],
    n: usize,
) -> Result<Vec<Tree>, Memory>
    requires { All HasDrawableValues signs }
    ensures len { IfOk result (λ v. length v.items ≡ n) }
    ensures trees { IfOk result (λ v.
        (k : ℕ)
        → k < n → grown (slice_index_or v.items k no_tree) [] ≡ tree_of (leaves_in k (leaves_of words.now signs))) }
{
    let room = signs.len().checked_div(n).unwrap_or(0);
    let mut trees = empty_trees(alloc, n, room)?;
    let mut at = Numbers { event: 0, id: 0 };
    for sign in signs.items {
        put_sign(alloc, &mut trees, &mut at, sign, words)?;
    }
    Ok(trees)
}

/// Returns the measures of a voice with these tree items, one for each bar. `words` has a list for each written
/// event, with an entry for each verse; these are the words of the event's first part.
pub fn measures_of(
    alloc: Global,
    signs: Row<TreeItem>,
    words: &[Row<Option<Text>>],
    bars: &[Bar],
) -> Result<Row<Measure>, Memory>
    requires { All HasDrawableValues signs }
    ensures { IfOk result (λ r. r ≡ measures_of signs words.now bars.now) }
{
    let trees = trees_of(alloc, signs, words, bars.len())?;
    let mut measures = Row::new(alloc);
    let mut k = 0;
    for tree in trees {
        let body = nodes_of(alloc, tree)?;
        measures.push(Measure { body, bar: bars[k] })?;
        k += 1;
    }
    Ok(measures)
}
