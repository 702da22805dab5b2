ghost use Rattle.std.specs.{Prelude.{◌≡◌, ◌≤◌, ◌++◌, ◌∷◌, [], List, IfOk, OnOk}, List.All};
ghost use Rattle.mus_score.specs.declared.score.Music.{Music};
ghost use Rattle.mus_score.specs.declared.score.Music.TheVariants as music;
ghost use Rattle.abc_events.specs.{Leaf.Leaf, Leaves.nodes_of, Nesting.{Puts, TakesAnother, one, put_in_front, grown}};

use crate::leaves::{VoiceEvent, put_nodes};
use mus_score::Music;
use mus_units::{Memory, Row};
use smallvec::SmallVec;
use std::alloc::Global;
use std::default::MadeWith;
use std::mem;

/// A tuplet that still takes events, and the nodes before it in its list.
#[derive(Drop)]
pub struct OpenTuplet {
    pub p: u8,
    pub q: u8,
    pub left: u8,
    pub before: Row<Music>,
}

impl MadeWith<Global> for OpenTuplet {
    ghost is_made_with = { λ o. o.before ≡ [] };

    fn made_with(alloc: Global) -> OpenTuplet {
        OpenTuplet {
            p: 2,
            q: 1,
            left: 0,
            before: Row::new(alloc),
        }
    }
}

/// The tree of a measure, built up to the leaves added so far: the tuplets that still take events, outermost first,
/// and the nodes after the beginning of the innermost.
#[derive(Drop)]
pub struct Tree {
    pub stack: SmallVec<OpenTuplet, 2>,
    pub body: Row<Music>,
}

/// Adds a tuplet after the nodes before it.
fn close(alloc: Global, o: OpenTuplet, body: &mut Row<Music>) -> Result<(), Memory>
    ensures { OnOk result (body.new ≡ o.before ++ music.Tuplet o.p o.q body.old ∷ []) }
{
    let inner = mem::replace(body, Row::new(alloc));
    *body = o.before;
    body.push(Music::Tuplet {
        p: o.p,
        q: o.q,
        body: inner,
    })
}

/// Closes the innermost tuplets that take no more events.
#[inline(always)]
fn close_full(
    alloc: Global,
    stack: &mut SmallVec<OpenTuplet, 2>,
    body: &mut Row<Music>,
) -> Result<(), Memory>
    ensures puts { OnOk result (Puts stack.old.items body.old stack.new.items body.new (λ f. f)) }
    ensures ready { OnOk result (TakesAnother stack.new.items) }
{
    while let Some(o) = stack.pop() {
        if o.left > 0 {
            stack.push(o)?;
            return Ok(());
        }
        close(alloc, o, body)?;
    }
    Ok(())
}

/// Counts an event, whose nodes are added to the body, against the innermost tuplet.
fn take_event(stack: &mut SmallVec<OpenTuplet, 2>) -> Result<(), Memory>
    requires { TakesAnother stack.old.items }
    ensures { OnOk result
        ((body nodes : List Music) → Puts stack.old.items body stack.new.items (body ++ nodes) (one nodes)) }
{
    let Some(o) = stack.pop() else {
        return Ok(());
    };
    stack.push(OpenTuplet {
        p: o.p,
        q: o.q,
        left: o.left.saturating_sub(1),
        before: o.before,
    })?;
    Ok(())
}

/// Begins a list of nodes for a tuplet.
fn begin(
    alloc: Global,
    stack: &mut SmallVec<OpenTuplet, 2>,
    body: &mut Row<Music>,
    p: u8,
    q: u8,
    r: u8,
) -> Result<(), Memory>
    ensures open { OnOk result
        (stack.new.items ≡ stack.old.items ++ record { p = p; q = q; left = r; before = body.old } ∷ []) }
    ensures empty { OnOk result (body.new ≡ []) }
{
    let before = mem::replace(body, Row::new(alloc));
    stack.push(OpenTuplet {
        p,
        q,
        left: r,
        before,
    })?;
    Ok(())
}

/// Opens a tuplet; the tuplet around it no longer takes its events one by one.
fn open_tuplet(
    alloc: Global,
    stack: &mut SmallVec<OpenTuplet, 2>,
    body: &mut Row<Music>,
    p: u8,
    q: u8,
    r: u8,
) -> Result<(), Memory>
    requires { TakesAnother stack.old.items }
    ensures { OnOk result (Puts stack.old.items body.old stack.new.items body.new (put_in_front (Leaf.Opens 0 p q r))) }
{
    let Some(o) = stack.pop() else {
        return begin(alloc, stack, body, p, q, r);
    };
    stack.push(OpenTuplet {
        p: o.p,
        q: o.q,
        left: o.left.saturating_sub(r),
        before: o.before,
    })?;
    begin(alloc, stack, body, p, q, r)?;
    Ok(())
}

/// Adds a written event to the tree of its measure.
pub fn put_event(alloc: Global, tree: &mut Tree, e: VoiceEvent) -> Result<(), Memory>
    requires ready { TakesAnother tree.old.stack.items }
    requires drawn { All (λ v. v.dots ≤ 3) e.written.values }
    ensures puts { OnOk result
        (Puts tree.old.stack.items tree.old.body tree.new.stack.items tree.new.body
        (one (nodes_of e.written e.waits e.words e.id))) }
    ensures ready { OnOk result (TakesAnother tree.new.stack.items) }
{
    put_nodes(alloc, &mut tree.body, e)?;
    take_event(&mut tree.stack)?;
    close_full(alloc, &mut tree.stack, &mut tree.body)?;
    Ok(())
}

/// Opens a tuplet in the tree of its measure.
pub fn put_tuplet(alloc: Global, tree: &mut Tree, p: u8, q: u8, r: u8) -> Result<(), Memory>
    requires { TakesAnother tree.old.stack.items }
    ensures puts { OnOk result
        (Puts tree.old.stack.items tree.old.body tree.new.stack.items tree.new.body
        (put_in_front (Leaf.Opens 0 p q r))) }
    ensures ready { OnOk result (TakesAnother tree.new.stack.items) }
{
    open_tuplet(alloc, &mut tree.stack, &mut tree.body, p, q, r)?;
    close_full(alloc, &mut tree.stack, &mut tree.body)
}

/// Returns the nodes of a tree, closing its open tuplets.
pub fn nodes_of(alloc: Global, mut tree: Tree) -> Result<Row<Music>, Memory>
    ensures { IfOk result (λ r. r ≡ grown tree []) }
{
    while let Some(o) = tree.stack.pop() {
        close(alloc, o, &mut tree.body)?;
    }
    Ok(tree.body)
}
