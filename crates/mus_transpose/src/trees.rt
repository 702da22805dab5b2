ghost use Rattle.std.specs.{Prelude.◌≡◌, Prelude.map, List.list_all};
ghost use Rattle.mus_transpose.specs.Moved.{GivesIfMovable, all_pass, body_by, body_may, changed, event_by, event_may};
ghost use Rattle.mus_transpose.specs.Moved.{head_moves, moved_head};

use crate::heads::moved_head;
use crate::keys::moved_key;
use crate::moves::{Move, MoveError, Moved};
use mus_score::{Event, Music, copy_event};
use mus_units::{Few, Head, Row};
use std::alloc::Global;

fn moved_heads(alloc: Global, m: Move, heads: &[Head]) -> Moved<Few<Head>>
    ensures { GivesIfMovable (list_all (head_moves m) heads.now) (map (moved_head m) heads.now) result }
{
    if let [head] = heads {
        let moved = moved_head(m, *head).ok_or(MoveError::NoMove)?;
        return Ok(Few::one(moved));
    }
    let mut out = Row::new(alloc);
    for head in heads {
        match moved_head(m, *head) {
            Some(moved) => out.push(moved)?,
            None => return Err(MoveError::NoMove),
        }
    }
    Ok(Few::from(out))
}

/// Returns a moved copy of an event.
fn event_by(alloc: Global, by: Move, e: &Event) -> Moved<Event>
    ensures { GivesIfMovable (event_may by e.now) (event_by by e.now) result }
{
    let mut copy = copy_event(alloc, e)?;
    copy.heads = moved_heads(alloc, by, e.heads.as_slice())?;
    if let Some(key) = &e.changes.key {
        copy.changes.key = Some(moved_key(alloc, by, key)?);
    }
    Ok(copy)
}

#[cycle(trees)]
fn node_by(alloc: Global, by: Move, node: &Music) -> Moved<Music>
    ensures { GivesIfMovable (all_pass (event_may by) node.now) (changed (event_by by) node.now) result }
{
    match node {
        Music::Note(e) => Ok(Music::Note(event_by(alloc, by, e)?)),
        Music::Rest(e) => Ok(Music::Rest(event_by(alloc, by, e)?)),
        Music::Grace { body, slash } => Ok(Music::Grace {
            body: body_by(alloc, by, body.as_slice())?,
            slash: *slash,
        }),
        Music::Tuplet { p, q, body } => Ok(Music::Tuplet {
            p: *p,
            q: *q,
            body: body_by(alloc, by, body.as_slice())?,
        }),
    }
}

/// Returns a copy of a body with its events moved.
#[cycle(trees)]
pub(crate) fn body_by(alloc: Global, by: Move, body: &[Music]) -> Moved<Row<Music>>
    ensures { GivesIfMovable (body_may by body.now) (body_by by body.now) result }
{
    let mut out = Row::new(alloc);
    for node in body {
        out.push(node_by(alloc, by, node)?)?;
    }
    Ok(out)
}
