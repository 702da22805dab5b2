//! Copies of music.

ghost use Rattle.std.specs.Prelude.{◌≡◌, IfOk};

use mus_score::{Measure, Music, copy_event};
use mus_units::{Memory, Row};
use std::alloc::Global;

#[cycle(copying)]
fn copy_node(alloc: Global, node: &Music) -> Result<Music, Memory>
    ensures { IfOk result (λ copy. copy ≡ node.now) }
{
    match node {
        Music::Note(e) => Ok(Music::Note(copy_event(alloc, e)?)),
        Music::Rest(e) => Ok(Music::Rest(copy_event(alloc, e)?)),
        Music::Grace { body, slash } => Ok(Music::Grace {
            body: copy_body(alloc, body.as_slice())?,
            slash: *slash,
        }),
        Music::Tuplet { p, q, body } => Ok(Music::Tuplet {
            p: *p,
            q: *q,
            body: copy_body(alloc, body.as_slice())?,
        }),
    }
}

#[cycle(copying)]
fn copy_body(alloc: Global, body: &[Music]) -> Result<Row<Music>, Memory>
    ensures { IfOk result (λ copy. copy ≡ body.now) }
{
    let mut copy = Row::new(alloc);
    for node in body {
        copy.push(copy_node(alloc, node)?)?;
    }
    Ok(copy)
}

/// Returns a copy of measures.
pub(crate) fn copy_measures(alloc: Global, measures: &[Measure]) -> Result<Row<Measure>, Memory>
    ensures { IfOk result (λ copy. copy ≡ measures.now) }
{
    let mut copy = Row::new(alloc);
    for measure in measures {
        copy.push(Measure {
            body: copy_body(alloc, measure.body.as_slice())?,
            bar: measure.bar,
        })?;
    }
    Ok(copy)
}
