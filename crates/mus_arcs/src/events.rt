ghost use Rattle.mus_score.specs.Limits.{head_limit, measure_limit};
ghost use Rattle.std.specs.Prelude.{◌≡◌, ◌++◌, ◌∷◌, [], ◌≤◌, not, length, map, IfOk, OnOk};
ghost use Rattle.std.specs.List.{All, list_all};
ghost use Rattle.mus_score.specs.GoodScore.{IsGoodVoice};
ghost use Rattle.mus_arcs.specs.Events.{at_measure, events_in, events_of_voice, events_within, is_bare_music};
ghost use Rattle.mus_arcs.specs.Events.{is_bare_event, walked_from};

use mus_score::{Event, Head, Measure, Music, Voice};
use mus_units::{Few, Memory, Row};
use std::alloc::Global;

/// What arcs need of an event: its id, its measure, how many slurs begin and end there, and its heads.
#[derive(Drop)]
pub struct ArcEvent {
    pub event: u32,
    pub measure: u32,
    pub begins: u32,
    pub ends: u32,
    pub heads: Few<Head>,
}

/// Returns the events of a voice, graces aside, each with its measure.
pub(crate) fn events_of_voice(alloc: Global, v: &Voice) -> Result<Row<ArcEvent>, Memory>
    requires { IsGoodVoice v.now }
    ensures events { IfOk result (λ events. events ≡ events_of_voice v.now) }
    ensures heads { IfOk result (λ events. All (λ e. length e.heads ≤ head_limit) events) }
{
    let mut events = Row::new(alloc);
    put_measures(alloc, v.measures.as_slice(), &mut events)?;
    Ok(events)
}

fn put_measures(
    alloc: Global,
    measures: &[Measure],
    events: &mut Row<ArcEvent>,
) -> Result<(), Memory>
    requires { length measures.now ≤ measure_limit }
    ensures { OnOk result (events.new ≡ events.old ++ walked_from 0 measures.now) }
{
    for (number, measure) in measures.iter().enumerate() {
        put_nodes(alloc, measure.body.as_slice(), number as u32, events)?;
    }
    Ok(())
}

#[cycle(walk)]
fn put_nodes(
    alloc: Global,
    body: &[Music],
    measure: u32,
    events: &mut Row<ArcEvent>,
) -> Result<(), Memory>
    ensures { OnOk result (events.new ≡ events.old ++ map (at_measure measure) (events_in body.now)) }
{
    for m in body {
        put_node(alloc, m, measure, events)?;
    }
    Ok(())
}

#[cycle(walk)]
fn put_node(
    alloc: Global,
    m: &Music,
    measure: u32,
    events: &mut Row<ArcEvent>,
) -> Result<(), Memory>
    ensures { OnOk result (events.new ≡ events.old ++ map (at_measure measure) (events_within m.now)) }
{
    match m {
        Music::Note(e) => put_event(alloc, e, measure, events),
        Music::Rest(e) => put_event(alloc, e, measure, events),
        Music::Grace { body: _, slash: _ } => Ok(()),
        Music::Tuplet { p: _, q: _, body } => put_nodes(alloc, body.as_slice(), measure, events),
    }
}

fn put_event(
    alloc: Global,
    e: &Event,
    measure: u32,
    events: &mut Row<ArcEvent>,
) -> Result<(), Memory>
    ensures { OnOk result (events.new ≡ events.old ++ at_measure measure e.now ∷ []) }
{
    events.push(ArcEvent {
        event: e.id,
        measure,
        begins: e.begins,
        ends: e.ends,
        heads: e.heads.copy(alloc)?,
    })?;
    Ok(())
}

fn are_untied(heads: &[Head]) -> bool
    ensures { result ≡ list_all (λ h. not h.tied) heads.now }
{
    heads.iter().all(|head| !head.tied)
}

/// Returns whether neither a slur nor a tie begins at an event.
fn is_bare_event(e: &Event) -> bool
    ensures { result ≡ is_bare_event e.now }
{
    e.begins == 0 && are_untied(e.heads.as_slice())
}

/// Returns whether a node is an event at which no arc begins.
fn is_bare_music(m: &Music) -> bool
    ensures { result ≡ is_bare_music m.now }
{
    match m {
        Music::Note(e) => is_bare_event(e),
        Music::Rest(e) => is_bare_event(e),
        _ => false,
    }
}

fn is_bare_body(body: &[Music]) -> bool
    ensures { result ≡ list_all is_bare_music body.now }
{
    body.iter().all(|m| is_bare_music(m))
}

/// Returns whether all nodes of measures are events at which no arc begins. Takes no memory.
pub(crate) fn are_bare(measures: &[Measure]) -> bool
    ensures { result ≡ list_all (λ m. list_all is_bare_music m.body) measures.now }
{
    measures.iter().all(|m| is_bare_body(m.body.as_slice()))
}
