ghost use Rattle.mus_score.specs.Limits.{head_limit};
ghost use Rattle.std.specs.Prelude.{◌≡◌, ◌++◌, ◌∷◌, [], ◌≤◌, length, reverse, drop, IfOk, OnOk};
ghost use Rattle.std.specs.List.{All, list_any};
ghost use Rattle.{mus_units.specs.Good.{same_letter}, mus_score.specs.GoodScore.{IsGoodVoice}};
ghost use Rattle.mus_arcs.specs.Arcs.{AreArcsOf, arcs_of, slur_copies, has_pitch, open_ends, slur, slurs, slurs_at};
ghost use Rattle.mus_arcs.specs.Arcs.{spot, tie, ties_at, ties_from};
ghost use Rattle.mus_arcs.specs.Events.{events_of_voice};

use crate::events::{ArcEvent, are_bare, events_of_voice};
use mus_score::{Head, Voice};
use mus_units::{Memory, Pitch, Row};
use std::alloc::Global;

/// A slur or a tie from the event `first` of the measure `from` to the event `last` of the measure `to`.
/// `head` is the place of the tied head in its first event, and 0 for a slur.
#[derive(Clone, Copy, PartialEq, Eq)]
pub struct Arc {
    pub tie: bool,
    pub first: u32,
    pub last: u32,
    pub head: u32,
    pub from: u32,
    pub to: u32,
}

/// The event at which a slur begins or ends, and its measure.
#[derive(Clone, Copy, PartialEq, Eq)]
pub struct SlurEnd {
    pub event: u32,
    pub measure: u32,
}

/// Returns the slurs and ties of a voice by their first event. At one event slurs come before ties: slurs from the
/// outermost inwards, ties by head.
///
/// Each end of a slur pairs with the last unpaired start; at one event the starts come first. A pair on one event is
/// no arc, nor is a start or an end without a partner. A tied head pairs with one of its letter and octave in the
/// very next event of the voice, graces aside.
#[tactic(auto, using(crate::proofs::BareLaws::no_arcs, crate::proofs::BareLaws::are_arcs))]
pub fn arcs(alloc: Global, v: &Voice) -> Result<Row<Arc>, Memory>
    requires { IsGoodVoice v.now }
    ensures arcs { IfOk result (λ arcs. AreArcsOf (events_of_voice v.now) arcs) }
    ensures value { IfOk result (λ arcs. arcs ≡ arcs_of (events_of_voice v.now)) }
{
    if are_bare(v.measures.as_slice()) {
        return Ok(Row::new(alloc));
    }
    let events = events_of_voice(alloc, v)?;
    arcs_among(alloc, events.as_slice())
}

/// Returns the arcs of events, found from the last event back.
fn arcs_among(alloc: Global, events: &[ArcEvent]) -> Result<Row<Arc>, Memory>
    requires { All (λ e. length e.heads ≤ head_limit) events.now }
    ensures { IfOk result (λ arcs. arcs ≡ arcs_of events.now) }
{
    let mut backwards = Vec::new(alloc);
    let mut ends = Vec::new(alloc);
    'events: for i in (0..events.len()).rev() {
        put_arcs(&events[i], &events[i + 1..], &mut ends, &mut backwards)?;
    }
    backwards.reverse();
    Ok(Row { items: backwards })
}

/// Adds the arcs that begin at an event, the last arc first. On entry `ends` holds the slur ends that no later event
/// takes, on return those that are left.
fn put_arcs(
    event: &ArcEvent,
    following: &[ArcEvent],
    ends: &mut Vec<SlurEnd>,
    backwards: &mut Vec<Arc>,
) -> Result<(), Memory>
    requires heads { length event.now.heads ≤ head_limit }
    requires ends { reverse ends.old.items ≡ open_ends following.now }
    ensures ends { OnOk result (reverse ends.new.items ≡ open_ends (event.now ∷ following.now)) }
    ensures arcs { OnOk result
        (backwards.new.items
        ≡ backwards.old.items ++ reverse (slurs_at event.now following.now ++ ties_at event.now following.now)) }
{
    put_ties(event, following, backwards)?;
    let at = spot_of(event);
    put_ends(at, event.ends, ends)?;
    put_slurs(at, event.begins, ends, backwards)?;
    Ok(())
}

fn spot_of(event: &ArcEvent) -> SlurEnd
    ensures { result ≡ spot event.now }
{
    SlurEnd {
        event: event.event,
        measure: event.measure,
    }
}

/// Adds the slur ends at one event.
fn put_ends(at: SlurEnd, count: u32, ends: &mut Vec<SlurEnd>) -> Result<(), Memory>
    ensures { OnOk result (reverse ends.new.items ≡ slur_copies count at ++ reverse ends.old.items) }
{
    'times: for _n in 0..count {
        ends.push(at)?;
    }
    Ok(())
}

/// Adds the slurs that begin at one event, the inner first: each start takes the end that was added last.
fn put_slurs(
    start: SlurEnd,
    count: u32,
    ends: &mut Vec<SlurEnd>,
    backwards: &mut Vec<Arc>,
) -> Result<(), Memory>
    ensures left { OnOk result (reverse ends.new.items ≡ drop count (reverse ends.old.items)) }
    ensures put { OnOk result
        (backwards.new.items ≡ backwards.old.items ++ slurs (slur_copies count start) (reverse ends.old.items)) }
{
    'times: for _n in 0..count {
        let Some(end) = ends.pop() else {
            break;
        };
        put_slur(start, end, backwards)?;
    }
    Ok(())
}

/// Adds a slur unless it ends at the event at which it begins.
fn put_slur(start: SlurEnd, end: SlurEnd, backwards: &mut Vec<Arc>) -> Result<(), Memory>
    ensures { OnOk result (backwards.new.items ≡ backwards.old.items ++ slur start end) }
{
    if start.event != end.event {
        backwards.push(Arc {
            tie: false,
            first: start.event,
            last: end.event,
            head: 0,
            from: start.measure,
            to: end.measure,
        })?;
    }
    Ok(())
}

/// Adds the ties from an event to the next one, that of the last head first.
fn put_ties(
    event: &ArcEvent,
    following: &[ArcEvent],
    backwards: &mut Vec<Arc>,
) -> Result<(), Memory>
    requires { length event.now.heads ≤ head_limit }
    ensures { OnOk result (backwards.new.items ≡ backwards.old.items ++ reverse (ties_at event.now following.now)) }
{
    let [next, ..] = following else {
        return Ok(());
    };
    let heads = event.heads.as_slice();
    'heads: for place in (0..heads.len()).rev() {
        let head = heads[place];
        if head.tied && has_pitch(head.pitch, next.heads.as_slice()) {
            backwards.push(Arc {
                tie: true,
                first: event.event,
                last: next.event,
                head: place as u32,
                from: event.measure,
                to: next.measure,
            })?;
        }
    }
    Ok(())
}

/// Returns whether one of the heads has this letter and octave.
fn has_pitch(p: Pitch, heads: &[Head]) -> bool
    ensures { result ≡ list_any (has_pitch p) heads.now }
{
    heads.iter().any(|head| head.pitch.letter == p.letter && head.pitch.octave == p.octave)
}
