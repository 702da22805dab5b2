ghost use Rattle.std.specs.Prelude.{◌≡◌, ◌↔◌, IsTrue, map, min, sum};
ghost use Rattle.mus_score.specs.Good.{IsGoodBody, all_judged, has_value_ticks, is_good_note, is_rest, judged_within};
ghost use Rattle.mus_score.specs.Good.{tuplet_judged, weight};

use crate::limits::HEAD_LIMIT;
use crate::score::{Event, Music};
use mus_units::{WHOLE, ticks_of};

/// The context of a node: how many tuplets may still be nested in it, and whether a tuplet or a grace group is around
/// it.
#[derive(Clone, Copy, PartialEq, Eq)]
pub struct NodeContext {
    pub deeper: u8,
    pub inner: bool,
    pub grace: bool,
}

/// The verdict on a node: whether it is good in its context, and whether it has an event that is not a grace.
#[derive(Clone, Copy, PartialEq, Eq)]
pub struct NodeVerdict {
    pub good: bool,
    pub some: bool,
}

/// Returns whether the ticks of an event are those of its value.
fn has_ticks_of_value(e: &Event) -> bool
    ensures { result ≡ has_value_ticks e.now }
{
    e.value.dots <= 3 && e.ticks == ticks_of(e.value)
}

fn is_good_note(e: &Event) -> bool
    ensures { result ≡ is_good_note e.now }
{
    !e.heads.as_slice().is_empty() && has_ticks_of_value(e)
}

fn is_good_rest(inner: bool, e: &Event) -> bool
    ensures { result ≡ is_rest inner e.now }
{
    if !e.heads.as_slice().is_empty() || e.value.dots > 3 {
        return false;
    }
    if inner {
        e.ticks == ticks_of(e.value)
    } else {
        e.ticks >= 1 && e.ticks <= 99 * WHOLE
    }
}

/// Judges a tuplet that is in no grace group.
#[cycle(judging)]
fn judge_tuplet(p: u8, q: u8, body: &[Music], deeper: u8) -> NodeVerdict
    ensures { result ≡ tuplet_judged p q (map judged_within body.now) deeper }
{
    if deeper == 0 {
        return NodeVerdict {
            good: false,
            some: false,
        };
    }
    let inside = judge_all(
        body,
        NodeContext {
            deeper: deeper - 1,
            inner: true,
            grace: false,
        },
    );
    let ratio = p >= 2 && p <= 9 && q >= 1 && q <= 9;
    NodeVerdict {
        good: ratio && inside.some && inside.good,
        some: inside.some,
    }
}

#[cycle(judging)]
fn judge(m: &Music, at: NodeContext) -> NodeVerdict
    ensures { result ≡ judged_within m.now at }
{
    match m {
        Music::Note(e) => NodeVerdict {
            good: is_good_note(e),
            some: true,
        },
        Music::Rest(e) => NodeVerdict {
            good: !at.grace && is_good_rest(at.inner, e),
            some: true,
        },
        Music::Grace { body, slash: _ } => NodeVerdict {
            good: !at.grace && judge_all(body.as_slice(), NodeContext { grace: true, ..at }).good,
            some: false,
        },
        Music::Tuplet { p, q, body } => {
            if at.grace {
                return NodeVerdict {
                    good: false,
                    some: false,
                };
            }
            judge_tuplet(*p, *q, body.as_slice(), at.deeper)
        }
    }
}

#[cycle(judging)]
fn judge_all(body: &[Music], at: NodeContext) -> NodeVerdict
    ensures { result ≡ all_judged (map judged_within body.now) at }
{
    let mut all = NodeVerdict {
        good: true,
        some: false,
    };
    for m in body {
        let one = judge(m, at);
        all.good = all.good && one.good;
        all.some = all.some || one.some;
    }
    all
}

/// Returns the number of heads and rests of a node, or 50,001 if there are more than 50,000.
#[cycle(weighing)]
fn weight_within(m: &Music) -> u64
    ensures { result ≡ min 50001 (weight m.now) }
{
    match m {
        Music::Note(e) => (e.heads.as_slice().len() as u64).min(50_001),
        Music::Rest(_) => 1,
        Music::Grace { body, slash: _ } => weights_within(body.as_slice()),
        Music::Tuplet { p: _, q: _, body } => weights_within(body.as_slice()),
    }
}

/// Returns the number of heads and rests of a body, or 50,001 if there are more than 50,000. Takes no memory.
#[cycle(weighing)]
pub fn weights_within(body: &[Music]) -> u64
    ensures { result ≡ min 50001 (sum (map weight body.now)) }
{
    let mut sum = 0_u64;
    for m in body {
        sum = (sum + weight_within(m)).min(50_001);
    }
    sum
}

/// Returns whether a body is good: tuplets nest at most two deep, each with p of 2 to 9, q of 1 to 9 and an event
/// that is not a grace. Grace groups hold notes only. Notes have heads and rests have none. Ticks are those of the
/// value, except that a rest outside tuplets may last from 1 tick to 99 whole notes. There are at most 50,000 heads
/// and rests. Takes no memory.
pub fn is_good_body(body: &[Music]) -> bool
    ensures { IsTrue result ↔ IsGoodBody body.now }
{
    let outside = NodeContext {
        deeper: 2,
        inner: false,
        grace: false,
    };
    judge_all(body, outside).good && weights_within(body) <= u64::from(HEAD_LIMIT)
}
