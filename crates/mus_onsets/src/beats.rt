//! What onsets need of the events of a body. No event is copied.

ghost use Rattle.mus_score.specs.Limits.{head_limit};
ghost use Rattle.std.specs.Prelude.{◌≡◌, ◌≤◌, ◌*◌, ◌++◌, map, true, IfOk, OnOk, sum_by};
ghost use Rattle.mus_score.specs.Good.{IsGoodBody, longest_ticks};
ghost use Rattle.mus_score.specs.Times.{all_products_fit, is_scalable, products_fit, scaled_ticks};
ghost use Rattle.mus_onsets.specs.{Beats.{beat_at, beats_in_row, beats_of, beats_within}};

use mus_score::{Event, Music};
use mus_units::{Memory, Row};
use std::alloc::Global;

/// The id of an event and its length in ticks.
#[derive(Clone, Copy, PartialEq, Eq)]
pub struct Beat {
    pub event: u32,
    pub ticks: u64,
}

/// Returns a length in ticks, scaled by the tuplets around it.
#[tactic(auto, unfolding(mus_score::specs::Times::is_scalable))]
fn scaled(ticks: u64, qs: u64, ps: u64) -> u64
    requires { is_scalable ticks qs ps ≡ true }
    ensures { result ≡ scaled_ticks ticks qs ps }
{
    ticks * qs / ps
}

fn beat_at(e: &Event, qs: u64, ps: u64) -> Beat
    requires { is_scalable e.now.ticks qs ps ≡ true }
    ensures { result ≡ beat_at e.now qs ps }
{
    Beat {
        event: e.id,
        ticks: scaled(e.ticks, qs, ps),
    }
}

#[cycle(walk)]
fn put_node(m: &Music, qs: u64, ps: u64, out: &mut Row<Beat>) -> Result<(), Memory>
    requires { products_fit m.now qs ps ≡ true }
    ensures { OnOk result (out.new ≡ out.old ++ beats_within m.now qs ps) }
{
    match m {
        Music::Note(e) => out.push(beat_at(e, qs, ps)),
        Music::Rest(e) => out.push(beat_at(e, qs, ps)),
        Music::Grace { .. } => Ok(()),
        Music::Tuplet { p, q, body } => put_nodes(
            body.as_slice(),
            qs * u64::from(*q),
            ps * u64::from(*p),
            out,
        ),
    }
}

#[cycle(walk)]
fn put_nodes(body: &[Music], qs: u64, ps: u64, out: &mut Row<Beat>) -> Result<(), Memory>
    requires { all_products_fit body.now qs ps ≡ true }
    ensures { OnOk result (out.new ≡ out.old ++ beats_in_row (map beats_within body.now) qs ps) }
{
    for m in body {
        put_node(m, qs, ps, out)?;
    }
    Ok(())
}

/// Returns the beats of a body.
#[tactic(auto, using(crate::proofs::BeatLaws::beats_bounds))]
pub(crate) fn beats(alloc: Global, body: &[Music]) -> Result<Row<Beat>, Memory>
    requires { IsGoodBody body.now }
    ensures beats { IfOk result (λ r. r ≡ beats_of body.now) }
    ensures short { IfOk result (λ r. sum_by (λ b. b.ticks) r ≤ head_limit * longest_ticks) }
{
    let mut out = Row::with_room(alloc, body.len())?;
    put_nodes(body, 1, 1, &mut out)?;
    Ok(out)
}
