ghost use Rattle.mus_score.specs.Limits.{head_limit};
ghost use Rattle.std.specs.Prelude.{◌≡◌, ◌∷◌, [], ◌≤◌, ◌<◌, ◌^◌, ◌++◌, map, true, IfOk, OnOk, ◌*◌, All, sum, sum_by};
ghost use Rattle.mus_score.specs.declared.score.Flat.{Flat};
ghost use Rattle.mus_score.specs.Good.{IsGoodBody, IsGoodNode, IsGoodFlat, flat_count, flat_weight, longest_ticks};
ghost use Rattle.mus_score.specs.Good.{total_ticks, weight};
ghost use Rattle.mus_score.specs.Even.{AreEvenEvents};
ghost use Rattle.mus_score.specs.Times.{scaled_ticks, duration_of, duration_within, durations_within, products_fit};
ghost use Rattle.mus_score.specs.Times.{all_products_fit, is_scalable, leaf, leaves_within, in_row, flats_of};
ghost use Rattle.mus_score.specs.Times.{no_pending_leaf, Walked};

use crate::copies::copy_event;
use crate::score::{BorrowedEvent, Event, Flat, Music};
use mus_units::{Memory, Row};
use std::alloc::Global;
use std::mem;

/// Returns ticks scaled by the tuplets around them.
#[tactic(auto, unfolding(crate::specs::Times::is_scalable))]
fn scaled_ticks(ticks: u64, qs: u64, ps: u64) -> u64
    requires { is_scalable ticks qs ps ≡ true }
    ensures { result ≡ scaled_ticks ticks qs ps }
{
    ticks * qs / ps
}

/// Returns the duration of a node in the tuplets around it, whose q have the product `qs` and whose p the product
/// `ps`.
#[cycle(durations)]
fn duration_in(m: &Music, qs: u64, ps: u64) -> u64
    requires products { products_fit m.now qs ps ≡ true }
    requires fits { duration_within m.now qs ps < 2 ^ 64 }
    ensures { result ≡ duration_within m.now qs ps }
{
    match m {
        Music::Note(e) => scaled_ticks(e.ticks, qs, ps),
        Music::Rest(e) => scaled_ticks(e.ticks, qs, ps),
        Music::Grace { body: _, slash: _ } => 0,
        Music::Tuplet { p, q, body } => durations_in(
            body.as_slice(),
            qs * u64::from(*q),
            ps * u64::from(*p),
        ),
    }
}

/// Returns the total duration of nodes.
#[cycle(durations)]
fn durations_in(body: &[Music], qs: u64, ps: u64) -> u64
    requires products { all_products_fit body.now qs ps ≡ true }
    requires fits { durations_within body.now qs ps < 2 ^ 64 }
    ensures { result ≡ durations_within body.now qs ps }
{
    let mut sum = 0;
    for m in body {
        sum += duration_in(m, qs, ps);
    }
    sum
}

/// Returns the duration of a node of a body, in ticks. An event lasts its written ticks, times q/p for each tuplet
/// around it in the node; this division leaves no remainder. A grace group lasts 0. A tuplet lasts the sum of its
/// content. Takes no memory.
#[tactic(auto, using(crate::proofs::Bounds::node_bounds))]
pub fn duration(m: &Music) -> u64
    requires { IsGoodNode m.now }
    ensures value { result ≡ duration_of m.now }
    ensures total { result ≡ total_ticks (flats_of (m.now ∷ [])) }
    ensures even { AreEvenEvents (flats_of (m.now ∷ [])) (m.now ∷ []) }
{
    duration_in(m, 1, 1)
}

/// Returns the total duration of the events of a body, in ticks. Takes no memory.
#[tactic(auto, using(crate::proofs::Bounds::total_bounds))]
pub fn body_duration(body: &[Music]) -> u64
    requires { IsGoodBody body.now }
    ensures total { result ≡ total_ticks (flats_of body.now) }
    ensures short { result ≤ head_limit * longest_ticks }
{
    durations_in(body, 1, 1)
}

/// What is pending for the next leaf: the tuplets that begin there, outermost first, and its graces.
#[derive(Drop)]
pub struct PendingLeaf {
    pub tuplets: Row<u8>,
    pub graces: Row<Event>,
    pub slash: bool,
}

fn no_waits(alloc: Global) -> PendingLeaf
    ensures { result ≡ no_pending_leaf }
{
    PendingLeaf {
        tuplets: Row::new(alloc),
        graces: Row::new(alloc),
        slash: false,
    }
}

fn put_leaf<'a>(
    alloc: Global,
    e: &'a Event,
    qs: u64,
    ps: u64,
    waits: &mut PendingLeaf,
    out: &mut Row<Flat<'a>>,
) -> Result<(), Memory>
    requires { is_scalable e.now.ticks qs ps ≡ true }
    ensures { OnOk result (Walked out.old out.new waits.new (leaf e.now qs ps waits.old)) }
{
    let w = mem::replace(waits, no_waits(alloc));
    out.push(Flat {
        event: BorrowedEvent { event: e },
        duration: scaled_ticks(e.ticks, qs, ps),
        tuplets: w.tuplets,
        graces: w.graces,
        slash: w.slash,
    })
}

/// Adds copies of the events of some flats after other graces.
fn put_graces(alloc: Global, graces: &mut Row<Event>, flats: &[Flat<'_>]) -> Result<(), Memory>
    ensures { OnOk result (graces.new ≡ graces.old ++ map (λ f. f.event) flats.now) }
{
    for f in flats {
        graces.push(copy_event(alloc, f.event())?)?;
    }
    Ok(())
}

#[cycle(leaves)]
fn put_node<'a>(
    alloc: Global,
    m: &'a Music,
    qs: u64,
    ps: u64,
    waits: &mut PendingLeaf,
    out: &mut Row<Flat<'a>>,
) -> Result<(), Memory>
    requires { products_fit m.now qs ps ≡ true }
    ensures { OnOk result (Walked out.old out.new waits.new (leaves_within m.now qs ps waits.old)) }
{
    match m {
        Music::Note(e) => put_leaf(alloc, e, qs, ps, waits, out),
        Music::Rest(e) => put_leaf(alloc, e, qs, ps, waits, out),
        Music::Grace { body, slash } => {
            let mut inner = Row::new(alloc);
            let mut none = no_waits(alloc);
            put_nodes(alloc, body.as_slice(), 1, 1, &mut none, &mut inner)?;
            put_graces(alloc, &mut waits.graces, inner.as_slice())?;
            waits.slash = waits.slash || *slash;
            Ok(())
        }
        Music::Tuplet { p, q, body } => {
            waits.tuplets.push(*p)?;
            put_nodes(
                alloc,
                body.as_slice(),
                qs * u64::from(*q),
                ps * u64::from(*p),
                waits,
                out,
            )
        }
    }
}

#[cycle(leaves)]
fn put_nodes<'a>(
    alloc: Global,
    body: &'a [Music],
    qs: u64,
    ps: u64,
    waits: &mut PendingLeaf,
    out: &mut Row<Flat<'a>>,
) -> Result<(), Memory>
    requires { all_products_fit body.now qs ps ≡ true }
    ensures { OnOk result (Walked out.old out.new waits.new (in_row (map leaves_within body.now) qs ps waits.old)) }
{
    for m in body {
        put_node(alloc, m, qs, ps, waits, out)?;
    }
    Ok(())
}

/// Returns the events of a body that are not graces, from left to right: each with its duration in ticks, the `p` of
/// the tuplets that begin at it, outermost first, and the graces before it. Graces at a tuplet's end are pending for
/// the next event; graces after the last event belong to none. No duration is rounded: times the product of the `p`
/// around the event it is the event's ticks times the product of the `q`.
#[tactic(auto, using(crate::proofs::Bounds::body_bounds))]
pub fn flatten(alloc: Global, body: &[Music]) -> Result<Row<Flat<'_>>, Memory>
    requires { IsGoodBody body.now }
    ensures flats { IfOk result (λ r. r ≡ flats_of body.now) }
    ensures each { IfOk result (λ r. All IsGoodFlat r) }
    ensures even { IfOk result (λ r. AreEvenEvents r body.now) }
    ensures total { IfOk result (λ r. total_ticks r ≡ sum_by duration_of body.now) }
    ensures short { IfOk result (λ r. total_ticks r ≤ head_limit * longest_ticks) }
    ensures count { IfOk result (λ r. sum_by flat_count r ≤ head_limit) }
    ensures heads { IfOk result (λ r. sum_by flat_weight r ≤ sum (map weight body.now)) }
{
    let mut out = Row::with_room(alloc, body.len())?;
    let mut waits = no_waits(alloc);
    put_nodes(alloc, body, 1, 1, &mut waits, &mut out)?;
    Ok(out)
}
