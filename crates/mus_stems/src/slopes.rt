ghost use Rattle.std.specs.Prelude.{◌≡◌, ◌++◌, ◌≤◌, ◌≤ℤ◌, ◌<ℤ◌, ◌^◌, ◌∷◌, [], ◌+ℤ◌, ◌-ℤ◌, ◌*ℤ◌, pos, negsuc, length};
ghost use Rattle.std.specs.Prelude.{IfOk, OnOk};
ghost use Rattle.std.specs.Int.{int_min, int_max, int_div_euclid};
ghost use Rattle.mus_stems.specs.Distances.{steepest, steepest_down};
ghost use Rattle.mus_stems.specs.Plans.{AllEndsNear};
ghost use Rattle.mus_stems.specs.Runs.{run_more};
ghost use Rattle.mus_stems.specs.Slope.{slope_input, slope_inputs, shares_beam, last_input, slope_line, rise_at};
ghost use Rattle.mus_stems.specs.Slope.{base_along, ends_along, line_ends, beam_ends, sloped_ends, with_end, with_ends};
ghost use Rattle.mus_stems.specs.Slope.{sloped, ArePlaces, RisesInBeams, AreAnchors, IsLine, IsOver, AreOver, Rise};
ghost use Rattle.mus_stems.specs.Slope.{IsBeamBase};

use crate::distances::STEEPEST;
use crate::ends::further_of;
use crate::plans::StemPlan;
use mus_units::{Memory, Row};
use std::alloc::Global;

/// What a slope needs of an event: the direction of its stem, its own end, where its beam begins, and its abscissa.
#[derive(Clone, Copy, PartialEq, Eq)]
pub struct SlopeInput {
    pub up: bool,
    pub own: i32,
    pub group: u32,
    pub x: i64,
}

/// The line of a beam: the abscissas of its first and its last event, and how far it climbs between them.
#[derive(Clone, Copy, PartialEq, Eq)]
pub struct BeamLine {
    pub first: i64,
    pub last: i64,
    pub climb: i64,
}

/// Returns what a slope needs of one event.
#[tactic(auto, unfolding(crate::specs::Slope::slope_input))]
fn make_anchor(plan: &StemPlan, x: &i64) -> SlopeInput
    ensures { result ≡ slope_input plan.now x.now }
{
    SlopeInput {
        up: plan.up,
        own: plan.own,
        group: plan.group,
        x: *x,
    }
}

/// Returns events with their abscissas.
fn anchors_for(alloc: Global, plans: &[StemPlan], at: &[i64]) -> Result<Row<SlopeInput>, Memory>
    requires { length at.now ≡ length plans.now }
    ensures { IfOk result (λ a. a ≡ slope_inputs plans.now at.now) }
{
    let mut out = Row::with_room(alloc, plans.len())?;
    for (plan, x) in plans.iter().zip(at) {
        out.push(make_anchor(plan, x))?;
    }
    Ok(out)
}

/// Returns whether two neighbours are in one beam.
#[tactic(auto, unfolding(crate::specs::Slope::shares_beam))]
fn shares(a: &SlopeInput, b: &SlopeInput) -> bool
    ensures { result ≡ shares_beam a.now b.now }
{
    a.group == b.group
}

/// Returns how many events follow the first in its beam.
fn more_in_beam(first: &SlopeInput, others: &[SlopeInput]) -> usize
    ensures value { result ≡ run_more shares_beam first.now others.now }
    ensures bound { result ≤ length others.now }
{
    let mut last = first;
    let mut n = 0;
    for a in others {
        if !shares(last, a) {
            return n;
        }
        last = a;
        n += 1;
    }
    n
}

/// Returns the last event of a beam.
fn last_in(first: &SlopeInput, others: &[SlopeInput]) -> SlopeInput
    ensures { result ≡ last_input first.now others.now }
{
    let mut last = *first;
    for a in others {
        last = *a;
    }
    last
}

/// Returns how far a line climbs between own ends.
fn climb_between(first: i32, last: i32) -> i64
    ensures { result ≡ int_max (int_min (last -ℤ first) steepest) steepest_down }
{
    (i64::from(last) - i64::from(first))
        .min(STEEPEST)
        .max(-STEEPEST)
}

/// Returns the line from one event to another.
#[tactic(auto, unfolding(crate::specs::Slope::slope_line))]
fn line_between(a: &SlopeInput, b: &SlopeInput) -> BeamLine
    ensures { result ≡ slope_line a.now b.now }
{
    BeamLine {
        first: a.x,
        last: b.x,
        climb: climb_between(a.own, b.own),
    }
}

/// Returns how far a line that climbs by `climb` over `length` has risen at `along`.
fn risen(climb: i64, along: i64, length: i64) -> i32
    requires low { steepest_down ≤ℤ climb }
    requires high { climb ≤ℤ steepest }
    requires begun { pos 0 ≤ℤ along }
    requires within { along ≤ℤ length }
    requires some { pos 0 <ℤ length }
    requires near { length ≤ℤ pos (2 ^ 40) }
    ensures value { result ≡ int_div_euclid (climb *ℤ along) length }
    ensures low { steepest_down ≤ℤ result }
    ensures high { result ≤ℤ steepest }
{
    (climb * along).div_euclid(length) as i32
}

/// Returns how far a line has risen at an abscissa.
#[tactic(auto, unfolding(crate::specs::Slope::rise_at))]
fn rise(line: &BeamLine, x: i64) -> i32
    requires line { IsLine line.now }
    requires after { line.now.first ≤ℤ x }
    requires before { x ≤ℤ line.now.last }
    ensures value { result ≡ rise_at line.now x }
    ensures low { steepest_down ≤ℤ result }
    ensures high { result ≤ℤ steepest }
{
    risen(line.climb, x - line.first, line.last - line.first)
}

/// Returns the base that an event needs for its beam: its own end, less the rise up to it.
fn base_at(line: &BeamLine, a: &SlopeInput) -> i32
    requires line { IsLine line.now }
    requires over { IsOver line.now a.now }
    ensures value { result ≡ a.now.own -ℤ rise_at line.now a.now.x }
    ensures near { IsBeamBase result }
{
    a.own - rise(line, a.x)
}

/// Returns the base of a beam: the furthest that any of its events needs.
fn base_of(line: &BeamLine, first: &SlopeInput, others: &[SlopeInput]) -> i32
    requires line { IsLine line.now }
    requires first { IsOver line.now first.now }
    requires others { AreOver line.now others.now }
    ensures { result ≡ base_along first.now.up line.now (first.now.own -ℤ rise_at line.now first.now.x) others.now }
{
    let mut base = base_at(line, first);
    for a in others {
        base = further_of(first.up, base, base_at(line, a));
    }
    base
}

/// Adds the end of an event over a line.
fn put_end(out: &mut Row<i32>, line: &BeamLine, base: i32, a: &SlopeInput) -> Result<(), Memory>
    requires line { IsLine line.now }
    requires base { IsBeamBase base }
    requires over { IsOver line.now a.now }
    ensures { OnOk result (out.new ≡ out.old ++ (base +ℤ rise_at line.now a.now.x) ∷ []) }
{
    out.push(base + rise(line, a.x))
}

/// Adds the ends of events over a line.
fn put_ends(
    out: &mut Row<i32>,
    line: &BeamLine,
    base: i32,
    beam: &[SlopeInput],
) -> Result<(), Memory>
    requires line { IsLine line.now }
    requires base { IsBeamBase base }
    requires beam { AreOver line.now beam.now }
    ensures { OnOk result (out.new ≡ out.old ++ ends_along line.now base beam.now) }
{
    for a in beam {
        put_end(out, line, base, a)?;
    }
    Ok(())
}

/// Adds the ends of the events of a beam of two or more.
fn put_line(
    out: &mut Row<i32>,
    line: &BeamLine,
    first: &SlopeInput,
    others: &[SlopeInput],
    beam: &[SlopeInput],
) -> Result<(), Memory>
    requires line { IsLine line.now }
    requires beam { beam.now ≡ first.now ∷ others.now }
    requires over { AreOver line.now beam.now }
    ensures { OnOk result (out.new ≡ out.old ++ line_ends line.now first.now others.now) }
{
    let base = base_of(line, first, others);
    put_ends(out, line, base, beam)
}

/// Adds the ends of a beam.
fn put_beam(out: &mut Row<i32>, beam: &[SlopeInput]) -> Result<(), Memory>
    requires anchors { AreAnchors beam.now }
    requires rise { Rise beam.now }
    ensures { OnOk result (out.new ≡ out.old ++ beam_ends beam.now) }
{
    let Some((first, others)) = beam.split_first() else {
        return Ok(());
    };
    let Some((second, more)) = others.split_first() else {
        return out.push(first.own);
    };
    let line = line_between(first, &last_in(second, more));
    put_line(out, &line, first, others, beam)
}

/// Returns the ends of the stems of events, each on its beam's line, as `slope` puts them into their plans. The only
/// error is out of memory.
pub fn ends_for(alloc: Global, events: &[SlopeInput]) -> Result<Row<i32>, Memory>
    requires anchors { AreAnchors events.now }
    requires rise { RisesInBeams events.now }
    ensures { IfOk result (λ ends. ends ≡ sloped_ends events.now) }
{
    let mut out = Row::with_room(alloc, events.len())?;
    let mut rest = events;
    while let Some((a, more)) = rest.split_first() {
        let n = more_in_beam(a, more);
        let (beam, after) = rest.split_at(n + 1);
        put_beam(&mut out, beam)?;
        rest = after;
    }
    Ok(out)
}

/// Returns a plan with another end.
fn copy_with(alloc: Global, plan: &StemPlan, to: &i32) -> Result<StemPlan, Memory>
    ensures { IfOk result (λ p. p ≡ with_end plan.now to.now) }
{
    Ok(StemPlan {
        up: plan.up,
        has: plan.has,
        from: plan.from,
        to: *to,
        own: plan.own,
        group: plan.group,
        flags: plan.flags,
        shifts: plan.shifts.copy(alloc)?,
        signs: plan.signs.copy(alloc)?,
        ledgers: plan.ledgers.copy(alloc)?,
        dots: plan.dots.copy(alloc)?,
    })
}

/// Adds a copy of a plan with another end.
fn put_copy(alloc: Global, out: &mut Row<StemPlan>, plan: &StemPlan, to: &i32) -> Result<(), Memory>
    ensures { OnOk result (out.new ≡ out.old ++ with_end plan.now to.now ∷ []) }
{
    out.push(copy_with(alloc, plan, to)?)
}

/// Returns plans with other ends.
fn copy_all_with(alloc: Global, plans: &[StemPlan], ends: &[i32]) -> Result<Row<StemPlan>, Memory>
    requires { length ends.now ≡ length plans.now }
    ensures { IfOk result (λ p. p ≡ with_ends plans.now ends.now) }
{
    let mut out = Row::with_room(alloc, plans.len())?;
    for (plan, end) in plans.iter().zip(ends) {
        put_copy(alloc, &mut out, plan, end)?;
    }
    Ok(out)
}

/// Returns the plans that `stems` returned, with each end `to` on its beam's line and all else unchanged.
///
/// `at` has the abscissa of each event in u, from 0 to 2^40, rising within a beam. The line climbs from the first
/// event to the last by the difference of their own ends, at most 500 u, and is as far out as the own ends of its
/// events require. An event without a beam keeps its own end.
#[tactic(auto, using(crate::proofs::SlopeLaws::anchors_are, crate::proofs::SlopeLaws::ends_length, //
crate::proofs::SlopeLaws::sloped_length), unfolding(crate::specs::Slope::sloped))]
pub fn slope(alloc: Global, plans: &[StemPlan], at: &[i64]) -> Result<Row<StemPlan>, Memory>
    requires each { length at.now ≡ length plans.now }
    requires ends { AllEndsNear plans.now }
    requires places { ArePlaces at.now }
    requires rise { RisesInBeams (slope_inputs plans.now at.now) }
    ensures value { IfOk result (λ p. p ≡ sloped plans.now at.now) }
    ensures each { IfOk result (λ p. length p ≡ length plans.now) }
{
    let events = anchors_for(alloc, plans, at)?;
    let ends = ends_for(alloc, events.as_slice())?;
    copy_all_with(alloc, plans, ends.as_slice())
}
