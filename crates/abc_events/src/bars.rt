ghost use Rattle.std.specs.Prelude.{◌≡◌, ◌≤◌, ◌<◌, ◌^◌, ◌+◌, ℕ, Option, None, length, reverse, slice_index_or, ◌==◌};
ghost use Rattle.std.specs.Prelude.{IfOk, OnOk};
ghost use Rattle.std.specs.List.{list_any};
ghost use Rattle.{mus_units.specs.declared.note.Bar.{Bar}, abc_steps.specs.Counts.{measures_begun}};
ghost use Rattle.abc_events.specs.Bars.{plain_bar, unseen_bar, union, union_with, is_seen, joined_bar, bars_after};
ghost use Rattle.abc_events.specs.Bars.{bars_at, joined_or, bar_before_events, missing_bar, bars_of, is_near_bar};
ghost use Rattle.abc_events.specs.Bars.{forces_bar, with_bar, forced_after, forced_bars};

use abc_steps::counts::{count_step, no_counts};
use abc_steps::{Counts, Nearest, PlacedStep, Step};
use mus_units::{Bar, Memory, Row};
use std::alloc::Global;

fn plain_bar() -> Bar
    ensures { result ≡ plain_bar }
{
    Bar {
        end: false,
        start: false,
        last: false,
        initial: false,
        double: false,
        dotted: false,
        unseen: false,
    }
}

fn unseen_bar() -> Bar
    ensures { result ≡ unseen_bar }
{
    Bar {
        unseen: true,
        ..plain_bar()
    }
}

fn union(a: Bar, b: Bar) -> Bar
    ensures { result ≡ union a b }
{
    Bar {
        end: a.end || b.end,
        start: a.start || b.start,
        last: a.last || b.last,
        initial: a.initial || b.initial,
        double: a.double || b.double,
        dotted: a.dotted || b.dotted,
        unseen: a.unseen || b.unseen,
    }
}

fn union_with(all: Option<Bar>, bar: Bar) -> Bar
    ensures { result ≡ union_with all bar }
{
    match all {
        Some(all) => union(all, bar),
        None => bar,
    }
}

fn is_seen(b: Bar) -> bool
    ensures { result ≡ is_seen b }
{
    b.end || (b.start || (b.last || (b.initial || (b.double || b.dotted))))
}

fn joined_bar(b: Bar) -> Bar
    ensures { result ≡ joined_bar b }
{
    Bar {
        unseen: b.unseen && !is_seen(b),
        ..b
    }
}

fn joined_or(other: Bar, all: Option<Bar>) -> Bar
    ensures { result ≡ joined_or other all }
{
    match all {
        Some(all) => joined_bar(all),
        None => other,
    }
}

/// Returns the bars before which exactly `begun` measures have begun, with one more step added.
#[tactic(auto, unfolding(crate::specs::Bars::bars_after))]
fn bars_after(begun: u64, now: u64, s: &Step, all: Option<Bar>) -> Option<Bar>
    ensures { result ≡ bars_after begun now s.now all }
{
    match s {
        Step::Bar(bar) => {
            if begun == now {
                Some(union_with(all, *bar))
            } else {
                all
            }
        }
        _ => all,
    }
}

/// Returns the number of measures that a voice has of its own.
pub fn own_measures(steps: &[PlacedStep]) -> u64
    requires { length steps.now ≤ 2 ^ 30 }
    ensures { result ≡ measures_begun (reverse steps.now) }
{
    let mut counts = no_counts();
    for s in steps {
        count_step(&mut counts, s);
    }
    counts.begun
}

/// Adds a step to the bars of each place.
#[tactic(auto, unfolding(crate::specs::Bars::bars_after))]
fn put_bar(all: &mut [Option<Bar>], now: u64, s: &Step)
    ensures { (begun : ℕ) → begun < length all.old
        → slice_index_or all.new begun None ≡ bars_after begun now s.now (slice_index_or all.old begun None) }
{
    if let Step::Bar(bar) = s {
        if now < all.len() as u64 {
            let place = now as usize;
            all[place] = Some(union_with(all[place], *bar));
        }
    }
}

/// The bars at each place of a voice, before its first event and after each of its measures, and the number of
/// measures it has of its own.
#[derive(Drop)]
struct Places {
    all: Vec<Option<Bar>>,
    own: u64,
}

fn all_bars(alloc: Global, steps: &[PlacedStep], n: u32) -> Result<Places, Memory>
    requires { length steps.now ≤ 2 ^ 30 }
    ensures len { IfOk result (λ p. length p.all.items ≡ n + 1) }
    ensures value { IfOk result
        (λ p. (begun : ℕ) → begun < n + 1 → slice_index_or p.all.items begun None ≡ bars_at begun (reverse steps.now)) }
    ensures own { IfOk result (λ p. p.own ≡ measures_begun (reverse steps.now)) }
{
    let mut all = vec![in alloc; None; n as usize + 1]?;
    let mut counts = no_counts();
    for s in steps {
        put_bar(&mut all, counts.begun, &s.step);
        count_step(&mut counts, s);
    }
    Ok(Places {
        all,
        own: counts.begun,
    })
}

fn missing_bar(own: u64, measure: u64) -> Bar
    requires { measure < 2 ^ 32 }
    ensures { result ≡ missing_bar own measure }
{
    if measure + 1 == own {
        unseen_bar()
    } else {
        plain_bar()
    }
}

/// Returns the bar of a measure, from the bars of all places.
fn bar_of(all: &[Option<Bar>], own: u64, measure: u32) -> Bar
    requires { measure + 1 < length all.now }
    ensures { result ≡ joined_or (missing_bar own measure) (slice_index_or all.now (measure + 1) None) }
{
    joined_or(
        missing_bar(own, u64::from(measure)),
        all[measure as usize + 1],
    )
}

/// The bar before the first event of a voice, and those of its measures.
#[derive(Drop)]
pub struct VoiceBars {
    pub first: Bar,
    pub bars: Row<Bar>,
}

/// Returns the bars of a voice with `n` measures.
pub fn bars_of(alloc: Global, steps: &[PlacedStep], n: u32) -> Result<VoiceBars, Memory>
    requires { length steps.now ≤ 2 ^ 30 }
    ensures first { IfOk result (λ b. b.first ≡ bar_before_events steps.now) }
    ensures bars { IfOk result (λ b. b.bars ≡ bars_of steps.now n) }
{
    let places = all_bars(alloc, steps, n)?;
    let mut bars = Row::new(alloc);
    for k in 0..n {
        bars.push(bar_of(places.all.as_slice(), places.own, k))?;
    }
    Ok(VoiceBars {
        first: joined_or(plain_bar(), places.all[0]),
        bars,
    })
}

fn is_near_bar(nearest: Nearest) -> bool
    ensures { result ≡ is_near_bar nearest }
{
    matches!(nearest, Nearest::Bar)
}

/// Returns whether a line break forces the bar before it.
fn forces_bar(n: u32, counts: Counts) -> bool
    requires groups { counts.groups ≤ 2 ^ 30 }
    requires further { counts.further ≤ 2 ^ 46 }
    ensures { result ≡ forces_bar n counts }
{
    let bar = counts.groups + counts.further;
    is_near_bar(counts.nearest) && (1 <= bar && bar < u64::from(n))
}

/// Returns whether a bar is in a list, searched from the end.
fn has_bar(forced: &[u32], bar: u32) -> bool
    ensures { result ≡ list_any (λ b. b == bar) (reverse forced.now) }
{
    forced.iter().rev().any(|b| *b == bar)
}

/// Adds a bar unless it is already there.
#[tactic(auto, using(crate::proofs::BarRows::any_reverse))]
fn put_forced(forced: &mut Row<u32>, bar: u32) -> Result<(), Memory>
    ensures { OnOk result (forced.new ≡ with_bar bar forced.old) }
{
    if has_bar(forced.as_slice(), bar) {
        return Ok(());
    }
    forced.push(bar)
}

/// Adds the bar that a step forces.
#[tactic(auto, unfolding(crate::specs::Bars::forced_after))]
fn force_after(forced: &mut Row<u32>, n: u32, counts: Counts, s: &Step) -> Result<(), Memory>
    requires groups { counts.groups ≤ 2 ^ 30 }
    requires further { counts.further ≤ 2 ^ 46 }
    ensures { OnOk result (forced.new ≡ forced_after n counts s.now forced.old) }
{
    match s {
        Step::Break => {
            if forces_bar(n, counts) {
                return put_forced(forced, (counts.groups + counts.further) as u32);
            }
            Ok(())
        }
        _ => Ok(()),
    }
}

/// Returns the bars of a voice that its line breaks force, among `n` measures.
pub fn forced_bars(alloc: Global, steps: &[PlacedStep], n: u32) -> Result<Row<u32>, Memory>
    requires { length steps.now ≤ 2 ^ 30 }
    ensures { IfOk result (λ r. r ≡ forced_bars steps.now n) }
{
    let mut forced = Row::new(alloc);
    let mut counts = no_counts();
    for s in steps {
        force_after(&mut forced, n, counts, &s.step)?;
        count_step(&mut counts, s);
    }
    Ok(forced)
}
