ghost use Rattle.std.specs.{Prelude.{◌≡◌, ◌++◌, length, OnOk}, List.find, Option.option_copied};
ghost use Rattle.lay_breaks.specs.Spans.{AreSpans, has_ends};
ghost use Rattle.set_lists.specs.Listing.{AreListable, IsListable};
ghost use Rattle.set_lists.specs.Systems.{badness_in, outcome_lines, listed_system, system_lines, systems_text};
ghost use Rattle.set_lists.specs.Systems.{listed_tune};

use crate::words::put_word;
use mus_units::{Memory, Text};
use set_book::Outcome;
use set_tune::{Placed, SetTune, Span, SystemMarks};

fn has_ends(a: u32, b: u32, span: &Span) -> bool
    ensures { result ≡ has_ends a b span.now }
{
    span.a == a && span.b == b
}

/// Returns the first span from bar `a` to bar `b`.
fn span_between(spans: &[Span], a: u32, b: u32) -> Option<&Span>
    ensures { option_copied result ≡ find (has_ends a b) spans.now }
{
    spans.iter().find(|span| has_ends(a, b, span))
}

/// Returns the badness of the first span from bar `a` to bar `b`, or 0 if there is none.
fn badness_among(spans: &[Span], a: u32, b: u32) -> u64
    ensures { result ≡ badness_in spans.now a b }
{
    match span_between(spans, a, b) {
        Some(span) => span.badness,
        None => 0,
    }
}

/// Returns the same for listed spans of `bars` bars, which are sorted by the bar at which they begin.
fn badness_in(spans: &[Span], bars: u32, a: u32, b: u32) -> u64
    requires { AreSpans bars spans.now }
    ensures { result ≡ badness_in spans.now a b }
{
    let first = spans.partition_point(|span| span.a < a);
    let (_, further) = spans.split_at(first);
    badness_among(further, a, b)
}

#[tactic(auto, unfolding(crate::specs::Systems::listed_system))]
fn put_system(
    out: &mut Text,
    tune: &SetTune,
    system: &SystemMarks,
    placed: &Placed,
) -> Result<(), Memory>
    requires { AreSpans tune.now.score.measures tune.now.spans }
    ensures { OnOk result (out.new ≡ out.old ++ listed_system tune.now.spans system.now placed.now) }
{
    let spans = tune.spans.as_slice();
    let badness = badness_in(spans, tune.score.measures, system.a, system.b);
    put_word(out, b"system ", u128::from(system.a))?;
    put_word(out, b" ", u128::from(system.b))?;
    put_word(out, b" force ", u128::from(placed.force))?;
    put_word(out, b" badness ", u128::from(badness))?;
    out.push(b'\n')
}

fn put_system_lines(
    out: &mut Text,
    tune: &SetTune,
    systems: &[SystemMarks],
    placed: &[Placed],
) -> Result<(), Memory>
    requires form { AreSpans tune.now.score.measures tune.now.spans }
    requires beside { length placed.now ≡ length systems.now }
    ensures { OnOk result (out.new ≡ out.old ++ system_lines tune.now.spans systems.now placed.now) }
{
    for (system, one) in systems.iter().zip(placed) {
        put_system(out, tune, system, one)?;
    }
    Ok(())
}

#[tactic(auto, unfolding(crate::specs::Systems::listed_tune))]
fn put_tune_line(out: &mut Text, ordinal: u32, tune: &SetTune) -> Result<(), Memory>
    ensures { OnOk result (out.new ≡ out.old ++ listed_tune ordinal tune.now) }
{
    put_word(out, b"tune ", u128::from(ordinal))?;
    put_word(out, b" measures ", u128::from(tune.score.measures))?;
    put_word(out, b" total ", u128::from(tune.breaking.total))?;
    out.push(b'\n')
}

fn put_outcome(out: &mut Text, outcome: &Outcome) -> Result<(), Memory>
    requires { IsListable outcome.now.result }
    ensures { OnOk result (out.new ≡ out.old ++ outcome_lines outcome.now) }
{
    match &outcome.result {
        Ok(tune) => {
            put_tune_line(out, outcome.ordinal, tune)?;
            put_system_lines(out, tune, tune.systems.as_slice(), tune.placed.as_slice())
        }
        Err(_) => Ok(()),
    }
}

/// Adds for each tune without a fault, at the end of the text, the line `tune K measures n total t`, followed by the
/// line `system a b force f badness c` for each of its systems: `a` is the bar before the system, `b` its last bar,
/// and `f` the force as it counts.
#[tactic(auto, unfolding(crate::specs::Systems::systems_text))]
pub fn put_systems(out: &mut Text, outcomes: &[Outcome]) -> Result<(), Memory>
    requires { AreListable outcomes.now }
    ensures { OnOk result (out.new ≡ out.old ++ systems_text outcomes.now) }
{
    for outcome in outcomes {
        put_outcome(out, outcome)?;
    }
    Ok(())
}
