ghost use Rattle.std.specs.Prelude.{◌≡◌, ◌≤◌, ◌<◌, ◌^◌, ◌+◌, ◌∷◌, [], if◌then◌else◌};
ghost use Rattle.abc_steps.specs.{declared.counts.Nearest.Nearest, Looks.Steps, Counts.is_near_event, Counts.counts_of};

use crate::step::{PlacedStep, Step};

/// The kind of the nearest event or bar before a place.
#[derive(Clone, Copy, PartialEq, Eq)]
pub enum Nearest {
    Nothing,
    Event,
    Bar,
}

/// Counts of the steps before a place, from which the measure follows: the groups of bars after the first event, the
/// further measures of whole measure rests, how many measures have begun, and the nearest event or bar.
#[derive(Clone, Copy, PartialEq, Eq)]
pub struct Counts {
    pub groups: u64,
    pub further: u64,
    pub begun: u64,
    pub nearest: Nearest,
}

fn is_near_event(nearest: Nearest) -> bool
    ensures { result ≡ is_near_event nearest }
{
    matches!(nearest, Nearest::Event)
}

/// Counts an event that adds this number of measures to its own.
fn count_event(counts: &mut Counts, further: u64)
    requires groups { counts.old.groups ≤ 2 ^ 30 }
    requires before { counts.old.further ≤ 2 ^ 46 }
    requires further { further ≤ 65535 }
    ensures { counts.new
        ≡ record {
          groups = counts.old.groups;
          further = counts.old.further + further;
          begun = counts.old.groups + counts.old.further + further + 1;
          nearest = Nearest.Event;
        } }
{
    counts.further += further;
    counts.begun = counts.groups + counts.further + 1;
    counts.nearest = Nearest::Event;
}

/// Counts a bar. The first one after an event begins a group.
fn count_bar(counts: &mut Counts)
    requires { counts.old.groups ≤ 2 ^ 30 }
    ensures { counts.new
        ≡ record counts.old {
          groups = if is_near_event counts.old.nearest then counts.old.groups + 1 else counts.old.groups;
          nearest = Nearest.Bar;
        } }
{
    let begins = is_near_event(counts.nearest);
    counts.groups += u64::from(begins);
    counts.nearest = Nearest::Bar;
}

/// Returns the counts at the beginning of a voice.
pub fn no_counts() -> Counts
    ensures { result ≡ counts_of [] }
{
    Counts {
        groups: 0,
        further: 0,
        begun: 0,
        nearest: Nearest::Nothing,
    }
}

/// Counts a step. Most steps leave the counts as they are.
#[inline(always)]
#[tactic(auto, unfolding(crate::specs::Kinds::is_event, crate::specs::Kinds::is_bar, //
crate::specs::Counts::begins_group, crate::specs::Counts::further_measures))]
pub fn count_step(counts: &mut Counts, s: &PlacedStep)
    requires groups { counts.old.groups ≤ 2 ^ 30 }
    requires further { counts.old.further ≤ 2 ^ 46 }
    ensures counts { (before : Steps) → counts.old ≡ counts_of before → counts.new ≡ counts_of (s.now ∷ before) }
    ensures groups { counts.new.groups ≤ counts.old.groups + 1 }
    ensures further { counts.new.further ≤ counts.old.further + 65535 }
{
    match &s.step {
        Step::Sound(_) => count_event(counts, 0),
        Step::Measures { seen: _, count } => {
            count_event(counts, u64::from(count.saturating_sub(1)))
        }
        Step::Bar(_) => count_bar(counts),
        _ => (),
    }
}
