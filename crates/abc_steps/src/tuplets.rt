ghost use Rattle.std.specs.Prelude.{◌≡◌};
ghost use Rattle.abc_steps.specs.Tuplets.{or_default, fits, one_less, after_event, with_tuplet_opened};
ghost use Rattle.abc_steps.specs.Tuplets.{open_tuplets_after, is_compound, usual_q};

use crate::step::Step;
use mus_units::Meter;

/// The open tuplets, by how many more events each takes: none is open, one is, or one inside another.
#[derive(Clone, Copy, PartialEq, Eq)]
pub enum OpenTuplets {
    Nothing,
    Single { left: u8 },
    Nested { inner: u8, outer: u8 },
}

/// Returns a number of a tuplet, or the usual one if it is left out.
pub fn or_default(usual: u8, given: u8) -> u8
    ensures { result ≡ or_default usual given }
{
    if given == 0 { usual } else { given }
}

/// Returns whether a tuplet that takes `r` events may begin.
#[tactic(auto, unfolding(crate::specs::Tuplets::fits))]
pub fn fits(r: u8, taking: OpenTuplets) -> bool
    ensures { result ≡ fits r taking }
{
    match taking {
        OpenTuplets::Nothing => true,
        OpenTuplets::Single { left } => r <= left,
        OpenTuplets::Nested { inner: _, outer: _ } => false,
    }
}

fn one_less(left: u8) -> OpenTuplets
    ensures { result ≡ one_less left }
{
    if left <= 1 {
        OpenTuplets::Nothing
    } else {
        OpenTuplets::Single { left: left - 1 }
    }
}

#[tactic(auto, unfolding(crate::specs::Tuplets::after_event))]
fn after_event(taking: OpenTuplets) -> OpenTuplets
    ensures { result ≡ after_event taking }
{
    match taking {
        OpenTuplets::Nothing => OpenTuplets::Nothing,
        OpenTuplets::Single { left } => one_less(left),
        OpenTuplets::Nested { inner, outer } => {
            if inner <= 1 {
                one_less(outer)
            } else {
                OpenTuplets::Nested {
                    inner: inner - 1,
                    outer: outer.saturating_sub(1),
                }
            }
        }
    }
}

fn with_tuplet_opened(r: u8, taking: OpenTuplets) -> OpenTuplets
    ensures { result ≡ with_tuplet_opened r taking }
{
    match taking {
        OpenTuplets::Nothing => OpenTuplets::Single { left: r },
        OpenTuplets::Single { left } => {
            if r <= left {
                OpenTuplets::Nested {
                    inner: r,
                    outer: left,
                }
            } else {
                taking
            }
        }
        OpenTuplets::Nested { inner: _, outer: _ } => taking,
    }
}

/// Returns the open tuplets after a step.
#[tactic(auto, unfolding(crate::specs::Tuplets::open_tuplets_after))]
pub fn open_tuplets_after(s: &Step, taking: OpenTuplets) -> OpenTuplets
    ensures { result ≡ open_tuplets_after s.now taking }
{
    match s {
        Step::Sound(_) => after_event(taking),
        Step::Measures { seen: _, count: _ } => OpenTuplets::Nothing,
        Step::Bar(_) => OpenTuplets::Nothing,
        Step::Tuplet { p, q: _, r } => with_tuplet_opened(or_default(*p, *r), taking),
        _ => taking,
    }
}

fn is_compound(meter: Meter) -> bool
    ensures { result ≡ is_compound meter }
{
    match meter {
        Meter::Ratio { num, den } => den == 8 && (num == 6 || (num == 9 || num == 12)),
        _ => false,
    }
}

/// Returns the `q` of a tuplet that names none: 3 or 2 by its `p`, and for 5, 7 and 9 by the meter.
pub fn usual_q(p: u8, meter: Meter) -> u8
    ensures { result ≡ usual_q p meter }
{
    if p == 2 || (p == 4 || p == 8) {
        3
    } else if p == 3 || p == 6 {
        2
    } else if is_compound(meter) {
        3
    } else {
        2
    }
}
