ghost use Rattle.std.specs.Prelude.{◌≡◌};
ghost use Rattle.abc_steps.specs.Kinds.{has_head, is_sound, is_note, is_event, is_bar, is_broken, is_tie, is_slur_on};
ghost use Rattle.abc_steps.specs.Kinds.{is_slur_off, is_parting, is_event_or_bar, is_left_stop, is_tie_stop};

use crate::step::Step;
use mus_units::Head;

fn has_head(heads: &[Head]) -> bool
    ensures { result ≡ has_head heads.now }
{
    !heads.is_empty()
}

/// Returns whether a step is a note, a chord or a rest.
#[tactic(auto, unfolding(crate::specs::Kinds::is_sound))]
pub fn is_sound(s: &Step) -> bool
    ensures { result ≡ is_sound s.now }
{
    matches!(s, Step::Sound(_))
}

/// Returns whether a step is a note or a chord.
#[tactic(auto, unfolding(crate::specs::Kinds::is_note))]
pub fn is_note(s: &Step) -> bool
    ensures { result ≡ is_note s.now }
{
    match s {
        Step::Sound(sound) => has_head(sound.heads()),
        _ => false,
    }
}

/// Returns whether a step is a note, a chord, a rest or whole measure rests.
#[tactic(auto, unfolding(crate::specs::Kinds::is_event))]
pub fn is_event(s: &Step) -> bool
    ensures { result ≡ is_event s.now }
{
    matches!(s, Step::Sound(_) | Step::Measures { .. })
}

/// Returns whether a step is a bar.
#[tactic(auto, unfolding(crate::specs::Kinds::is_bar))]
pub fn is_bar(s: &Step) -> bool
    ensures { result ≡ is_bar s.now }
{
    matches!(s, Step::Bar(_))
}

/// Returns whether a step is a broken rhythm.
#[tactic(auto, unfolding(crate::specs::Kinds::is_broken))]
pub fn is_broken(s: &Step) -> bool
    ensures { result ≡ is_broken s.now }
{
    matches!(s, Step::Broken { .. })
}

/// Returns whether a step is a tie.
#[tactic(auto, unfolding(crate::specs::Kinds::is_tie))]
pub fn is_tie(s: &Step) -> bool
    ensures { result ≡ is_tie s.now }
{
    matches!(s, Step::Tie)
}

/// Returns whether a step begins a slur.
#[tactic(auto, unfolding(crate::specs::Kinds::is_slur_on))]
pub fn is_slur_on(s: &Step) -> bool
    ensures { result ≡ is_slur_on s.now }
{
    matches!(s, Step::SlurOn)
}

/// Returns whether a step ends a slur.
#[tactic(auto, unfolding(crate::specs::Kinds::is_slur_off))]
pub fn is_slur_off(s: &Step) -> bool
    ensures { result ≡ is_slur_off s.now }
{
    matches!(s, Step::SlurOff)
}

/// Returns whether a step is a space or the end of a line.
#[tactic(auto, unfolding(crate::specs::Kinds::is_parting))]
pub fn is_parting(s: &Step) -> bool
    ensures { result ≡ is_parting s.now }
{
    matches!(s, Step::Space | Step::LineEnd)
}

/// Returns whether a step is an event or a bar.
#[tactic(auto, unfolding(crate::specs::Kinds::is_event_or_bar))]
pub fn is_event_or_bar(s: &Step) -> bool
    ensures { result ≡ is_event_or_bar s.now }
{
    is_event(s) || is_bar(s)
}

/// Returns whether a step is an event, a bar or a broken rhythm.
#[tactic(auto, unfolding(crate::specs::Kinds::is_left_stop))]
pub fn is_left_stop(s: &Step) -> bool
    ensures { result ≡ is_left_stop s.now }
{
    is_event_or_bar(s) || is_broken(s)
}

/// Returns whether a step is a note, a chord or the end of a line, past which no tie reaches.
#[tactic(auto, unfolding(crate::specs::Kinds::is_tie_stop))]
pub fn is_tie_stop(s: &Step) -> bool
    ensures { result ≡ is_tie_stop s.now }
{
    match s {
        Step::Sound(sound) => has_head(sound.heads()),
        Step::LineEnd => true,
        _ => false,
    }
}
