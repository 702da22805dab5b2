ghost use Rattle.std.specs.Prelude.{◌≤◌, ◌^◌};

use crate::state::VoiceState;
use crate::step::PlacedStep;

/// A step of a voice with what is around it: the state of the voice before it, the steps before it in the order of
/// the text, and those after it.
#[derive(Clone, Copy)]
pub struct StepContext<'a> {
    pub state: &'a VoiceState,
    pub before: &'a [PlacedStep],
    pub at: &'a PlacedStep,
    pub following: &'a [PlacedStep],
    pub ghost groups: { state.now.counts.groups ≤ 2 ^ 30 },
    pub ghost further: { state.now.counts.further ≤ 2 ^ 46 },
}
