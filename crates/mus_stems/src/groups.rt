ghost use Rattle.mus_stems.specs.{Groups.BeamsByGroups, Groups.SlopesByBeams, Plans.OnePlan};

/// The law of groups: if the ids of a measure's events rise, the maximal runs of neighbouring plans with one `group`
/// are the plans of its beams, beam for beam. An event without a beam is a run of its own. Does nothing.
pub fn beams_by_groups()
    ensures { BeamsByGroups }
{}

/// The law of slopes: if the ids of a measure's events rise, the runs of events whose ends `slope` puts on one line
/// are as long as its beams, one for each. Does nothing.
pub fn slopes_by_beams()
    ensures { SlopesByBeams }
{}

/// The law of plans: the events of a measure have no other plans than those that `stems` returns. Does nothing.
pub fn no_other_plans()
    ensures { OnePlan }
{}
