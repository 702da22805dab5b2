ghost use Rattle.mus_bridges.specs.Levels.{BeamsByLevels};

/// The law of levels: if the events of a measure are in distinct columns, the beams that `put_beams` draws for it are
/// those of its levels: at each level one for each maximal run of two or more events that have it, in the order of
/// their first events and there by level. Does nothing.
#[tactic(auto, using(crate::proofs::LevelLaws::beams_by_levels))]
pub fn beams_by_levels()
    ensures { BeamsByLevels }
{}
