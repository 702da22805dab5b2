ghost use Rattle.law_one_outcome.specs.Outcomes.{EveryTuneHasOneOutcome};
ghost use Rattle.law_one_outcome.specs.Said.{IsReadAsSaid};
ghost use Rattle.law_one_outcome.specs.Stages.{EachStageHasOneResult};

use abc_steps::states_are_as_written;

/// The law that each stage of a tune has exactly one result. If the file header sets good defaults, a tune has one
/// header with good values, or one first fault of its header. Under a header the lines of its body have one list of
/// good items, or one first fault; and under a header with good values a tune has one good score, or one first fault of
/// its body or its score. By the line of its staves a good score is drawn in one way, and moved by semitones in one
/// way, or can't be. And a good score that has a voice if it has a measure has one layout on any width, or no breaking
/// of it is legal there and one bar is the last at which a legal prefix ends. Does nothing.
pub fn each_stage_has_one_result()
    ensures { EachStageHasOneResult }
{}

/// The law that lines are read as they say: each definition by which the program reads fields, headers, defaults, paper
/// and words is exactly the relation that says what a text means. Does nothing.
pub fn lines_are_read_as_said()
    ensures { IsReadAsSaid }
{
    states_are_as_written();
}

/// The law that a tune has exactly one outcome under good defaults: it is set in one way or has one fault, and never
/// both. So every book has exactly one list of outcomes, of whatever size they are, for every number of jobs. And what
/// is read of their lines is what the lines say. Does nothing.
pub fn every_tune_has_one_outcome()
    ensures { EveryTuneHasOneOutcome }
{
    each_stage_has_one_result();
    lines_are_read_as_said();
}
