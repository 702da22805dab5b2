ghost use Rattle.abc_steps.specs.Written.{IsStateAsWritten};

/// The law that the state of a voice is what the music says: in force is what the last fields before a place name, and
/// an open tuplet takes its events less those since it opened. Does nothing.
pub fn states_are_as_written()
    ensures { IsStateAsWritten }
{}
