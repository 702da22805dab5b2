ghost use Rattle.law_transposition.specs.Higher.{MovedSoundsHigher};

/// The law of transposition: if a score is moved by some number of semitones, the same heads sound in the same order,
/// each higher by that number of semitones, and all are written higher by one number of letters. Does nothing.
pub fn moved_sounds_higher()
    ensures { MovedSoundsHigher }
{}
