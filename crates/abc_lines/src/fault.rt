ghost use Rattle.std.specs.Prelude.{◌≡◌};
ghost use Rattle.abc_lines.specs.declared.fault.TuneError.TheVariants as errors;

use mus_units::Memory;

/// Why a tune is refused. The order is that of precedence among faults at one place.
#[derive(Clone, Copy, PartialEq, Eq)]
pub enum FaultKind {
    /// The tune has no `K:` line.
    NoKey,
    /// A meter in none of the accepted forms.
    BadMeter,
    /// A unit length in none of the accepted forms.
    BadUnit,
    /// A key in none of the accepted forms.
    BadKey,
    /// A voice in none of the accepted forms.
    BadVoice,
    /// A seventeenth voice.
    TooManyVoices,
    /// A byte that begins no token.
    BadByte,
    /// A quote, chord, grace or inline field that isn't closed on its line.
    Unclosed,
    /// A length in none of the accepted forms.
    BadLength,
    /// A tuplet whose numbers are out of range.
    BadTuplet,
    /// A tuplet nested in two others.
    TooDeep,
    /// A tuplet of more notes than the tuplet around it still takes.
    TupletCrosses,
    /// A bar, a whole measure rest or the end before a tuplet has all its notes.
    TupletShort,
    /// A broken rhythm without a note or rest of the measure on each side.
    BrokenAlone,
    /// A written length that has no parts.
    Undrawable,
    /// A note head too far from the staff.
    StepRange,
    /// A whole measure rest in free meter.
    RestWithoutMeter,
    /// A measure past the 2000th.
    TooManyMeasures,
    /// A note head or rest past the 50,000th.
    TooManyEvents,
    /// A ninth line of words on one music line.
    TooManyVerses,
    /// A `%%score` whose signs don't pair, or that names no voice, a voice twice or a voice that doesn't exist.
    BadScore,
    /// Two voices of one staff differ in first clef, key or meter, or in their changes.
    BadShare,
    /// A key, an accidental or a note head that can't be transposed by the given distance.
    BadMove,
    /// No legal breaking; `reached` is the greatest bar at which a legal prefix ends.
    NoWay { reached: u32 },
    /// A group of blocks higher than the page; `block` is the index of its first block among those of the tune, from
    /// 0.
    TooTall { block: u32 },
}

/// The one fault of a tune, at a line and a column, both counted from 1.
#[derive(Clone, Copy, PartialEq, Eq)]
pub struct Fault {
    pub kind: FaultKind,
    pub line: u32,
    pub column: u32,
}

/// Why a call on a tune fails: the tune's fault, or out of memory.
#[derive(Clone, Copy, PartialEq, Eq)]
pub enum TuneError {
    Fault(Fault),
    Memory,
}

impl From<Memory> for TuneError {
    ghost from_gives = { λ _ e. e ≡ errors.Memory };

    fn from(_e: Memory) -> TuneError {
        TuneError::Memory
    }
}
