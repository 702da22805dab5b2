ghost use Rattle.std.specs.Prelude.{◌≡◌};
ghost use Rattle.mus_onsets.specs.Keys.{key_at};

/// What a column holds, in the order of columns at one tick: what begins a system, the bar before the first measure,
/// a change of clef, key or meter, a grace, an event, a bar.
#[derive(Clone, Copy, PartialEq, Eq, PartialOrd, Ord)]
pub enum Class {
    Head,
    First,
    Change,
    Grace,
    Note,
    Bar,
}

/// The position of a column: its measure, then the tick in the measure, then its class, then its place, which counts
/// the graces of an event and is 0 for all others.
#[derive(Clone, Copy, PartialEq, Eq, PartialOrd, Ord)]
pub struct ColumnKey {
    pub measure: u32,
    pub tick: u64,
    pub class: Class,
    pub place: u32,
}

impl ColumnKey {
    /// Returns the key with these parts.
    pub fn new(measure: u32, tick: u64, class: Class, place: u32) -> ColumnKey
        ensures { result ≡ key_at measure tick class place }
    {
        ColumnKey {
            measure,
            tick,
            class,
            place,
        }
    }
}
