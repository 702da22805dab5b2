use mus_arcs::Arc;
use mus_score::{Flat, Seat};
use mus_stems::StemPlan;
use mus_units::{Bar, Clef, Key, Meter, Row, Sign, Wish};

/// How the events of a voice are drawn: by its seat on the staff and its stem direction.
#[derive(Clone, Copy, PartialEq, Eq)]
pub struct Style {
    pub seat: Seat,
    pub wish: Wish,
}

/// A drawn event: its voice's seat, the ticks from the beginning of its measure, the clef in force there, the signs
/// of the key before it if it changes the key, and its stem plan.
#[derive(Drop)]
pub struct DrawnEvent<'a> {
    pub seat: Seat,
    pub flat: Flat<'a>,
    pub tick: u64,
    pub clef: Clef,
    pub old: Row<Sign>,
    pub plan: StemPlan,
}

/// What the head of a system that begins with a measure shows: clef, key and meter in force at its first event, or
/// before the measure if it has none; `anew` says that the first event changes the meter.
#[derive(Drop)]
pub struct SystemOpening {
    pub clef: Clef,
    pub key: Key,
    pub meter: Meter,
    pub anew: bool,
}

/// A drawn measure of a voice, with the voice's seat and the bar after it.
#[derive(Drop)]
pub struct DrawnMeasure<'a> {
    pub seat: Seat,
    pub opening: SystemOpening,
    pub events: Row<DrawnEvent<'a>>,
    pub bar: Bar,
}

/// A drawn voice: its seat, the bar before its first event, its measures, its arcs, and its number of verses.
#[derive(Drop)]
pub struct DrawnVoice<'a> {
    pub seat: Seat,
    pub first: Bar,
    pub measures: Row<DrawnMeasure<'a>>,
    pub arcs: Row<Arc>,
    pub verses: u8,
}
