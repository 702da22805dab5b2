ghost use Rattle.std.specs.Prelude.{◌≡◌};
ghost use Rattle.mus_score.specs.Seats.{is_lower};

use mus_units::{Bar, Clef, Deco, Few, Head, Key, Meter, Row, Spread, Text, Value, Wish};
use std::marker::Model;

/// How a rest or a note is drawn: visible, invisible, or as a rest of a whole measure.
#[derive(Clone, Copy, PartialEq, Eq)]
pub enum Look {
    Seen,
    Unseen,
    Whole,
}

/// A quoted text, below or above the staff.
#[derive(Drop)]
pub struct Mention {
    pub below: bool,
    pub text: Text,
}

/// A change before an event: a clef, key or meter that a field names there, whether or not its value is new.
#[derive(Drop)]
pub struct Changes {
    pub clef: Option<Clef>,
    pub key: Option<Key>,
    pub meter: Option<Meter>,
}

/// A part of a written note, chord or rest: a length that no single value has is split into several parts. `id`
/// counts the events of a voice from 0. `ticks` is the written length in ticks. `begins` and `ends` count slurs.
/// `words` has an entry for each verse. `parted` is true if a space or a line end separates the event from the one
/// before it in its voice. A rest has no heads.
#[derive(Drop)]
pub struct Event {
    pub id: u32,
    pub heads: Few<Head>,
    pub look: Look,
    pub value: Value,
    pub ticks: u64,
    pub parted: bool,
    pub changes: Changes,
    pub decos: Row<Deco>,
    pub mentions: Row<Mention>,
    pub ending: Option<Text>,
    pub begins: u32,
    pub ends: u32,
    pub words: Row<Option<Text>>,
}

/// A node of the tree of music. A grace group holds only notes; a tuplet has `p` in the time of `q`.
#[derive(Drop)]
pub enum Music {
    Note(Event),
    Rest(Event),
    Grace { body: Row<Music>, slash: bool },
    Tuplet { p: u8, q: u8, body: Row<Music> },
}

/// A measure and the bar after it.
#[derive(Drop)]
pub struct Measure {
    pub body: Row<Music>,
    pub bar: Bar,
}

/// The place of a voice among the staves of its score.
#[derive(Clone, Copy, PartialEq, Eq)]
pub enum Seat {
    /// Alone on its staff.
    Alone,
    /// The first of several voices on its staff.
    Upper,
    /// On the staff of the voice before it.
    Lower,
}

impl Seat {
    /// Returns whether the voice is on the staff of the voice before it.
    pub fn is_lower(self) -> bool
        ensures { result ≡ is_lower self }
    {
        match self {
            Seat::Lower => true,
            Seat::Alone | Seat::Upper => false,
        }
    }
}

/// A voice: its id, its seat, and the distance of its staff from the one above, in u (without meaning for a lower
/// voice); its initial state, the number of its verses, the bar before its first event, and its measures.
#[derive(Drop)]
pub struct Voice {
    pub id: Text,
    pub seat: Seat,
    pub gap: u32,
    pub clef: Clef,
    pub key: Key,
    pub meter: Meter,
    pub stem: Wish,
    pub verses: u8,
    pub first: Bar,
    pub measures: Row<Measure>,
}

/// A tune: its voices, which all have `measures` measures and whose seats determine the staves, and the bars at which
/// a system must end.
#[derive(Drop)]
pub struct Score {
    pub voices: Row<Voice>,
    pub measures: u32,
    pub forced: Row<u32>,
    pub spread: Spread,
}

/// An event that stays in the tree of its measure. Contracts see it as the event.
#[derive(Drop)]
pub struct BorrowedEvent<'a> {
    pub(crate) event: &'a Event,
}

impl<'a> Model for BorrowedEvent<'a> {
    ghost use Rattle.mus_score.specs.declared.score.Event.{Event};

    ghost Value = { Event };

    ghost view = { λ lent. lent.event.now };
}

/// An event borrowed from the tree of its measure, with its duration in ticks, the `p` of the tuplets that begin at
/// it, outermost first, and the graces before it.
#[derive(Drop)]
pub struct Flat<'a> {
    pub event: BorrowedEvent<'a>,
    pub duration: u64,
    pub tuplets: Row<u8>,
    pub graces: Row<Event>,
    pub slash: bool,
}

impl Flat<'_> {
    /// The event itself.
    pub fn event(&self) -> &Event
        ensures { result.now ≡ self.now.event }
    {
        self.event.event
    }
}
