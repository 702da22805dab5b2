ghost use Rattle.std.specs.Prelude.{◌≡◌, true, IfOk};
ghost use Rattle.abc_signs.specs.Waits.{nothing_pending};

use crate::waits::nothing_pending;
use abc_music::GraceChord;
use mus_score::{Changes, Look, Mention};
use mus_units::{Deco, Few, Head, Memory, Row, Text, Value};
use std::alloc::Global;
use std::marker::Model;

/// A note, a chord, a rest or a whole measure rest as it is written, with the line and the column of its first byte.
/// `values` are its parts, or none if its length has none; `whole` is the length of a whole measure rest in ticks.
#[derive(Drop)]
pub struct WrittenEvent {
    pub line: u32,
    pub column: u32,
    pub measure: u64,
    pub heads: Few<Head>,
    pub look: Look,
    pub values: Few<Value>,
    pub whole: Option<u64>,
    pub parted: bool,
    pub begins: u32,
    pub ends: u32,
}

/// What is pending for an event.
#[derive(Drop)]
pub struct Pending {
    pub changes: Changes,
    pub decos: Row<Deco>,
    pub mentions: Row<Mention>,
    pub ending: Option<Text>,
    pub graces: Row<GraceChord>,
    pub slash: bool,
}

/// Storage for what is pending; takes no memory if nothing is.
#[derive(Drop)]
enum PendingStore {
    Nothing,
    Some(Box<Pending>),
}

/// What is pending for an event. Contracts see it as a `Pending`. Takes no memory if nothing is pending.
#[derive(Drop)]
pub struct StoredPending {
    held: PendingStore,
}

impl Model for StoredPending {
    ghost use Rattle.abc_signs.specs.{declared.written.Pending.Pending, Stored.stored_pending};

    ghost Value = { Pending };

    ghost view = { λ w. stored_pending w.held };
}

impl StoredPending {
    /// Returns the value for an event with nothing pending.
    pub fn nothing() -> StoredPending
        ensures { result ≡ nothing_pending }
    {
        StoredPending {
            held: PendingStore::Nothing,
        }
    }

    /// Stores what is pending for an event.
    pub fn new(alloc: Global, waiting: Pending) -> Result<StoredPending, Memory>
        ensures { IfOk result (λ w. w ≡ waiting) }
    {
        Ok(StoredPending {
            held: PendingStore::Some(Box::new(alloc, waiting)?),
        })
    }

    /// Returns whether it is known that nothing is pending.
    pub fn is_nothing(&self) -> bool
        ensures { result ≡ true → self.now ≡ nothing_pending }
    {
        matches!(self.held, PendingStore::Nothing)
    }

    /// Returns what is pending, as a whole.
    pub fn whole(self, alloc: Global) -> Pending
        ensures { result ≡ self }
    {
        match self.held {
            PendingStore::Nothing => nothing_pending(alloc),
            PendingStore::Some(waiting) => Box::into_inner(waiting),
        }
    }
}

/// An item from which the trees of a voice are built, in the order of the text: a written event, or a tuplet of `p`
/// in the time of `q` that takes the next `r` events.
#[derive(Drop)]
pub enum TreeItem {
    Event {
        written: WrittenEvent,
        waiting: StoredPending,
    },
    Opens {
        measure: u64,
        p: u8,
        q: u8,
        r: u8,
    },
}
