ghost use Rattle.std.specs.Prelude.{◌≡◌, ◌∷◌, [], true, IfOk};

use crate::step::WrittenSound;
use mus_units::{Deco, Head, Memory};
use std::alloc::Global;
use std::marker::Model;

/// Storage for a sound: a rest and a single note are stored inline, others on the heap.
#[derive(Drop)]
enum SoundStore {
    Rest { seen: bool, num: u32, den: u32 },
    Note { head: [Head; 1], num: u32, den: u32 },
    Other(Box<WrittenSound>),
}

/// A note, a chord or a rest. Contracts see it as a `WrittenSound`. Only a chord takes memory.
#[derive(Drop)]
pub struct StoredSound {
    held: SoundStore,
}

impl Model for StoredSound {
    ghost use Rattle.abc_steps.specs.{declared.step.WrittenSound.WrittenSound, Stored.stored_sound};

    ghost Value = { WrittenSound };

    ghost view = { λ s. stored_sound s.held };
}

impl StoredSound {
    /// Returns a rest.
    pub fn rest(seen: bool, num: u32, den: u32) -> StoredSound
        ensures { result ≡ record { heads = []; seen = seen; decos = []; num = num; den = den } }
    {
        StoredSound {
            held: SoundStore::Rest { seen, num, den },
        }
    }

    /// Returns a note.
    pub fn note(head: Head, num: u32, den: u32) -> StoredSound
        ensures { result ≡ record { heads = head ∷ []; seen = true; decos = []; num = num; den = den } }
    {
        StoredSound {
            held: SoundStore::Note {
                head: [head],
                num,
                den,
            },
        }
    }

    /// Stores a sound of any kind.
    pub fn from_sound(alloc: Global, sound: WrittenSound) -> Result<StoredSound, Memory>
        ensures { IfOk result (λ s. s ≡ sound) }
    {
        Ok(StoredSound {
            held: SoundStore::Other(Box::new(alloc, sound)?),
        })
    }

    /// Returns its heads.
    pub fn heads(&self) -> &[Head]
        ensures { result.now ≡ self.now.heads }
    {
        match &self.held {
            SoundStore::Rest { .. } => &[],
            SoundStore::Note { head, .. } => head,
            SoundStore::Other(sound) => sound.heads.as_slice(),
        }
    }

    /// Returns whether it is drawn.
    pub fn seen(&self) -> bool
        ensures { result ≡ self.now.seen }
    {
        match &self.held {
            SoundStore::Rest { seen, .. } => *seen,
            SoundStore::Note { .. } => true,
            SoundStore::Other(sound) => sound.seen,
        }
    }

    /// Returns the decorations inside it.
    pub fn decos(&self) -> &[Deco]
        ensures { result.now ≡ self.now.decos }
    {
        match &self.held {
            SoundStore::Other(sound) => sound.decos.as_slice(),
            _ => &[],
        }
    }

    /// Returns the numerator of its length.
    pub fn num(&self) -> u64
        ensures { result ≡ self.now.num }
    {
        match &self.held {
            SoundStore::Rest { num, .. } | SoundStore::Note { num, .. } => u64::from(*num),
            SoundStore::Other(sound) => sound.num,
        }
    }

    /// Returns the denominator of its length.
    pub fn den(&self) -> u64
        ensures { result ≡ self.now.den }
    {
        match &self.held {
            SoundStore::Rest { den, .. } | SoundStore::Note { den, .. } => u64::from(*den),
            SoundStore::Other(sound) => sound.den,
        }
    }
}
