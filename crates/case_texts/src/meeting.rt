ghost use Rattle.std.specs.Prelude.{◌<◌};

use crate::error::CaseError;
use crate::report::Report;
use std::sync::atomic::AtomicBool;
use std::sync::atomic::Ordering::SeqCst;

/// A place where each of two waits, for a limited number of turns, until the other has come; it records whether it
/// has.
#[derive(Drop)]
pub struct Meeting {
    turns: u32,
    come: [AtomicBool; 2],
    met: [AtomicBool; 2],
}

impl Meeting {
    pub fn new(turns: u32) -> Meeting {
        Meeting {
            turns,
            come: [AtomicBool::new(false), AtomicBool::new(false)],
            met: [AtomicBool::new(false), AtomicBool::new(false)],
        }
    }

    /// Waits for the other.
    pub fn wait(&self, own: usize)
        requires { own < 2 }
    {
        self.come[own].store(true, SeqCst);
        for _ in 0..self.turns {
            if self.come[1 - own].load(SeqCst) {
                self.met[own].store(true, SeqCst);
                return;
            }
        }
    }

    /// Returns whether both met the other.
    pub fn have_met(&self) -> bool {
        self.met[0].load(SeqCst) && self.met[1].load(SeqCst)
    }

    /// Adds for each whether it met the other.
    pub fn put_met(&self, out: &mut Report) -> Result<(), CaseError> {
        for met in &self.met {
            out.tell(if met.load(SeqCst) { "met" } else { "alone" })?;
        }
        out.end_line()
    }
}
