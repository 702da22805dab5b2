ghost use Rattle.std.specs.Prelude.{◌≡◌, ◌≤◌, length};
ghost use Rattle.mus_stems.specs.{Beams.is_beamed, Beams.is_joined, Runs.run_more};

use crate::stills::{StemInput, flags_for};

/// Returns whether an event can be in a beam: a note with a flag.
#[tactic(auto, unfolding(crate::specs::Beams::is_beamed))]
fn beamed(e: &StemInput) -> bool
    ensures { result ≡ is_beamed e.now }
{
    0 < e.stands.as_slice().len() && 0 < flags_for(e.base)
}

/// Returns whether a beam joins two neighbours.
#[tactic(auto, unfolding(crate::specs::Beams::is_joined))]
fn joined(d: &StemInput, e: &StemInput) -> bool
    ensures { result ≡ is_joined d.now e.now }
{
    beamed(d) && beamed(e) && !e.parted
}

/// Returns how many events follow the first in its run.
pub fn more_in_run(d: &StemInput, es: &[StemInput]) -> usize
    ensures value { result ≡ run_more is_joined d.now es.now }
    ensures bound { result ≤ length es.now }
{
    let mut last = d;
    let mut n = 0;
    for e in es {
        if !joined(last, e) {
            return n;
        }
        last = e;
        n += 1;
    }
    n
}
