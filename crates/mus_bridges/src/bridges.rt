ghost use Rattle.std.specs.Prelude.{◌≡◌, ◌++◌, length, OnOk};
ghost use Rattle.mus_drawn.specs.Good.{AreGoodMeasures};
ghost use Rattle.mus_bridges.specs.{Bridges.bridges_of, Ends.voice_ended};

use crate::arcs::put_arcs_between;
use crate::beams::{put_beams_between, put_grace_beams_between};
use mus_drawn::DrawnVoice;
use mus_laid::Bridge;
use mus_time::SystemFrame;
use mus_units::{Memory, Row};
use std::alloc::Global;

/// Draws what a voice has between the columns of a system: the beams of its notes, those of its graces, and its arcs.
/// Its stems end at `ends`, measure by measure from that of the system's first on; an event without an entry keeps its
/// own end. The only error is out of memory.
pub fn put_bridges_of(
    alloc: Global,
    out: &mut Row<Bridge>,
    frame: &SystemFrame<'_>,
    ends: &[Row<i32>],
    v: &DrawnVoice<'_>,
) -> Result<(), Memory>
    requires lengths { length v.now.measures ≡ length frame.now.lengths.now }
    requires good { AreGoodMeasures v.now.measures }
    ensures { OnOk result
        (out.new
        ≡ out.old
        ++ bridges_of frame.now.lengths.now frame.now.a frame.now.b (voice_ended frame.now.a ends.now v.now)) }
{
    let all = v.measures.as_slice();
    let measures = &all[frame.a as usize..frame.b as usize];
    put_beams_between(alloc, out, frame.a, ends, measures)?;
    put_grace_beams_between(out, frame.a, measures)?;
    put_arcs_between(out, frame, ends, all, v.arcs.as_slice())
}
