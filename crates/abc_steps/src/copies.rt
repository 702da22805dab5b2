ghost use Rattle.std.specs.Prelude.{◌≡◌, ◌++◌, OnOk, IfOk};

use abc_music::GraceChord;
use mus_units::{Memory, Row};
use std::alloc::Global;

fn copy_chord(alloc: Global, chord: &GraceChord) -> Result<GraceChord, Memory>
    ensures { IfOk result (λ c. c ≡ chord.now) }
{
    Ok(GraceChord {
        heads: chord.heads.copy(alloc)?,
    })
}

/// Adds copies of grace notes after others.
pub fn put_chords(
    alloc: Global,
    out: &mut Row<GraceChord>,
    chords: &[GraceChord],
) -> Result<(), Memory>
    ensures { OnOk result (out.new ≡ out.old ++ chords.now) }
{
    for chord in chords {
        out.push(copy_chord(alloc, chord)?)?;
    }
    Ok(())
}
