ghost use Rattle.std.specs.Prelude.{◌≡◌, ◌++◌, OnOk};
ghost use Rattle.glyph_paths.specs.Procedure.{numbers};

use itoa::Buffer;
use mus_units::{Memory, Text};

/// Adds numbers in decimal, with a space after each.
#[tactic(auto, unfolding(crate::specs::Procedure::numbers))]
pub(crate) fn put_numbers(out: &mut Text, zs: &[i64]) -> Result<(), Memory>
    ensures { OnOk result (out.new ≡ out.old ++ numbers zs.now) }
{
    let mut buffer = Buffer::new();
    for z in zs {
        out.append(buffer.format(*z).as_bytes())?;
        out.push(b' ')?;
    }
    Ok(())
}
