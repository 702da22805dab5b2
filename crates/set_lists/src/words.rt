ghost use Rattle.std.specs.Prelude.{◌≡◌, ◌++◌, decimal, OnOk};

use itoa::Buffer;
use mus_units::{Memory, Text};

/// Adds a word and then a number, in decimal.
pub(crate) fn put_word(out: &mut Text, word: &[u8], number: u128) -> Result<(), Memory>
    ensures { OnOk result (out.new ≡ out.old ++ word.now ++ decimal number) }
{
    out.append(word)?;
    out.append(Buffer::new().format(number).as_bytes())
}
