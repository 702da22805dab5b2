ghost use Rattle.std.specs.Prelude.{◌≡◌, ◌≤◌, length, IfOk, map, take, true};
ghost use Rattle.std.specs.List.{list_all};
ghost use Rattle.mus_laid.specs.Printed.{printed_byte, printed_within, printed, is_printable};

use mus_units::{Memory, Text};
use std::alloc::Global;
use std::cmp::min;

#[tactic(auto, unfolding(crate::specs::Printed::printed_byte))]
fn printed_byte(byte: u8) -> u8
    ensures value { result ≡ printed_byte byte }
    ensures printable { is_printable result ≡ true }
{
    match byte {
        b'\t' => b' ',
        0..=31 | 127..=159 => b'?',
        _ => byte,
    }
}

/// Returns the first characters of a text as printed: tabs as spaces, and control characters as question marks.
pub fn printed_within(alloc: Global, most: usize, text: &[u8]) -> Result<Text, Memory>
    ensures value { IfOk result (λ t. t ≡ printed_within most text.now) }
    ensures printable { IfOk result (λ t. list_all is_printable t ≡ true) }
    ensures within { IfOk result (λ t. length t ≤ most) }
{
    let (prefix, _) = text.split_at(min(most, text.len()));
    let mut out = Text::new(alloc);
    for byte in prefix {
        out.push(printed_byte(*byte))?;
    }
    Ok(out)
}

/// Returns at most 60 characters of a text as printed.
pub fn printed(alloc: Global, text: &[u8]) -> Result<Text, Memory>
    ensures value { IfOk result (λ t. t ≡ printed text.now) }
    ensures printable { IfOk result (λ t. list_all is_printable t ≡ true) }
    ensures within { IfOk result (λ t. length t ≤ 60) }
{
    printed_within(alloc, 60, text)
}
