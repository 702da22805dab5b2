ghost use Rattle.std.specs.Prelude.{◌≡◌, ℕ, ℤ, ◌<◌, ◌≤◌, ◌++◌, List, Some, None, IfOk, IfSome, IsNone, IsSomeAnd};
ghost use Rattle.std.specs.Prelude.{length, true};
ghost use Rattle.std.specs.Fmt.{signed_decimal};
ghost use Rattle.std.specs.List.{AllByRecursion, prefix_len, list_all};
ghost use Rattle.glyph_paths.specs.Procedure.{numbers};
ghost use Rattle.ps_text.specs.Range.{IsNumber};
ghost use Rattle.ps_text.specs.Scanning.{is_field_byte, ReadsNumber};

use mus_units::{Memory, Row};
use std::alloc::Global;

/// Returns the number of bytes before the first space.
fn field_len(bytes: &[u8]) -> usize
    ensures value { result ≡ prefix_len is_field_byte bytes.now }
    ensures bound { result ≤ length bytes.now }
{
    bytes.iter().take_while(|b| **b != b' ').count()
}

/// Returns the number that these bytes spell, possibly in another way than a page does.
fn parsed(bytes: &[u8]) -> Option<i64>
    ensures { (z : ℤ) → IsNumber z → bytes.now ≡ signed_decimal z → result ≡ Some z }
{
    let Ok(text) = std::str::from_utf8(bytes) else {
        return None;
    };
    match text.parse::<i64>() {
        Ok(z) => Some(z),
        Err(_) => None,
    }
}

/// Returns the number before the first space, and the rest after that space.
pub fn take_number(bytes: &[u8]) -> Option<(i64, &[u8])>
    ensures shorter { IfSome result (λ r. length r.1.now < length bytes.now) }
    ensures reads { (z : ℤ) (rest : List ℕ)
        → ReadsNumber z rest bytes.now → IsSomeAnd result (λ r. (r.0 ≡ z) × (r.1.now ≡ rest)) }
    ensures last { list_all is_field_byte bytes.now ≡ true → IsNone result }
{
    let (prefix, rest) = bytes.split_at(field_len(bytes));
    match rest {
        [] => None,
        [_, after @ ..] => {
            let z = parsed(prefix)?;
            Some((z, after))
        }
    }
}

/// Returns the numbers at the start of these bytes, each followed by a space, and the rest.
pub fn take_numbers(alloc: Global, bytes: &[u8]) -> Result<(Row<i64>, &[u8]), Memory>
    ensures { IfOk result (λ r.
        (zs : List ℤ) (name : List ℕ)
        → AllByRecursion IsNumber zs → list_all is_field_byte name ≡ true → bytes.now ≡ numbers zs ++ name
        → (r.0 ≡ zs) × (r.1.now ≡ name)) }
{
    let mut zs = Row::new(alloc);
    let mut rest = bytes;
    while let Some((z, after)) = take_number(rest) {
        zs.push(z)?;
        rest = after;
    }
    Ok((zs, rest))
}
