ghost use Rattle.std.specs.Prelude.{◌≤◌, ◌^◌, IfOk};

use case_texts::{CaseError, Mistake, Report, number_of, put_value};
use mus_units::{Frac, parts_of, ticks_of, value_of};

/// The greatest number in a length that is asked for.
const MOST: u64 = 1 << 56;

/// Returns the number that a part of a fraction says.
fn part_of(text: &str) -> Result<u64, CaseError>
    ensures some { IfOk result (λ part. 1 ≤ part) }
    ensures most { IfOk result (λ part. part ≤ 2 ^ 56) }
{
    let part = number_of::<u64>(text)?;
    if part < 1 || part > MOST {
        return Err(CaseError::Wrong(Mistake::OutOfRange));
    }
    Ok(part)
}

/// Returns the fraction that a text such as `3/8` says.
fn fraction_of(text: &str) -> Result<Frac, CaseError>
    ensures some { IfOk result (λ frac. 1 ≤ frac.num) }
    ensures near { IfOk result (λ frac. frac.num ≤ 2 ^ 56) }
    ensures above { IfOk result (λ frac. 1 ≤ frac.den) }
    ensures high { IfOk result (λ frac. frac.den ≤ 2 ^ 56) }
{
    let (num, den) = text.split_once("/").unwrap_or((text, "1"));
    Ok(Frac {
        num: part_of(num)?,
        den: part_of(den)?,
    })
}

/// Adds the value that has a length, or `none`.
pub(crate) fn put_value_of(out: &mut Report, text: &str) -> Result<(), CaseError> {
    let length = fraction_of(text)?;
    match value_of(length.num, length.den) {
        Some(value) => put_value(out, value),
        None => out.append(b"none"),
    }
}

/// Adds the ticks of the value that has a length, or `none`.
pub(crate) fn put_ticks(out: &mut Report, text: &str) -> Result<(), CaseError> {
    let length = fraction_of(text)?;
    match value_of(length.num, length.den) {
        Some(value) => out.show(ticks_of(value)),
        None => out.append(b"none"),
    }
}

/// Adds the parts of a length, or `none`.
pub(crate) fn put_parts(out: &mut Report, text: &str) -> Result<(), CaseError> {
    let length = fraction_of(text)?;
    let Some(parts) = parts_of(out.alloc, length.num, length.den)? else {
        return out.append(b"none");
    };
    for part in parts.as_slice() {
        out.next(b"")?;
        put_value(out, *part)?;
    }
    Ok(())
}
