ghost use Rattle.std.specs.Prelude.{◌≡◌, ◌≤◌, ◌<◌, ◌^◌, ◌*◌, ◌+◌, ◌-◌, ℕ, ◌/◌, List, ◌++◌, ◌∷◌, [], IfOk, OnOk, OnErr};
ghost use Rattle.std.specs.Prelude.{OnSome, MatchOption, IsSome, Some, None};
ghost use Rattle.mus_units.specs.declared.value.Value.{Value};
ghost use Rattle.mus_units.specs.Parts.{IsValueOf, IsPartsOf, IsLongestValue, base_units, units_of, parts_list};
ghost use Rattle.mus_units.specs.Value.{with_dots};

use crate::text::{Memory, Row};
use crate::value::{Base, Value};
use std::alloc::Global;

/// Returns the 512ths of a whole note in a base.
fn units_of_base(base: Base) -> u64
    ensures value { result ≡ base_units base }
    ensures high { result ≤ 1024 }
    ensures low { 8 ≤ result }
{
    match base {
        Base::Breve => 1024,
        Base::Whole => 512,
        Base::Half => 256,
        Base::Quarter => 128,
        Base::Eighth => 64,
        Base::N16 => 32,
        Base::N32 => 16,
        Base::N64 => 8,
    }
}

/// Returns the 512ths of a whole note in a value.
fn units(v: Value) -> u64
    requires { v.dots ≤ 3 }
    ensures value { result ≡ units_of v }
    ensures low { 8 ≤ result }
{
    let base = units_of_base(v.base);
    match v.dots {
        0 => base,
        1 => base + base / 2,
        2 => base + base / 2 + base / 4,
        _ => base + base / 2 + base / 4 + base / 8,
    }
}

/// Returns the longest base that isn't longer than the given number of 512ths.
fn base_within(left: u64) -> Option<Base>
    ensures { MatchOption result (left < 8)
        (λ b. (base_units b ≤ left) × (left < 2048 → left < 2 * base_units b) × (2048 ≤ left → base_units b ≡ 1024)) }
{
    if left < 8 {
        None
    } else if left < 16 {
        Some(Base::N64)
    } else if left < 32 {
        Some(Base::N32)
    } else if left < 64 {
        Some(Base::N16)
    } else if left < 128 {
        Some(Base::Eighth)
    } else if left < 256 {
        Some(Base::Quarter)
    } else if left < 512 {
        Some(Base::Half)
    } else if left < 1024 {
        Some(Base::Whole)
    } else {
        Some(Base::Breve)
    }
}

/// Returns how many dots fit after a base within the given number of 512ths.
fn dots_within(base: u64, left: u64) -> u8
    requires high { base ≤ 1024 }
    requires fits { base ≤ left }
    ensures few { result ≤ 3 }
    ensures within { with_dots result base ≤ left }
    ensures longest { (e : ℕ) → e ≤ 3 → with_dots e base ≤ left → with_dots e base ≤ with_dots result base }
{
    let half = base / 2;
    let quarter = half / 2;
    let eighth = quarter / 2;
    if left < base + half {
        return 0;
    }
    if left < base + half + quarter {
        return 1;
    }
    if left < base + half + quarter + eighth {
        return 2;
    }
    3
}

/// Returns the longest value that isn't longer than the given number of 512ths.
fn longest(left: u64) -> Option<Value>
    ensures { MatchOption result (left < 8) (λ v. IsLongestValue left v) }
{
    let base = base_within(left)?;
    let dots = dots_within(units_of_base(base), left);
    Some(Value { base, dots })
}

/// Returns the 512ths of a length, if it is a whole number of them.
fn whole_units(num: u64, den: u64) -> Option<u128>
    requires above { 1 ≤ den }
    requires high { den ≤ 2 ^ 56 }
    requires near { num ≤ 2 ^ 56 }
    ensures is { MatchOption result ((left : ℕ) → left * den ≡ 512 * num → ⊥) (λ left. left * den ≡ 512 * num) }
    ensures only { OnSome result ((left other : ℕ) → left * den ≡ 512 * num → other * den ≡ 512 * num → left ≡ other) }
{
    let all = 512 * u128::from(num);
    let den = u128::from(den);
    if all % den == 0 {
        Some(all / den)
    } else {
        None
    }
}

/// Returns the value whose length is `num / den` of a whole note. `None` exactly when no value has that length. Takes
/// no memory.
#[inline(always)]
pub fn value_of(num: u64, den: u64) -> Option<Value>
    requires some { 1 ≤ num }
    requires above { 1 ≤ den }
    requires near { num ≤ 2 ^ 56 }
    requires high { den ≤ 2 ^ 56 }
    ensures { MatchOption result ((v : Value) → IsValueOf num den v → ⊥) (λ v. IsValueOf num den v) }
{
    let left = whole_units(num, den)?;
    if left >= 2048 {
        return None;
    }
    let left = left as u64;
    let Some(v) = longest(left) else {
        return None;
    };
    if units(v) == left { Some(v) } else { None }
}

/// Returns the parts of the length `num / den` of a whole note: one to eight values with that sum, each the longest
/// that isn't longer than what the ones before it leave. `None` exactly when there is no such list.
pub fn parts_of(alloc: Global, num: u64, den: u64) -> Result<Option<Row<Value>>, Memory>
    requires some { 1 ≤ num }
    requires above { 1 ≤ den }
    requires near { num ≤ 2 ^ 56 }
    requires high { den ≤ 2 ^ 56 }
    ensures parts { IfOk result
        (λ r. MatchOption r ((vs : List Value) → IsPartsOf num den vs → ⊥) (λ vs. IsPartsOf num den vs)) }
    ensures list { IfOk result (λ r. r ≡ parts_list num den) }
{
    let mut parts = Row::new(alloc);
    let Some(all) = whole_units(num, den) else {
        return Ok(None);
    };
    if all >= 16384 {
        return Ok(None);
    }
    let mut left = all as u64;
    for i in 0_usize..8 {
        if left == 0 {
            return Ok(Some(parts));
        }
        let Some(v) = longest(left) else {
            return Ok(None);
        };
        left -= units(v);
        parts.push(v)?;
    }
    if left == 0 { Ok(Some(parts)) } else { Ok(None) }
}
