ghost use Rattle.std.specs.Prelude.{◌≡◌, ◌+◌, ◌^◌, ◌<◌, ◌≤◌, ℕ, Option, Some, None, length, slice_index, false, refl};
ghost use Rattle.{lay_breaks.specs.Spans.{listed}, lay_cert.specs.Indexed.{looked_up, small_if_some}};

use lay_breaks::{Costs, Span};
use mus_units::Row;

/// The listed spans as costs, with no forced bar. For each bar, `firsts` has the index in the list at which the spans
/// from it begin.
#[derive(Drop)]
pub struct Listed {
    pub bars: u32,
    pub spans: Row<Span>,
    pub firsts: Vec<usize>,
    ghost one_each: { length firsts.items ≡ bars + 1 },
    ghost inside: { (a : ℕ) → slice_index firsts.items a ≤ length spans },
    ghost agrees: { (a b : ℕ) → a < b → looked_up spans firsts.items a b ≡ listed spans a b },
    ghost stops: { (a b c : ℕ) → a < b → b < c → listed spans a b ≡ None → listed spans a c ≡ None },
    ghost small: { (a b v : ℕ) → listed spans a b ≡ Some v → v ≤ 2 ^ 40 },
}

/// Returns the cost of the span from bar `a` to bar `b`, or `None` if it isn't listed.
pub fn cost_of(spans: &[Span], firsts: &[usize], a: u32, b: u32) -> Option<u64>
    requires rising { a < b }
    requires within { a < length firsts.now }
    requires inside { (a : ℕ) → slice_index firsts.now a ≤ length spans.now }
    ensures { result ≡ looked_up spans.now firsts.now a b }
{
    let span = spans.get(firsts[a as usize] + (b - a - 1) as usize)?;
    if span.a == a && span.b == b {
        Some(span.badness)
    } else {
        None
    }
}

impl Costs for Listed {
    ghost bars = { λ s. s.bars };

    ghost badness = { λ s a b. listed s.spans a b };

    ghost is_forced = { λ s b. false };

    fn cost(&self, a: u32, b: u32) -> Option<u64> {
        cost_of(self.spans.as_slice(), self.firsts.as_slice(), a, b)
    }

    fn forced(&self, _b: u32) -> bool {
        false
    }

    ghost stays_none = { λ s a b c l m h e. s.stops a b c l m e };

    ghost is_small = { λ s a b l h. small_if_some s.spans a b (s.small a b) };

    ghost begins_free = { λ s. refl };
}
