ghost use Rattle.std.specs.Prelude.{◌≡◌, ◌^◌, ◌<◌, ◌≤◌, ℕ, Bool, Option, false, IfSome};

/// The costs of spans between bars, and which bars are forced. Bars are numbered from 1; 0 is
/// before the first.
pub trait Costs {
    /// The number of bars.
    ghost bars: { Self → ℕ };

    /// The cost of the span from one bar to another, if it fits.
    ghost badness: { Self → ℕ → ℕ → Option ℕ };

    /// Whether each legal breaking has the bar.
    ghost is_forced: { Self → ℕ → Bool };

    /// Returns the cost of the span from bar `a` to bar `b`, or `None` if it doesn't fit.
    fn cost(&self, a: u32, b: u32) -> Option<u64>
        requires rising { a < b }
        requires within { b ≤ bars self.now }
        ensures { result ≡ badness self.now a b };

    /// Returns whether each legal breaking has bar `b`.
    fn forced(&self, b: u32) -> bool
        requires { b ≤ bars self.now }
        ensures { result ≡ is_forced self.now b };

    /// A span that is longer than one that doesn't fit doesn't fit either.
    ghost stays_none: { (s : Self) (a b c : ℕ)
        → a < b → b < c → c ≤ bars s → badness s a b ≡ Option.None → badness s a c ≡ Option.None };

    /// No cost passes 2^40.
    ghost is_small: { (s : Self) (a b : ℕ) → a < b → b ≤ bars s → IfSome (badness s a b) (λ v. v ≤ 2 ^ 40) };

    /// Bar 0 isn't forced.
    ghost begins_free: { (s : Self) → is_forced s 0 ≡ false };
}

/// A span that fits, and its cost.
#[derive(Clone, Copy, PartialEq, Eq)]
pub struct Span {
    /// The bar after which it begins.
    pub a: u32,
    /// The bar with which it ends, after `a`.
    pub b: u32,
    pub badness: u64,
}
