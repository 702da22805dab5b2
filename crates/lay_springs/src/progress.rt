ghost use Rattle.std.specs.Prelude.{◌≤◌, ◌^◌, ℕ, ℤ, Option, List};

/// The tight springs, those that alone hold neighbors apart: the sum of their natural lengths, those
/// at force 256, and their number.
#[derive(Clone, Copy)]
pub(crate) struct TightSprings {
    pub(crate) natural: u64,
    pub(crate) count: u64,
    pub ghost short: { natural ≤ 2 ^ 46 },
    pub ghost few: { count ≤ 2 ^ 26 },
}

/// How many columns, from the first on, are placed, at which force, and their tight springs.
#[derive(Clone, Copy)]
pub struct Progress {
    pub(crate) force: u16,
    pub(crate) count: usize,
    pub(crate) tight: TightSprings,
}

impl Progress {
    ghost use Rattle.lay_springs.specs.{declared.traits.Reach.Reach, Place.HasPlaced};

    /// Returns the progress with no column placed.
    pub fn none() -> Progress
        ensures { (n : ℕ) (reach : ℕ → ℕ → Option Reach) (gaps : List ℕ) (spring : ℕ → ℕ → ℕ) (at front : List ℤ)
            → HasPlaced n reach gaps spring result at front }
    {
        Progress {
            force: 0,
            count: 0,
            tight: TightSprings {
                natural: 0,
                count: 0,
            },
        }
    }
}
