ghost use Rattle.std.specs.Prelude.{◌≡◌, ◌<◌, ◌≤◌, length, false, refl};
ghost use Rattle.lay_breaks.specs.Rows.{AreWithin};
ghost use Rattle.lay_rows.specs.Costs.{cost_in, cost_small, cost_stops, force_in};

use crate::forces::badness;
use lay_breaks::Costs;
use mus_units::Row;

/// The forces of spans, as a row for each bar: those of the spans from it, from the shortest to the longest that fits.
/// A span costs the badness of its force. No bar is forced.
#[derive(Drop)]
pub struct Rows {
    pub rows: Row<Row<u16>>,
    pub ghost few: { length rows ≤ 4000 },
    pub ghost low: { AreWithin 2048 rows },
}

impl Rows {
    /// Returns the force of the span from bar `a` to bar `b`, or `None` if it doesn't fit.
    pub fn force(&self, a: u32, b: u32) -> Option<u16>
        requires { a < b }
        ensures { result ≡ force_in self.now.rows a b }
    {
        let row = self.rows.as_slice().get(a as usize)?;
        row.as_slice().get((b - a - 1) as usize).copied()
    }
}

impl Costs for Rows {
    ghost bars = { λ s. length s.rows };

    ghost badness = { λ s a b. cost_in s.rows a b };

    ghost is_forced = { λ _ _. false };

    fn cost(&self, a: u32, b: u32) -> Option<u64> {
        let force = self.force(a, b)?;
        Some(badness(force, b as usize == self.rows.len()))
    }

    fn forced(&self, _b: u32) -> bool {
        false
    }

    ghost stays_none = { λ s a b c l m h e. cost_stops s.rows a b c l m e };

    ghost is_small = { λ s a b l h. cost_small s.rows s.low a b l };

    ghost begins_free = { λ s. refl };
}
