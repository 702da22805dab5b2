//! Columns whose springs stop at a length. They meet the laws of `Spring`, and aren't linear.

ghost use Rattle.std.specs.Prelude.{min};

use lay_reaches::Column;
use lay_springs::{ReachView, Spaced, Spring};

/// A column whose spring grows to a length, in u, and no further.
#[derive(Drop)]
pub(crate) struct StoppedColumn {
    pub(crate) column: Column,
    pub(crate) longest: u32,
}

impl Spaced for StoppedColumn {
    ghost use Rattle.lay_springs.specs.ReachView.{reach_in, reach_in_near};

    ghost reach_of = { λ s lane. reach_in s.column.reaches lane };

    fn stands(&self) -> ReachView<'_> {
        self.column.stands()
    }

    ghost is_near = { λ s lane l. reach_in_near s.column.reaches lane };
}

impl Spring for StoppedColumn {
    ghost use Rattle.lay_reaches.specs.Column.{spring_length};
    ghost use Rattle.layout_tests.specs.StoppedLength.{stopped_rises, stopped_short, stopped_slack};

    ghost length_of = { λ s f. min (spring_length s.column.natural f) s.longest };

    fn length(&self, force: u16) -> u32 {
        self.column.length(force).min(self.longest)
    }

    ghost rises = { λ s f g l m. stopped_rises s.column.natural s.longest f g l };

    ghost is_short = { λ s f l. stopped_short s.column.natural s.longest f l };

    ghost is_slack = { λ s. stopped_slack s.column.natural s.longest };
}
