ghost use Rattle.lay_springs.specs.ReachView.{reach_in};

use crate::distances::MOST_LENGTH;
use crate::stands::Reaches;
use lay_springs::{LinearSpring, ReachView, Spaced, Spring};
use mus_onsets::ColumnKey;

/// A column of a system: its key; its reach in each lane, `None` if it isn't in the lane; and the
/// natural length of the spring to the next column, in u, 0 without a spring. Lanes are, for each
/// staff from the top: main, above, below and one per verse. A reach counts as at most 2^20, a
/// natural length as at most 4000.
#[derive(Drop)]
pub struct Column {
    pub key: ColumnKey,
    pub reaches: Reaches,
    pub natural: u32,
}

impl Spaced for Column {
    ghost use Rattle.lay_springs.specs.ReachView.{reach_in_near};

    ghost reach_of = { λ c lane. reach_in c.reaches lane };

    fn stands(&self) -> ReachView<'_> {
        self.reaches.stands()
    }

    ghost is_near = { λ c lane l. reach_in_near c.reaches lane };
}

impl Spring for Column {
    ghost use Rattle.lay_reaches.specs.Column.{spring_length, length_rises, length_short, length_slack};

    ghost length_of = { λ c f. spring_length c.natural f };

    #[tactic(auto, unfolding(crate::specs::Column::spring_length))]
    fn length(&self, force: u16) -> u32 {
        self.natural.min(MOST_LENGTH) * u32::from(force) / 256
    }

    ghost rises = { λ c f g l m. length_rises c.natural f g l };

    ghost is_short = { λ c f l. length_short c.natural f l };

    ghost is_slack = { λ c. length_slack c.natural };
}

impl LinearSpring for Column {
    ghost use Rattle.lay_reaches.specs.Column.{length_scales};

    ghost scales = { λ c f. length_scales c.natural f };
}
