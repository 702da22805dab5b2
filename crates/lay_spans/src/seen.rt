ghost use Rattle.std.{specs.Prelude.{◌≡◌, ◌*◌, ◌/◌}, proofs.Props.{props}};
ghost use Rattle.lay_springs.specs.ReachView.{TellsReach};

use lay_springs::{LinearSpring, ReachView, Spaced, Spring};

/// A borrowed column, with the reaches and the spring of the column itself. It has its view of
/// lanes and the natural length of its spring at hand.
#[derive(Drop)]
pub struct BorrowedColumn<'a, C: Spaced + LinearSpring> {
    pub column: &'a C,
    stands: ReachView<'a>,
    natural: u32,
    pub ghost known: { TellsReach stands (C.reach_of column.now) } by { Prim.hlevel props },
    pub ghost sprung: { natural ≡ C.length_of column.now 256 },
}

impl<'a, C: Spaced + LinearSpring> BorrowedColumn<'a, C> {
    /// Returns a column as borrowed.
    pub(crate) fn of(column: &'a C) -> BorrowedColumn<'a, C>
        ensures { result.column.now ≡ column.now }
    {
        BorrowedColumn {
            column,
            stands: column.stands(),
            natural: column.length(256),
        }
    }
}

impl<'a, C: Spaced + LinearSpring> Spaced for BorrowedColumn<'a, C> {
    ghost reach_of = { λ s lane. C.reach_of s.column.now lane };

    fn stands(&self) -> ReachView<'_> {
        self.stands
    }

    ghost is_near = { λ s lane l. C.is_near s.column.now lane l };
}

impl<'a, C: Spaced + LinearSpring> Spring for BorrowedColumn<'a, C> {
    ghost length_of = { λ s force. C.length_of s.column.now force };

    fn length(&self, force: u16) -> u32 {
        self.natural * u32::from(force) / 256
    }

    ghost rises = { λ s f g l m. C.rises s.column.now f g l m };

    ghost is_short = { λ s force l. C.is_short s.column.now force l };

    ghost is_slack = { λ s. C.is_slack s.column.now };
}

impl<'a, C: Spaced + LinearSpring> LinearSpring for BorrowedColumn<'a, C> {
    ghost scales = { λ s force. C.scales s.column.now force };
}
