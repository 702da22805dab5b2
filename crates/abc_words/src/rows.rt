ghost use Rattle.std.specs.Prelude.{◌≡◌, ◌<◌, ◌≤◌, ◌+◌, ◌^◌, ◌∷◌, [], List, ℕ, reverse, length};
ghost use Rattle.abc_steps.specs.declared.step.BodyItem.{BodyItem};
ghost use Rattle.abc_words.specs.Rows.{after_end, after_step, place_at};

use abc_items::voices::claims;
use abc_steps::BodyItem;
use mus_units::bytes::is_same;

/// The state of a voice at a place among the items of a body: the row of the place; whether the voice is current;
/// whether a step before the place on its line claims any voice, and whether one claims this voice; and the last row
/// of the voice before it.
#[derive(Clone, Copy, PartialEq, Eq)]
pub struct RowState {
    pub row: usize,
    pub current: bool,
    pub claimed: bool,
    pub own: bool,
    pub last: Option<usize>,
}

/// Returns the state before all items.
pub(crate) fn first_place(id: &[u8], unnamed: &[u8]) -> RowState
    ensures { result ≡ place_at id.now unnamed.now [] }
{
    RowState {
        row: 0,
        current: is_same(id, unnamed),
        claimed: false,
        own: false,
        last: None,
    }
}

/// Returns the state after a step.
fn after_step(place: RowState, claims: bool) -> RowState
    ensures { result ≡ after_step place claims }
{
    RowState {
        claimed: claims || place.claimed,
        own: (claims && place.current) || place.own,
        ..place
    }
}

/// Returns the state after the end of a music line.
fn after_end(place: RowState, joined: bool) -> RowState
    requires { place.row + 1 < 2 ^ 64 }
    ensures { result ≡ after_end place joined }
{
    let line_of = place.own || (!place.claimed && place.current);
    RowState {
        row: if joined { place.row } else { place.row + 1 },
        current: place.current,
        claimed: false,
        own: false,
        last: if line_of { Some(place.row) } else { place.last },
    }
}

/// Returns the state after an item.
pub(crate) fn state_after(id: &[u8], place: RowState, item: &BodyItem) -> RowState
    requires { place.row + 1 < 2 ^ 64 }
    ensures place { (unnamed : List ℕ) (before : List BodyItem)
        → place ≡ place_at id.now unnamed before → result ≡ place_at id.now unnamed (item.now ∷ before) }
    ensures row { result.row ≤ place.row + 1 }
{
    match item {
        BodyItem::Step(stood) => after_step(place, claims(&stood.step)),
        BodyItem::LineEnd { joined, .. } => after_end(place, *joined),
        BodyItem::Voice { def, .. } => RowState {
            current: is_same(id, def.id.as_slice()),
            ..place
        },
        BodyItem::Words { .. } => place,
    }
}
