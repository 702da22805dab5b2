ghost use Rattle.std.specs.Prelude.{◌≡◌, IfOk};
ghost use Rattle.mus_stems.specs.Stills.{flags_of, is_short, still_of, stills, clefs_from, CanDrawEvent, AllCanStand};

use crate::heads::{HeadPosition, stand_at, stands};
use mus_score::Flat;
use mus_units::{Base, Clef, Few, Memory, Row};
use std::alloc::Global;

/// What a stem plan needs of an event: its id, its value, whether it is separated from the event before it, and where
/// its heads are in its clef.
#[derive(Drop)]
pub struct StemInput {
    pub id: u32,
    pub base: Base,
    pub dots: u8,
    pub parted: bool,
    pub stands: Few<HeadPosition>,
}

/// Returns how many flags a note of a base has alone, and how many a rest shows.
pub fn flags_for(base: Base) -> u8
    ensures { result ≡ flags_of base }
{
    match base {
        Base::Breve | Base::Whole | Base::Half | Base::Quarter => 0,
        Base::Eighth => 1,
        Base::N16 => 2,
        Base::N32 => 3,
        Base::N64 => 4,
    }
}

/// Returns whether notes of a base have a stem.
pub fn is_short_base(base: Base) -> bool
    ensures { result ≡ is_short base }
{
    match base {
        Base::Breve | Base::Whole => false,
        _ => true,
    }
}

/// Returns the stem input of one event.
#[tactic(auto, unfolding(crate::specs::Stills::still_of))]
fn take_still(alloc: Global, flat: &Flat<'_>, clef: Clef) -> Result<StemInput, Memory>
    requires { CanDrawEvent flat.now clef }
    ensures { IfOk result (λ s. s ≡ still_of flat.now clef) }
{
    let event = flat.event();
    Ok(StemInput {
        id: event.id,
        base: event.value.base,
        dots: event.value.dots,
        parted: event.parted,
        stands: match event.heads.as_slice() {
            [head] => Few::one(stand_at(clef, *head)),
            heads => stands(alloc, clef, heads)?,
        },
    })
}

/// Returns the stem inputs of events, each in its own clef; `first` is the clef before the first event.
pub fn stills_for(alloc: Global, events: &[Flat<'_>], first: Clef) -> Result<Row<StemInput>, Memory>
    requires { AllCanStand events.now (clefs_from first events.now) }
    ensures { IfOk result (λ s. s ≡ stills events.now (clefs_from first events.now)) }
{
    let mut out = Row::with_room(alloc, events.len())?;
    let mut clef = first;
    for flat in events {
        clef = flat.event().changes.clef.unwrap_or(clef);
        out.push(take_still(alloc, flat, clef)?)?;
    }
    Ok(out)
}
