ghost use Rattle.std.specs.Prelude.{◌≡◌, All, IfOk, OnOk, ◌++◌};
ghost use Rattle.mus_score.specs.{Good.IsGoodBody, GoodScore.events_of};

use crate::score::{Flat, Measure};
use crate::times::flatten;
use mus_units::{Memory, Row};
use std::alloc::Global;

/// Returns the events of measures, in order.
pub fn events(alloc: Global, measures: &[Measure]) -> Result<Row<Flat<'_>>, Memory>
    requires { All (λ m. IsGoodBody m.body) measures.now }
    ensures { IfOk result (λ r. r ≡ events_of measures.now) }
{
    let mut events = Row::new(alloc);
    for m in measures {
        let flats = flatten(alloc, m.body.as_slice())?;
        put_all(&mut events, flats)?;
    }
    Ok(events)
}

fn put_all<'a>(events: &mut Row<Flat<'a>>, flats: Row<Flat<'a>>) -> Result<(), Memory>
    ensures { OnOk result (events.new ≡ events.old ++ flats.entry) }
{
    for f in flats.items {
        events.push(f)?;
    }
    Ok(())
}
