ghost use Rattle.std.specs.Prelude.{◌≡◌, [], drop, slice_index_or};

use mus_drawn::DrawnEvent;
use mus_units::Row;

/// An event whose stem ends at `to`, in u, and not where its plan says.
#[derive(Clone, Copy)]
pub struct EndedEvent<'a> {
    pub event: &'a DrawnEvent<'a>,
    pub to: i32,
}

/// The events of a measure, whose stems end at `ends`; an event without an entry keeps its own end.
#[derive(Clone, Copy)]
pub struct EndedEvents<'a> {
    pub events: &'a [DrawnEvent<'a>],
    pub ends: &'a [i32],
}

/// Returns the end of the i-th event among ends: its own if they have none for it.
#[inline(always)]
pub fn end_at(ends: &[i32], i: usize, e: &DrawnEvent<'_>) -> i32
    ensures { result ≡ slice_index_or ends.now i e.now.plan.to }
{
    ends.get(i).copied().unwrap_or(e.plan.to)
}

/// Returns the ends of the i-th measure: none if there are none for it.
#[inline(always)]
pub fn ends_at(ends: &[Row<i32>], i: usize) -> &[i32]
    ensures { result.now ≡ slice_index_or ends.now i [] }
{
    match ends.get(i) {
        Some(own) => own.as_slice(),
        None => &[],
    }
}
