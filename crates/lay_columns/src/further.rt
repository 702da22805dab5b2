ghost use Rattle.std.specs.{Prelude.{◌≡◌, ◌<◌, true, IfOk, length}, List.list_all};
ghost use Rattle.mus_marks.specs.System.{drawn_staves};
ghost use Rattle.lay_columns.specs.Measures.{AreFurther, begins_plain, first_plain, further_of};

use crate::measures::measure_columns;
use lay_reaches::Column;
use mus_drawn::{DrawnEvent, DrawnVoice};
use mus_marks::changes_nothing;
use mus_time::DrawnScore;
use mus_units::{Memory, Row};
use std::alloc::Global;

/// Returns whether the first of some events changes neither clef nor key nor meter.
fn first_plain(events: &[DrawnEvent<'_>]) -> bool
    ensures { result ≡ first_plain events.now }
{
    match events {
        [] => true,
        [first, ..] => changes_nothing(&first.flat.event().changes),
    }
}

/// Returns whether measure `m` of a voice begins without a change.
fn begins_plain(m: u32, v: &DrawnVoice<'_>) -> bool
    ensures { result ≡ begins_plain m v.now }
{
    match v.measures.get(m as usize) {
        Some(d) => first_plain(d.events.as_slice()),
        None => true,
    }
}

fn begin_plain(m: u32, voices: &[DrawnVoice<'_>]) -> bool
    ensures { result ≡ list_all (begins_plain m) voices.now }
{
    voices.iter().all(|v| begins_plain(m, v))
}

/// Returns the columns of measure `m` of a drawn score in a system that begins with the measure
/// before it, as `measure_columns` does. `None` if they are those of a system that begins with `m`
/// itself, without its head.
pub fn further_columns(
    alloc: Global,
    drawn: &DrawnScore<'_>,
    m: u32,
    verses: &[u8],
) -> Result<Option<Row<Column>>, Memory>
    requires within { m < drawn.now.score.now.measures }
    requires counts { length verses.now ≡ length (drawn_staves drawn.now.score.now) }
    ensures { IfOk result (AreFurther drawn.now.score.now drawn.now.times.now m verses.now) }
{
    if m == 0 || begin_plain(m, drawn.voices) {
        return Ok(None);
    }
    Ok(Some(measure_columns(alloc, drawn, m - 1, m, verses)?))
}

/// Returns the columns of measure `m` in a system that begins with the measure before it, if there
/// is one: `own`, as `further_columns` returns them, or those in a system that begins with `m`,
/// without its head.
pub fn further_of<'a>(m: u32, begun: &'a [Column], own: &'a Option<Row<Column>>) -> &'a [Column]
    ensures { result.now ≡ further_of m begun.now own.now }
{
    match own {
        Some(own) => own.as_slice(),
        None => match begun {
            [_, following @ ..] if m > 0 => following,
            _ => begun,
        },
    }
}
