ghost use Rattle.std.specs.Prelude.{◌≡◌, All, length, map, IfOk};
ghost use Rattle.lay_reaches.specs.Reaches.{stands_always};
ghost use Rattle.lay_reaches.specs.Columns.{columns_of, CoverMarks, IsSmall, IsUncut, StandsWhereDue};
ghost use Rattle.lay_reaches.specs.Lanes.{gaps_of};
ghost use Rattle.lay_reaches.specs.Widened.{HaveGoodMarks, bare_columns};

use crate::column::Column;
use crate::lanes::lanes_of;
use crate::reaches::widen_by_staves;
use crate::springs::natural_of;
use crate::stands::Reaches;
use mus_laid::{StaffMarks, SystemMarks};
use mus_onsets::{Class, ColumnKey, Timeline};
use mus_units::{Memory, Row};
use std::alloc::Global;

/// Returns whether a column is in each lane, whatever its marks are.
fn stands_always(class: Class) -> bool
    ensures { result ≡ stands_always class }
{
    matches!(class, Class::Head | Class::First | Class::Bar)
}

/// Returns the columns before any mark, with all their lanes.
fn bare_columns(
    alloc: Global,
    keys: &[ColumnKey],
    lengths: &[u64],
    lanes: usize,
) -> Result<Row<Column>, Memory>
    ensures { IfOk result (λ r. r ≡ bare_columns keys.now lengths.now lanes) }
{
    let mut out = Row::with_room(alloc, keys.len())?;
    for (rank, key) in keys.iter().enumerate() {
        out.push(Column {
            key: *key,
            reaches: Reaches::bare(alloc, stands_always(key.class), lanes)?,
            natural: natural_of(*key, &keys[rank + 1..], lengths),
        })?;
    }
    Ok(out)
}

/// Returns the columns of these keys, one for each, in their order. A mark belongs to the column of
/// its rank, and to its lane of its staff; one past the last column or lane, or in `Loose`, belongs
/// to none. Lanes are, for each staff from the top: main, above, below and one per verse. `verses`
/// has the number of verses of each staff, `lengths` the length of each measure, in ticks. A column
/// extends in a lane as far as the boxes of its marks there, at least 0 and at most 2^20. A column
/// of a head, of the bar before the first measure or of a bar is in each lane. A note column's
/// natural length is that of the ticks to the next note column of its measure, or else to the
/// measure's end: from 4000 for two whole notes to 500 below a 64th.
pub fn columns_in(
    alloc: Global,
    keys: &[ColumnKey],
    staves: &[StaffMarks],
    lengths: &[u64],
    verses: &[u8],
) -> Result<Row<Column>, Memory>
    requires good { HaveGoodMarks staves.now }
    requires counts { length verses.now ≡ length staves.now }
    ensures value { IfOk result (λ r. r ≡ columns_of keys.now staves.now lengths.now verses.now) }
    ensures keys { IfOk result (λ r. map (λ c. c.key) r ≡ keys.now) }
    ensures lanes { IfOk result (λ r. All (λ c. length c.reaches ≡ length (gaps_of verses.now)) r) }
    ensures covers { IfOk result (CoverMarks staves.now verses.now) }
    ensures stands { IfOk result (All (StandsWhereDue verses.now)) }
    ensures small { IfOk result (All IsSmall) }
    ensures uncut { IfOk result (All IsUncut) }
{
    let mut columns = bare_columns(alloc, keys, lengths, lanes_of(verses)?)?;
    widen_by_staves(alloc, &mut columns.items, staves, verses)?;
    Ok(columns)
}

/// Returns the columns of a system, one for each of its keys. `t` is the timeline of its score, and
/// `verses` has the number of verses of each staff. See `columns_in`.
pub fn columns(
    alloc: Global,
    m: &SystemMarks,
    t: &Timeline,
    verses: &[u8],
) -> Result<Row<Column>, Memory>
    requires good { HaveGoodMarks m.now.staves }
    requires counts { length verses.now ≡ length m.now.staves }
    ensures value { IfOk result (λ r. r ≡ columns_of m.now.keys m.now.staves t.now.lengths verses.now) }
    ensures keys { IfOk result (λ r. map (λ c. c.key) r ≡ m.now.keys) }
    ensures lanes { IfOk result (λ r. All (λ c. length c.reaches ≡ length (gaps_of verses.now)) r) }
    ensures covers { IfOk result (CoverMarks m.now.staves verses.now) }
    ensures stands { IfOk result (All (StandsWhereDue verses.now)) }
    ensures small { IfOk result (All IsSmall) }
    ensures uncut { IfOk result (All IsUncut) }
{
    columns_in(
        alloc,
        m.keys.as_slice(),
        m.staves.as_slice(),
        t.lengths.as_slice(),
        verses,
    )
}
