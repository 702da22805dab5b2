//! Hears a staff column by column.

ghost use Rattle.std.specs.Prelude.{◌≡◌, ◌++◌, OnOk};
ghost use Rattle.ps_heard.specs.Ear.{hear_one, hear_from, column_opened, column_closed, hear_column, hear_columns};
ghost use Rattle.ps_heard.specs.Ear.{fresh};

use crate::column::{Heard, HeardColumn, HeardGlyph, Listener, Role};
use crate::heads::{head_of_glyph, heard_of_glyph};
use crate::keys::{clef_after, entries, gives_key};
use mus_units::{Clef, Key, Memory, Row, Spread};
use std::alloc::Global;

/// Hears a mark of a column.
fn hear_one(
    alloc: Global,
    spread: Spread,
    col: &HeardColumn,
    ear: &mut Listener,
    note: HeardGlyph,
) -> Result<(), Memory>
    ensures { OnOk result (ear.new ≡ hear_one spread col.now ear.old note) }
{
    match note.role {
        Role::Bar => {
            ear.said = Row::new(alloc);
            Ok(())
        }
        Role::Grace => ear
            .said
            .push(head_of_glyph(ear.clef, note.dy, col.notes.as_slice())),
        Role::Head => {
            let heard = heard_of_glyph(spread, col, ear, note.dy);
            ear.said
                .push(head_of_glyph(ear.clef, note.dy, col.notes.as_slice()))?;
            ear.here.push(heard)
        }
        Role::Clef(_) | Role::Sign(_) | Role::Quiet => Ok(()),
    }
}

fn hear_all(
    alloc: Global,
    spread: Spread,
    col: &HeardColumn,
    ear: &mut Listener,
) -> Result<(), Memory>
    ensures { OnOk result (ear.new ≡ hear_from spread col.now ear.old col.now.notes) }
{
    for note in col.notes.as_slice() {
        hear_one(alloc, spread, col, ear, *note)?;
    }
    Ok(())
}

/// Applies the clef and the key of a column.
fn open_column(alloc: Global, ear: &mut Listener, col: &HeardColumn) -> Result<(), Memory>
    ensures { OnOk result (ear.new ≡ column_opened ear.old col.now) }
{
    let notes = col.notes.as_slice();
    ear.clef = clef_after(ear.clef, notes);
    if gives_key(col.leads, notes) {
        ear.key = Key {
            signs: entries(alloc, ear.clef, notes)?,
        };
    }
    Ok(())
}

fn put_heads(out: &mut Row<Heard>, heads: &[Heard]) -> Result<(), Memory>
    ensures { OnOk result (out.new ≡ out.old ++ heads.now) }
{
    for head in heads {
        out.push(*head)?;
    }
    Ok(())
}

/// Appends the heads of a column to those before it.
fn close_column(alloc: Global, ear: &mut Listener) -> Result<(), Memory>
    ensures { OnOk result (ear.new ≡ column_closed ear.old) }
{
    put_heads(&mut ear.heard, ear.here.as_slice())?;
    if !ear.here.is_empty() {
        ear.before = Row::from_slice(alloc, ear.here.as_slice())?;
    }
    ear.here = Row::new(alloc);
    Ok(())
}

/// Hears a column of a staff.
#[tactic(auto, unfolding(crate::specs::Ear::hear_column))]
fn hear_column(
    alloc: Global,
    spread: Spread,
    ear: &mut Listener,
    col: &HeardColumn,
) -> Result<(), Memory>
    ensures { OnOk result (ear.new ≡ hear_column spread ear.old col.now) }
{
    open_column(alloc, ear, col)?;
    hear_all(alloc, spread, col, ear)?;
    close_column(alloc, ear)
}

/// Hears the columns of a staff, from the left.
pub fn hear_columns(
    alloc: Global,
    spread: Spread,
    ear: &mut Listener,
    columns: &[HeardColumn],
) -> Result<(), Memory>
    ensures { OnOk result (ear.new ≡ hear_columns spread ear.old columns.now) }
{
    for col in columns {
        hear_column(alloc, spread, ear, col)?;
    }
    Ok(())
}

/// Returns what a listener knows at first.
pub fn fresh(alloc: Global) -> Listener
    ensures { result ≡ fresh }
{
    Listener {
        clef: Clef::Treble,
        key: Key {
            signs: Row::new(alloc),
        },
        said: Row::new(alloc),
        before: Row::new(alloc),
        here: Row::new(alloc),
        heard: Row::new(alloc),
    }
}
