ghost use Rattle.std.specs.Prelude.{◌≡◌, ◌++◌, ◌-ℤ◌, [], true, length, IfOk, OnOk};
ghost use Rattle.std.specs.List.Sorted.{IsStrictlySortedBy};
ghost use Rattle.std.specs.Ordering.{int_cmp};
ghost use Rattle.ps_heard.specs.Columns.{heard_columns_from, bulges_as_tie};
ghost use Rattle.ps_heard.specs.Filling.{at_place, with_page_mark, with_note, with_tie_at};

use crate::anchors::place_of;
use crate::column::{HeardColumn, HeardGlyph, Role};
use crate::roles::role_of;
use mus_units::distances::TIE_GAP;
use mus_units::{Memory, Row};
use ps_text::PageMark;
use std::alloc::Global;

impl HeardColumn {
    /// Adds the meaning of a glyph.
    fn note(&mut self, role: Role, dy: i32) -> Result<(), Memory>
        ensures { OnOk result (self.new ≡ with_note role dy self.old) }
    {
        match role {
            Role::Quiet => Ok(()),
            _ => self.notes.push(HeardGlyph { role, dy }),
        }
    }

    /// Adds the height of a head at which a tie ends.
    fn tie(&mut self, dy: i64) -> Result<(), Memory>
        ensures { OnOk result (self.new ≡ with_tie_at dy self.old) }
    {
        self.ties.push(dy)
    }
}

/// Returns whether an arc with this bulge is a tie.
fn bulges_as_tie(bulge: i32) -> bool
    ensures { result ≡ bulges_as_tie bulge }
{
    bulge == TIE_GAP || bulge == -TIE_GAP
}

/// Adds a glyph to the column at its anchor.
fn put_note(
    columns: &mut Row<HeardColumn>,
    places: &[i64],
    x: i64,
    role: Role,
    dy: i32,
) -> Result<(), Memory>
    requires rise { IsStrictlySortedBy int_cmp places.now }
    requires all { length columns.old ≡ length places.now }
    ensures { OnOk result (columns.new ≡ at_place x (with_note role dy) places.now columns.old) }
{
    match place_of(places, x) {
        Some(place) => columns.items[place].note(role, dy),
        None => Ok(()),
    }
}

/// Adds a tie to the column at which it ends, by the height of its head.
fn put_tie(columns: &mut Row<HeardColumn>, places: &[i64], x: i64, dy: i64) -> Result<(), Memory>
    requires rise { IsStrictlySortedBy int_cmp places.now }
    requires all { length columns.old ≡ length places.now }
    ensures { OnOk result (columns.new ≡ at_place x (with_tie_at dy) places.now columns.old) }
{
    match place_of(places, x) {
        Some(place) => columns.items[place].tie(dy),
        None => Ok(()),
    }
}

/// Adds what a mark means.
#[tactic(auto, using(crate::proofs::FillingLaws::slur_known, crate::proofs::FillingLaws::words_known, //
crate::proofs::FillingLaws::stem_known, crate::proofs::FillingLaws::beam_known))]
fn put_mark(columns: &mut Row<HeardColumn>, places: &[i64], mark: &PageMark) -> Result<(), Memory>
    requires rise { IsStrictlySortedBy int_cmp places.now }
    requires all { length columns.old ≡ length places.now }
    ensures { OnOk result (columns.new ≡ with_page_mark mark.now places.now columns.old) }
{
    match mark {
        PageMark::Glyph { glyph, x, dy, .. } => {
            put_note(columns, places, *x, role_of(*glyph, *dy), *dy)
        }
        PageMark::Arc { x2, to, bulge, .. } => {
            if bulges_as_tie(*bulge) {
                put_tie(columns, places, *x2, height_of_end(*to, *bulge))
            } else {
                Ok(())
            }
        }
        PageMark::Words { .. } => Ok(()),
        PageMark::Stem { .. } => Ok(()),
        PageMark::Beam { .. } => Ok(()),
    }
}

/// Returns the height of the head at which a tie ends: the tie ends its bulge away from the head.
fn height_of_end(to: i32, bulge: i32) -> i64
    ensures { result ≡ to -ℤ bulge }
{
    i64::from(to) - i64::from(bulge)
}

/// Returns an empty column.
fn empty_column(alloc: Global, leads: bool) -> HeardColumn
    ensures { result ≡ record { leads = leads; notes = []; ties = [] } }
{
    HeardColumn {
        leads,
        notes: Row::new(alloc),
        ties: Row::new(alloc),
    }
}

/// Returns empty columns.
fn empty_columns(alloc: Global, places: &[i64]) -> Result<Row<HeardColumn>, Memory>
    ensures { IfOk result (λ r. r ≡ heard_columns_from true [] places.now) }
{
    let mut out = Row::new(alloc);
    let mut leads = true;
    for _place in places {
        out.push(empty_column(alloc, leads))?;
        leads = false;
    }
    Ok(out)
}

/// Returns the columns of a staff with these marks, at places that rise.
#[tactic(auto, using(crate::proofs::FillingLaws::columns_length))]
pub fn fill(alloc: Global, places: &[i64], marks: &[PageMark]) -> Result<Row<HeardColumn>, Memory>
    requires { IsStrictlySortedBy int_cmp places.now }
    ensures { IfOk result (λ r. r ≡ heard_columns_from true marks.now places.now) }
{
    let mut columns = empty_columns(alloc, places)?;
    for mark in marks {
        put_mark(&mut columns, places, mark)?;
    }
    Ok(columns)
}
