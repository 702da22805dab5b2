ghost use Rattle.std.specs.Prelude.{◌≡◌, ◌++◌, ◌∷◌, [], OnOk};
ghost use Rattle.std.specs.List.{find, slice_get};
ghost use Rattle.mus_arcs.specs.Arcs.{has_pitch};
ghost use Rattle.mus_words.specs.Arcs.{arc_end_event, arc_bridge, piece_dy, piece_mark, slur_dy, bulges_up, tie_bulge};
ghost use Rattle.mus_words.specs.Arcs.{dy_if, beside_head, tied_head, tie_dy, slur_mark, tie_mark, arc_mark};

use mus_arcs::{Arc, Piece};
use mus_ink::distances::{CUT_ARC_LINE, SLUR_BULGE, SLUR_GAP, TIE_GAP};
use mus_ink::drawing::cut_dy;
use mus_ink::notes::head_dy;
use mus_ink::top_of;
use mus_laid::{Bridge, BridgeShape};
use mus_onsets::ColumnKey;
use mus_stems::StemPlan;
use mus_units::{Clef, Head, Memory, Pitch, Row};

/// The event at an end of an arc: its clef, its heads, its stem and the dy at which that ends.
#[derive(Clone, Copy)]
pub struct ArcEnd<'a> {
    pub clef: Clef,
    pub heads: &'a [Head],
    pub plan: &'a StemPlan,
    pub to: i32,
}

/// A piece of an arc, and the columns of its ends.
#[derive(Clone, Copy)]
pub struct PlacedPiece {
    pub left: ColumnKey,
    pub right: ColumnKey,
    pub piece: Piece,
}

fn put_arc_between(
    out: &mut Row<Bridge>,
    first: ColumnKey,
    last: ColumnKey,
    from: i32,
    to: i32,
    bulge: i32,
) -> Result<(), Memory>
    ensures { OnOk result (out.new ≡ out.old ++ arc_bridge first last from to bulge ∷ []) }
{
    out.push(Bridge {
        first,
        last,
        span: BridgeShape::Arc { from, to, bulge },
    })
}

/// Returns the dy of an end of a piece, by whether it and the other end are cut and where both would be uncut.
fn piece_dy(is_cut: bool, is_other_cut: bool, own: i32, other: i32) -> i32
    ensures { result ≡ piece_dy is_cut is_other_cut own other }
{
    match (is_cut, is_other_cut) {
        (false, _) => own,
        (true, false) => other,
        (true, true) => CUT_ARC_LINE,
    }
}

/// Draws a piece of an arc that would go from dy `from` to dy `to` if it were uncut.
fn put_piece(
    out: &mut Row<Bridge>,
    placed: PlacedPiece,
    from: i32,
    to: i32,
    bulge: i32,
) -> Result<(), Memory>
    ensures { OnOk result
        (out.new ≡ out.old ++ piece_mark placed.left placed.right placed.piece from to bulge ∷ []) }
{
    let PlacedPiece { left, right, piece } = placed;
    let left_dy = piece_dy(piece.cut_left, piece.cut_right, from, to);
    let right_dy = piece_dy(piece.cut_right, piece.cut_left, to, from);
    put_arc_between(out, left, right, left_dy, right_dy, bulge)
}

/// Returns the dy of a slur at one of its events.
#[tactic(auto, unfolding(crate::specs::Arcs::slur_dy))]
fn slur_dy(end: ArcEnd<'_>) -> i32
    ensures { result ≡ slur_dy (arc_end_event end.entry) }
{
    cut_dy(i64::from(top_of(end.clef, end.heads, end.plan, end.to)) + SLUR_GAP)
}

#[tactic(auto, unfolding(crate::specs::Arcs::slur_mark))]
fn put_slur(
    out: &mut Row<Bridge>,
    placed: PlacedPiece,
    from: ArcEnd<'_>,
    to: ArcEnd<'_>,
) -> Result<(), Memory>
    ensures { OnOk result
        (out.new
        ≡ out.old
        ++ slur_mark placed.left placed.right placed.piece (arc_end_event from.entry) (arc_end_event to.entry) ∷ []) }
{
    put_piece(out, placed, slur_dy(from), slur_dy(to), SLUR_BULGE)
}

/// Returns whether a tie from an event bulges upwards.
fn bulges_up(plan: &StemPlan) -> bool
    ensures { result ≡ bulges_up plan.now }
{
    !(plan.has && plan.up)
}

fn tie_bulge(up: bool) -> i32
    ensures { result ≡ tie_bulge up }
{
    if up { TIE_GAP } else { -TIE_GAP }
}

fn dy_if(clef: Clef, head: Option<Head>) -> i32
    ensures { result ≡ dy_if clef head }
{
    match head {
        None => 0,
        Some(head) => head_dy(clef, head),
    }
}

/// Returns the dy of a tie at a head of this dy.
#[tactic(auto, unfolding(crate::specs::Arcs::beside_head))]
fn beside_head(up: bool, dy: i32) -> i32
    ensures { result ≡ beside_head up dy }
{
    cut_dy(i64::from(dy) + i64::from(tie_bulge(up)))
}

fn tie_dy(up: bool, clef: Clef, head: Option<Head>) -> i32
    ensures { result ≡ tie_dy up clef head }
{
    beside_head(up, dy_if(clef, head))
}

/// Returns whether a head has this letter and octave.
fn has_pitch(pitch: Pitch, head: Head) -> bool
    ensures { result ≡ has_pitch pitch head }
{
    head.pitch.letter == pitch.letter && head.pitch.octave == pitch.octave
}

/// Returns the first head with a letter and octave.
fn head_at(pitch: Pitch, heads: &[Head]) -> Option<Head>
    ensures { result ≡ find (has_pitch pitch) heads.now }
{
    for head in heads {
        if has_pitch(pitch, *head) {
            return Some(*head);
        }
    }
    None
}

/// Returns the head that a head is tied to.
fn tied_head(head: Option<Head>, heads: &[Head]) -> Option<Head>
    ensures { result ≡ tied_head head heads.now }
{
    match head {
        None => None,
        Some(head) => head_at(head.pitch, heads),
    }
}

/// Returns the head of this number, from 0.
fn numbered_head(heads: &[Head], number: u32) -> Option<Head>
    ensures { result ≡ slice_get heads.now number }
{
    heads.get(number as usize).copied()
}

#[tactic(auto, unfolding(crate::specs::Arcs::tie_mark))]
fn put_tie(
    out: &mut Row<Bridge>,
    placed: PlacedPiece,
    number: u32,
    from: ArcEnd<'_>,
    to: ArcEnd<'_>,
) -> Result<(), Memory>
    ensures { OnOk result
        (out.new
        ≡ out.old
        ++ tie_mark placed.left placed.right placed.piece number (arc_end_event from.entry) (arc_end_event to.entry)
        ∷ []) }
{
    let head = numbered_head(from.heads, number);
    let up = bulges_up(from.plan);
    let from_dy = tie_dy(up, from.clef, head);
    let to_dy = tie_dy(up, to.clef, tied_head(head, to.heads));
    put_piece(out, placed, from_dy, to_dy, tie_bulge(up))
}

/// Draws the piece of an arc in a system; `from` and `to` are the arc's first and last event. A slur ends 400 u above
/// the tops of its events and bulges by 700 u. A tie ends 400 u beside its heads and bulges by 400 u, downwards if the
/// stem of its first event goes up. An end that the system cuts is as high as the other end; if both are cut, both are
/// at 2750 u. Each dy is clamped to ±2^30 u. The only error is out of memory.
///
/// A tie ends at the head of its number in its first event, and at the first head of that letter and octave in its
/// last event; a missing head counts as one at 0.
#[tactic(auto, unfolding(crate::specs::Arcs::arc_mark))]
pub fn put_arc(
    out: &mut Row<Bridge>,
    placed: PlacedPiece,
    arc: &Arc,
    from: ArcEnd<'_>,
    to: ArcEnd<'_>,
) -> Result<(), Memory>
    ensures { OnOk result
        (out.new
        ≡ out.old
        ++ arc_mark placed.left placed.right placed.piece arc.now (arc_end_event from.entry) (arc_end_event to.entry)
        ∷ []) }
{
    if arc.tie {
        put_tie(out, placed, arc.head, from, to)
    } else {
        put_slur(out, placed, from, to)
    }
}
