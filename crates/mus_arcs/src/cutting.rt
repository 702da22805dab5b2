ghost use Rattle.std.specs.Prelude.{◌≡◌, ◌<◌, ◌≤◌, ◌↔◌, IsSome, IsTrue, IfSome};
ghost use Rattle.mus_arcs.specs.Pieces.{HasPiece, Touches, piece_of};

use crate::pairing::Arc;

/// How a system draws an arc: whether it comes from an earlier system, and whether it continues in a later one.
#[derive(Clone, Copy, PartialEq, Eq)]
pub struct Piece {
    pub cut_left: bool,
    pub cut_right: bool,
}

/// Returns the piece of an arc in a system of the measures a to b - 1: `None` exactly when the arc touches none of
/// them. Takes no memory.
#[tactic(auto, unfolding(crate::specs::Pieces::piece_of))]
pub fn pieces(arc: &Arc, a: u32, b: u32) -> Option<Piece>
    ensures value { result ≡ piece_of arc.now a b }
    ensures some { IsSome result ↔ HasPiece arc.now a b }
    ensures cut_left { IfSome result (λ piece. IsTrue piece.cut_left ↔ (arc.now.from < a)) }
    ensures cut_right { IfSome result (λ piece. IsTrue piece.cut_right ↔ (b ≤ arc.now.to)) }
    // if the arc goes forwards and the system has a measure, this says that they share one
    ensures touches { arc.now.from ≤ arc.now.to → a < b → IsSome result ↔ Touches arc.now a b }
{
    if arc.from < b && a <= arc.to {
        Some(Piece {
            cut_left: arc.from < a,
            cut_right: b <= arc.to,
        })
    } else {
        None
    }
}
