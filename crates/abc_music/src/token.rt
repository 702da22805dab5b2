use abc_lines::Fault;
use abc_pieces::{PieceBefore, Token};
use mus_units::Row;

/// A token and the column of its first byte, counted from 1.
#[derive(Drop)]
pub struct Placed {
    pub token: Token,
    pub column: u32,
}

/// The tokens of a music line up to its first fault, and that fault if it has one.
#[derive(Drop)]
pub struct TokenPrefix {
    pub tokens: Row<Placed>,
    pub fault: Option<Fault>,
}

/// A position in a music line: the rest of its bytes, the effect of the piece before on the next, and how far from
/// the end of the line that piece begins.
#[derive(Clone, Copy)]
pub struct TokenCursor<'a> {
    pub rest: &'a [u8],
    pub before: PieceBefore,
    pub at: usize,
}

/// What follows a part of a music line: more of the line from a cursor on, or no more: its first fault, or else its
/// end.
#[derive(Clone, Copy)]
pub enum LineRest<'a> {
    More(TokenCursor<'a>),
    End(Option<Fault>),
}

/// Some tokens of a music line, and what follows them.
#[derive(Drop)]
pub struct LinePart<'a> {
    pub tokens: Row<Placed>,
    pub following: LineRest<'a>,
}
