use crate::apart::Boxed;
use abc_notes::{GraceChord, Len};
use mus_units::{Bar, Deco, Head, Row, Text};

/// A chord as written: its heads with their lengths, the decorations inside it, and the length after its bracket.
#[derive(Drop)]
pub struct WrittenChord {
    pub heads: Row<(Head, Len)>,
    pub decos: Row<Deco>,
    pub len: Len,
}

/// The token that a piece of a music line spells. `Cut` is `$`, or `!` where that is a line break. `Says` is the text
/// between quotes. `Inline` has only the letters K, L, M and V. In a `Tuplet` a missing q or r is 0.
#[derive(Drop)]
pub enum Token {
    Note { head: Head, len: Len },
    Rest { seen: bool, len: Len },
    Measures { seen: bool, count: u16 },
    Chord(Boxed<WrittenChord>),
    Grace { slash: bool, body: Row<GraceChord> },
    Tuplet { p: u8, q: u8, r: u8 },
    SlurOn,
    SlurOff,
    Tie,
    Broken { right: bool, dots: u8 },
    Bar(Bar),
    Ending(Text),
    Deco(Deco),
    Says(Text),
    Inline { letter: u8, text: Text },
    Cut,
    Space,
}

/// The effect of a piece on the next one: `Lengthy` has a length; `Paren` is a slur's beginning or a tuplet, which
/// digits may not follow.
#[derive(Clone, Copy, PartialEq, Eq)]
pub enum PieceBefore {
    Bar,
    Broken { right: bool },
    Lengthy,
    Paren,
    Other,
}

/// A token that isn't copied from its line. The text of a chord or a grace group is what is between its brackets.
#[derive(Clone, Copy)]
pub enum BorrowedToken<'a> {
    Note { head: Head, len: Len },
    Rest { seen: bool, len: Len },
    Measures { seen: bool, count: u16 },
    Chord { inside: &'a [u8], len: Len },
    Grace { slash: bool, inside: &'a [u8] },
    Tuplet { p: u8, q: u8, r: u8 },
    SlurOn,
    SlurOff,
    Tie,
    Broken { right: bool, dots: u8 },
    Bar(Bar),
    Ending(&'a [u8]),
    Letter(u8),
    Named(&'a [u8]),
    Says(&'a [u8]),
    Inline { letter: u8, text: &'a [u8] },
    Cut,
    Space,
    Passed,
}

/// The possible kinds of a piece, by its first byte.
#[derive(Clone, Copy, PartialEq, Eq)]
pub enum PieceClass {
    Note,
    Rest,
    Gap,
    Measures,
    Bar,
    Dot,
    Bracket,
    Brace,
    Paren,
    Close,
    Tie,
    Digit,
    Broken,
    Quote,
    Bang,
    Plus,
    Blank,
    Letter,
    Dollar,
    Passed,
    Nothing,
}

/// What follows an opening bracket.
#[derive(Clone, Copy, PartialEq, Eq)]
pub enum BracketOpening {
    Bar,
    Ending,
    Inline,
    Chord,
}
