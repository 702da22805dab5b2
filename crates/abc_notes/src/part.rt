use abc_lines::FaultKind;
use mus_units::{Head, Row};

/// A length as written, in units, not reduced: `A//` is 1/4.
#[derive(Clone, Copy, PartialEq, Eq)]
pub struct Len {
    pub num: u32,
    pub den: u32,
}

/// The heads of one note or chord of a grace group, in the order of the text.
#[derive(Drop)]
pub struct GraceChord {
    pub heads: Row<Head>,
}

/// A fault of a line, and how many bytes of the line are left from its place on.
#[derive(Clone, Copy, PartialEq, Eq)]
pub struct Flaw {
    pub kind: FaultKind,
    pub left: usize,
}

/// The meaning of a piece inside a chord or a grace group.
#[derive(Clone, Copy)]
pub enum InnerPiece<'a> {
    Note { head: Head, len: Len },
    Letter(u8),
    Named(&'a [u8]),
    Tie,
    Passed,
}

/// A part of a grace group: a part as inside a chord, or a chord, given by the text between its brackets.
#[derive(Clone, Copy)]
pub enum GracePiece<'a> {
    Part(InnerPiece<'a>),
    Chord(&'a [u8]),
}

/// The possible kinds of a piece inside a chord or a grace group, by its first byte.
#[derive(Clone, Copy, PartialEq, Eq)]
pub enum ItemClass {
    Note,
    Dot,
    Letter,
    Tie,
    Passed,
    Bang,
    Nothing,
}
