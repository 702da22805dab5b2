use mus_units::{Row, Text};

/// A line of a book: its number, from 1, and its bytes in Latin-1, without line end and comment. A `%%` line keeps
/// what looks like a comment.
#[derive(Drop)]
pub struct Line {
    pub number: u32,
    pub text: Text,
}

/// The lines of one tune, from its `X:` line on, and its number among the tunes of the book, from 1.
#[derive(Drop)]
pub struct TuneText {
    pub ordinal: u32,
    pub lines: Row<Line>,
}

/// A tune book: the lines of the file header, and the tunes in order.
#[derive(Drop)]
pub struct Book {
    pub header: Row<Line>,
    pub tunes: Row<TuneText>,
}
