//! What is painted, in 1/10000 point.

use mus_units::{Row, Text};

/// A piece of a path: a point to begin at, a straight line to a point, a curve by two control points to a point, or
/// the line back to the last Move.
#[derive(Clone, Copy, PartialEq, Eq)]
pub enum Seg {
    Move(i64, i64),
    Line(i64, i64),
    Curve(i64, i64, i64, i64, i64, i64),
    Close,
}

/// One thing painted: a filled path; a stroked path, with its line width; or words, with their size and the point
/// where they begin.
#[derive(Drop)]
pub enum Paint {
    Fill(Row<Seg>),
    Stroke(i64, Row<Seg>),
    Show(i64, i64, i64, Text),
}

/// What is painted on a page, in order.
#[derive(Drop)]
pub struct PagePaint {
    pub paints: Row<Paint>,
}
