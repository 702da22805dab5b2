//! The graphics state.

use crate::paint::Seg;
use crate::token::Number;
use mus_units::Row;

/// What a `gsave` saves: the path, the scale, the origin, the font size and the line width.
#[derive(Drop)]
pub struct Graphics {
    pub path: Row<Seg>,
    pub scale: Number,
    pub x: i64,
    pub y: i64,
    pub font: i64,
    pub line: i64,
}
