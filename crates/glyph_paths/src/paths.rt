/// A step of a path: a line to a point, a curve to a point with its two control points, or the painting of what was
/// drawn since the last painting.
#[derive(Clone, Copy, PartialEq, Eq)]
pub enum PathOp {
    Move(i32, i32),
    Line(i32, i32),
    Curve(i32, i32, i32, i32, i32, i32),
    Fill,
    Stroke,
}
