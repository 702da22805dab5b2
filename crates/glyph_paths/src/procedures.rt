ghost use Rattle.std.specs.Prelude.{◌≡◌, ◌++◌, ◌∷◌, [], codes, OnOk, IfOk};
ghost use Rattle.glyph_paths.specs.Procedure.{numbers, step_text, path_text, procedure_text};

use crate::numbers::put_numbers;
use crate::paths::PathOp;
use crate::rows::{name_of, outline};
use mus_units::{Glyph, Memory, Text};
use std::alloc::Global;

/// Adds a step to a point, with its operator.
fn put_point(out: &mut Text, x: i32, y: i32, operator: &[u8]) -> Result<(), Memory>
    ensures { OnOk result (out.new ≡ out.old ++ numbers (x ∷ y ∷ []) ++ operator.now) }
{
    put_numbers(out, &[i64::from(x), i64::from(y)])?;
    out.append(operator)
}

/// Adds the coordinates of the three points of a curve, with its operator.
fn put_curve(out: &mut Text, points: &[i64]) -> Result<(), Memory>
    ensures { OnOk result (out.new ≡ out.old ++ numbers points.now ++ codes "c ") }
{
    put_numbers(out, points)?;
    out.append(b"c ")
}

/// Adds a step of a path.
fn put_step(out: &mut Text, op: PathOp) -> Result<(), Memory>
    ensures { OnOk result (out.new ≡ out.old ++ step_text op) }
{
    match op {
        PathOp::Move(x, y) => put_point(out, x, y, b"m "),
        PathOp::Line(x, y) => put_point(out, x, y, b"l "),
        PathOp::Curve(a, b, c, d, x, y) => {
            put_curve(
                out,
                &[a.into(), b.into(), c.into(), d.into(), x.into(), y.into()],
            )
        }
        PathOp::Fill => out.append(b"h "),
        PathOp::Stroke => out.append(b"k "),
    }
}

/// Adds a path.
#[tactic(auto, unfolding(crate::specs::Procedure::path_text))]
fn put_path(out: &mut Text, steps: &[PathOp]) -> Result<(), Memory>
    ensures { OnOk result (out.new ≡ out.old ++ path_text steps.now) }
{
    for op in steps {
        put_step(out, *op)?;
    }
    Ok(())
}

/// Returns the line of a page's prolog that defines a glyph, without its line end: `/NAME {gsave translate translate
/// PATH grestore} def`.
#[tactic(auto, unfolding(crate::specs::Procedure::procedure_text))]
pub fn procedure(alloc: Global, g: Glyph) -> Result<Text, Memory>
    ensures { IfOk result (λ line. line ≡ procedure_text g) }
{
    let mut line = Text::new(alloc);
    line.append(b"/")?;
    line.append(name_of(g))?;
    line.append(b" {gsave translate translate ")?;
    put_path(&mut line, outline(g))?;
    line.append(b"grestore} def")?;
    Ok(line)
}
