//! The operators that draw and move.

ghost use Rattle.std.specs.Prelude.{◌≡◌};
ghost use Rattle.ps_steps.specs.Operators.{operated, lineto, curveto, curveto_op, moveto_op, lineto_op, closepath_op};
ghost use Rattle.ps_steps.specs.Operators.{fill_op, stroke_op, gsave_op, grestore_op, translate_op};
ghost use Rattle.ps_machine.specs.Doing.{state_of, DidOrStopped, IsPoint, IsOnPath, numbers_of};

use crate::canvas::Canvas;
use crate::operands::{Bend, coordinate, product, six, two};
use crate::state::{Machine, Stop};
use ps_steps::{Cause, Paint, Seg};
use std::alloc::Global;

fn point(canvas: &Canvas, x: i64, y: i64) -> Result<(i64, i64), Stop>
    ensures { IsPoint canvas.now.now x y result }
{
    let Some(across) = coordinate(canvas.left(), canvas.scale(), x) else {
        return Err(Stop::Halted(Cause::Range));
    };
    let Some(above) = coordinate(canvas.bottom(), canvas.scale(), y) else {
        return Err(Stop::Halted(Cause::Range));
    };
    Ok((across, above))
}

/// Executes `moveto`: adds a point to begin at.
pub fn moveto(m: &mut Machine) -> Result<(), Stop>
    ensures { DidOrStopped (operated moveto_op (state_of m.old)) result (state_of m.new) }
{
    let (x, y) = two(&mut m.stack)?;
    let (x, y) = point(&m.canvas, x, y)?;
    m.canvas.push(Seg::Move(x, y))?;
    Ok(())
}

/// Executes `translate`: moves the origin.
pub fn translate(m: &mut Machine) -> Result<(), Stop>
    ensures { DidOrStopped (operated translate_op (state_of m.old)) result (state_of m.new) }
{
    let (x, y) = two(&mut m.stack)?;
    let (x, y) = point(&m.canvas, x, y)?;
    m.canvas.set_origin(x, y);
    Ok(())
}

/// Executes `grestore`: restores the graphics state that was saved last.
pub fn grestore(m: &mut Machine) -> Result<(), Stop>
    ensures { DidOrStopped (operated grestore_op (state_of m.old)) result (state_of m.new) }
{
    if m.canvas.restore() {
        Ok(())
    } else {
        Err(Stop::Halted(Cause::Restore))
    }
}

/// Executes `gsave`: saves the graphics state.
pub fn gsave(m: &mut Machine) -> Result<(), Stop>
    ensures { DidOrStopped (operated gsave_op (state_of m.old)) result (state_of m.new) }
{
    m.canvas.save()?;
    Ok(())
}

fn on_path(canvas: &Canvas) -> Result<(), Stop>
    ensures { IsOnPath canvas.now.now.path result }
{
    match canvas.current() {
        Some(_) => Ok(()),
        None => Err(Stop::Halted(Cause::Point)),
    }
}

fn add_line(m: &mut Machine, x: i64, y: i64) -> Result<(), Stop>
    ensures { DidOrStopped (lineto x y (state_of m.old)) result (state_of m.new) }
{
    on_path(&m.canvas)?;
    let (x, y) = point(&m.canvas, x, y)?;
    m.canvas.push(Seg::Line(x, y))?;
    Ok(())
}

/// Executes `lineto`: adds a line to a point.
pub fn lineto(m: &mut Machine) -> Result<(), Stop>
    ensures { DidOrStopped (operated lineto_op (state_of m.old)) result (state_of m.new) }
{
    let (x, y) = two(&mut m.stack)?;
    add_line(m, x, y)
}

/// Executes `closepath`: adds a Close if there is a current point.
pub fn closepath(m: &mut Machine) -> Result<(), Stop>
    ensures { DidOrStopped (operated closepath_op (state_of m.old)) result (state_of m.new) }
{
    if m.canvas.current().is_some() {
        m.canvas.push(Seg::Close)?;
    }
    Ok(())
}

/// Executes `fill`: paints the path filled, and empties it.
pub fn fill(alloc: Global, m: &mut Machine) -> Result<(), Stop>
    ensures { DidOrStopped (operated fill_op (state_of m.old)) result (state_of m.new) }
{
    let path = m.canvas.take_path(alloc)?;
    m.paints.push(Paint::Fill(path))?;
    Ok(())
}

/// Executes `stroke`: paints the path stroked, and empties it.
pub fn stroke(alloc: Global, m: &mut Machine) -> Result<(), Stop>
    ensures { DidOrStopped (operated stroke_op (state_of m.old)) result (state_of m.new) }
{
    let Some(width) = product(m.canvas.line(), m.canvas.scale().get()) else {
        return Err(Stop::Halted(Cause::Range));
    };
    let path = m.canvas.take_path(alloc)?;
    m.paints.push(Paint::Stroke(width, path))?;
    Ok(())
}

fn add_curve(m: &mut Machine, bend: &Bend) -> Result<(), Stop>
    ensures { DidOrStopped (curveto (numbers_of bend.now) (state_of m.old)) result (state_of m.new) }
{
    on_path(&m.canvas)?;
    let (a, b) = point(&m.canvas, bend.first.0, bend.first.1)?;
    let (c, d) = point(&m.canvas, bend.second.0, bend.second.1)?;
    let (x, y) = point(&m.canvas, bend.end.0, bend.end.1)?;
    m.canvas.push(Seg::Curve(a, b, c, d, x, y))?;
    Ok(())
}

/// Executes `curveto`: adds a curve to a point.
pub fn curveto(m: &mut Machine) -> Result<(), Stop>
    ensures { DidOrStopped (operated curveto_op (state_of m.old)) result (state_of m.new) }
{
    let bend = six(&mut m.stack)?;
    add_curve(m, &bend)
}
