//! The operators on names, fonts and pages.

ghost use Rattle.std.specs.{Prelude.◌≡◌, Prelude.codes, Str.bytes_eq};
ghost use Rattle.ps_steps.specs.Operators.{operated, def_op, scale_op, setlinewidth_op, findfont_op, scalefont_op};
ghost use Rattle.ps_steps.specs.Operators.{setfont_op, showpage_op};
ghost use Rattle.ps_machine.specs.Doing.{state_of, DidOrStopped};

use crate::operands::{font_and_number, product};
use crate::state::{Machine, Stop};
use mus_units::Row;
use ps_steps::{Cause, Operand, PagePaint};
use std::alloc::Global;

/// Executes `setlinewidth`: sets the line width.
pub fn setlinewidth(m: &mut Machine) -> Result<(), Stop>
    ensures { DidOrStopped (operated setlinewidth_op (state_of m.old)) result (state_of m.new) }
{
    match m.stack.pop() {
        Some(Operand::Whole(width)) => {
            m.canvas.set_line(width.get());
            Ok(())
        }
        Some(_) => Err(Stop::Halted(Cause::Kind)),
        None => Err(Stop::Halted(Cause::Stack)),
    }
}

/// Executes `setfont`: sets the font size.
pub fn setfont(m: &mut Machine) -> Result<(), Stop>
    ensures { DidOrStopped (operated setfont_op (state_of m.old)) result (state_of m.new) }
{
    match m.stack.pop() {
        Some(Operand::Font(size)) => {
            m.canvas.set_font(size);
            Ok(())
        }
        Some(_) => Err(Stop::Halted(Cause::Kind)),
        None => Err(Stop::Halted(Cause::Stack)),
    }
}

/// Executes `showpage`: ends the page.
pub fn showpage(alloc: Global, m: &mut Machine) -> Result<(), Stop>
    ensures { DidOrStopped (operated showpage_op (state_of m.old)) result (state_of m.new) }
{
    let paints = std::mem::replace(&mut m.paints, Row::new(alloc));
    m.pages.push(PagePaint { paints })?;
    Ok(())
}

/// Executes `def`: defines a name as a procedure.
pub fn define(m: &mut Machine) -> Result<(), Stop>
    ensures { DidOrStopped (operated def_op (state_of m.old)) result (state_of m.new) }
{
    if m.stack.len() < 2 {
        return Err(Stop::Halted(Cause::Stack));
    }
    match (m.stack.pop(), m.stack.pop()) {
        (Some(Operand::Body(body)), Some(Operand::Label(name))) => {
            m.names.define(name.as_slice(), body)?;
            Ok(())
        }
        _ => Err(Stop::Halted(Cause::Kind)),
    }
}

/// Executes `scalefont`: multiplies the size of a font.
pub fn scalefont(m: &mut Machine) -> Result<(), Stop>
    ensures { DidOrStopped (operated scalefont_op (state_of m.old)) result (state_of m.new) }
{
    let (size, by) = font_and_number(&mut m.stack)?;
    let Some(scaled) = product(size, by) else {
        return Err(Stop::Halted(Cause::Range));
    };
    m.stack.push(Operand::Font(scaled))?;
    Ok(())
}

fn is_engraving_font(name: &[u8]) -> bool
    ensures { result ≡ bytes_eq name.now (codes "EngFont") }
{
    name == b"EngFont".as_slice()
}

/// Executes `findfont`: pushes the font that was made, at size 1.
pub fn findfont(m: &mut Machine) -> Result<(), Stop>
    ensures { DidOrStopped (operated findfont_op (state_of m.old)) result (state_of m.new) }
{
    match m.stack.pop() {
        Some(Operand::Label(name)) => {
            if !(m.made && is_engraving_font(name.as_slice())) {
                return Err(Stop::Halted(Cause::Name));
            }
            m.stack.push(Operand::Font(1))?;
            Ok(())
        }
        Some(_) => Err(Stop::Halted(Cause::Kind)),
        None => Err(Stop::Halted(Cause::Stack)),
    }
}
