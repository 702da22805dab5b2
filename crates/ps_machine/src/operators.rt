//! The operators, by their names.

ghost use Rattle.std.specs.{Prelude.◌≡◌, Str.bytes_eq};
ghost use Rattle.ps_steps.specs.Operators.{operated_if, operator_named};
ghost use Rattle.ps_machine.specs.Doing.{state_of, DidOrStopped};

use crate::drawing::{
    closepath, curveto, fill, grestore, gsave, lineto, moveto, stroke, translate,
};
use crate::fonts::{define, findfont, scalefont, setfont, setlinewidth, showpage};
use crate::scaling::scale;
use crate::showing::show;
use crate::state::{Machine, Stop};
use ps_steps::Cause;
use std::alloc::Global;

fn is(name: &[u8], other: &[u8]) -> bool
    ensures { result ≡ bytes_eq other.now name.now }
{
    other == name
}

/// Does what the operator with this name does.
pub fn operate(alloc: Global, m: &mut Machine, name: &[u8]) -> Result<(), Stop>
    ensures { DidOrStopped (operated_if (operator_named name.now) (state_of m.old)) result (state_of m.new) }
{
    if is(name, b"def") {
        define(m)
    } else if is(name, b"moveto") {
        moveto(m)
    } else if is(name, b"lineto") {
        lineto(m)
    } else if is(name, b"curveto") {
        curveto(m)
    } else if is(name, b"closepath") {
        closepath(m)
    } else if is(name, b"fill") {
        fill(alloc, m)
    } else if is(name, b"stroke") {
        stroke(alloc, m)
    } else if is(name, b"gsave") {
        gsave(m)
    } else if is(name, b"grestore") {
        grestore(m)
    } else if is(name, b"translate") {
        translate(m)
    } else if is(name, b"scale") {
        scale(m)
    } else if is(name, b"setlinewidth") {
        setlinewidth(m)
    } else if is(name, b"findfont") {
        findfont(m)
    } else if is(name, b"scalefont") {
        scalefont(m)
    } else if is(name, b"setfont") {
        setfont(m)
    } else if is(name, b"show") {
        show(alloc, m)
    } else if is(name, b"showpage") {
        showpage(alloc, m)
    } else {
        Err(Stop::Halted(Cause::Name))
    }
}
