ghost use Rattle.std.specs.{Prelude.{◌≡◌, ◌+◌, IfOk, Decides}, Option.{option_map}};
ghost use Rattle.ps_text.specs.{Document.staff_line, Range.IsNumber};
ghost use Rattle.ps_read.specs.ReaderStates.{IsUnderTop, MayEnd};
ghost use Rattle.ps_read.specs.Steps.{IsStep, IsStepOf, IsJoinLine, IsItemLine, IsNoMark};
ghost use Rattle.ps_read.specs.Titles.{IsMarkRead};
ghost use Rattle.ps_read.specs.declared.state.ReaderState.TheVariants as at;

use crate::lines::{Rules, is_staff_line, read_join, read_rules};
use crate::pages::item_line;
use crate::state::{
    Joined, OpenSystem, ReaderState, staff_with_mark, system_ended, system_with_staff,
};
use mus_units::distances::TOP_LINE;
use mus_units::{Memory, Row};
use ps_text::{PageMark, Staff, read_op};
use std::alloc::Global;

/// Returns the mark on the staff that the line spells.
fn read_mark(alloc: Global, raw: &[u8], staff: &Staff) -> Result<Option<PageMark>, Memory>
    ensures { IfOk result (IsMarkRead staff.now.y raw.now) }
{
    read_op(alloc, raw, staff.y)
}

/// Joins the staves of a system that isn't joined yet.
fn join_next(
    alloc: Global,
    mut system: OpenSystem,
    raw: &[u8],
) -> Result<Option<ReaderState>, Memory>
    ensures { IfOk result (IsStepOf IsJoinLine (at.System system) raw.now) }
{
    if system.join.is_some() {
        return Ok(None);
    }
    match read_join(alloc, raw)? {
        Some(join) => {
            system.join = Some(join);
            Ok(Some(ReaderState::System(system)))
        }
        None => Ok(None),
    }
}

/// Returns the state after a line that follows the measures of a system or the line that joins its staves, or
/// `None` if the line isn't good there.
pub fn after_system(
    alloc: Global,
    system: OpenSystem,
    raw: &[u8],
) -> Result<Option<ReaderState>, Memory>
    ensures { IfOk result (IsStep (at.System system) raw.now) }
{
    if is_staff_line(alloc, raw, 0)? {
        return Ok(Some(ReaderState::Staff(system)));
    }
    join_next(alloc, system, raw)
}

/// Returns whether a staff at `y` may come next.
fn is_under_top(join: Option<Joined>, staves: &[Staff], y: i64) -> bool
    requires { IsNumber y }
    ensures { Decides result (IsUnderTop join staves.now y) }
{
    match (join, staves) {
        (Some(join), []) => y + i64::from(TOP_LINE) == join.top,
        _ => true,
    }
}

/// Returns the staff that the line begins, if that staff may come next.
fn read_staff(alloc: Global, system: &OpenSystem, raw: &[u8]) -> Result<Option<Staff>, Memory>
    ensures { IfOk result (λ o. IsStep (at.Staff system.now) raw.now (option_map (at.Marks system.now) o)) }
{
    let Some(Rules { width, y }) = read_rules(alloc, raw)? else {
        return Ok(None);
    };
    if !is_under_top(system.join, system.staves.as_slice(), y) {
        return Ok(None);
    }
    Ok(Some(Staff {
        y,
        width,
        marks: Row::new(alloc),
    }))
}

/// Returns the state after a line that follows the number of a staff, or `None` if the line isn't good there.
pub fn after_staff(
    alloc: Global,
    system: OpenSystem,
    raw: &[u8],
) -> Result<Option<ReaderState>, Memory>
    ensures { IfOk result (IsStep (at.Staff system) raw.now) }
{
    match read_staff(alloc, &system, raw)? {
        Some(staff) => Ok(Some(ReaderState::Marks { system, staff })),
        None => Ok(None),
    }
}

/// Returns whether a system may end with a staff at `y` after others.
fn may_end(join: Option<Joined>, staves: &[Staff], y: i64) -> bool
    ensures { Decides result (MayEnd join staves.now y) }
{
    match join {
        Some(join) => !staves.is_empty() && y == join.foot,
        None => true,
    }
}

/// Returns whether the line numbers the staff after `staves` staves.
fn is_next_staff(alloc: Global, raw: &[u8], staves: usize) -> Result<bool, Memory>
    ensures { IfOk result (λ r. Decides r (raw.now ≡ staff_line (staves + 1))) }
{
    let Some(k) = (staves as u64).checked_add(1) else {
        return Err(Memory);
    };
    is_staff_line(alloc, raw, k)
}

/// Ends the system.
fn leave(
    alloc: Global,
    system: OpenSystem,
    staff: Staff,
    raw: &[u8],
) -> Result<Option<ReaderState>, Memory>
    ensures { IfOk result (IsStepOf IsItemLine (at.Marks system staff) raw.now) }
{
    if !may_end(system.join, system.staves.as_slice(), staff.y) {
        return Ok(None);
    }
    let page = system_ended(system, staff)?;
    item_line(alloc, page, raw)
}

/// Reads any line except a mark that may come after a mark.
fn after_last_mark(
    alloc: Global,
    system: OpenSystem,
    staff: Staff,
    raw: &[u8],
) -> Result<Option<ReaderState>, Memory>
    ensures { IfOk result (IsStepOf IsNoMark (at.Marks system staff) raw.now) }
{
    if !is_next_staff(alloc, raw, system.staves.len())? {
        return leave(alloc, system, staff, raw);
    }
    if system.join.is_none() {
        return Ok(None);
    }
    Ok(Some(ReaderState::Staff(system_with_staff(system, staff)?)))
}

/// Returns the state after a line that follows the five lines of a staff or a mark of it, or `None` if the line
/// isn't good there.
pub fn after_mark(
    alloc: Global,
    system: OpenSystem,
    staff: Staff,
    raw: &[u8],
) -> Result<Option<ReaderState>, Memory>
    ensures { IfOk result (IsStep (at.Marks system staff) raw.now) }
{
    match read_mark(alloc, raw, &staff)? {
        Some(mark) => {
            let staff = staff_with_mark(staff, mark)?;
            Ok(Some(ReaderState::Marks { system, staff }))
        }
        None => after_last_mark(alloc, system, staff, raw),
    }
}
