//! The boxes of marks, and texts as they are printed.

ghost use Rattle.{std.specs.Prelude.{All}, mus_laid.specs.Boxes.{AreGoodMarks}};

use crate::marks::put_laid;
use case_texts::{CaseError, Report};
use mus_laid::{
    Laid, Sides, StaffMarks, SystemMarks, heights_of, printed, printed_within, sides_of,
    staff_heights,
};

fn put_boxes(out: &mut Report, marks: &[Laid]) -> Result<(), CaseError>
    requires { AreGoodMarks marks.now }
{
    for laid in marks {
        let heights = heights_of(&laid.mark);
        put_laid(out, laid)?;
        out.tell(format_args!("box {} {}", heights.low, heights.high))?;
        put_sides(out, sides_of(&laid.mark))?;
    }
    Ok(())
}

fn put_sides(out: &mut Report, sides: Option<Sides>) -> Result<(), CaseError> {
    match sides {
        Some(sides) => out.tell_all(&[sides.left, sides.right])?,
        None => out.next(b"without sides")?,
    }
    out.end_line()
}

/// Adds for each staff a line of its heights and one for each mark, with the heights of its box and how far
/// it reaches to the left and to the right.
pub(crate) fn put_system_boxes(out: &mut Report, system: &SystemMarks) -> Result<(), CaseError>
    requires { All (λ staff. AreGoodMarks staff.marks) system.now.staves }
{
    put_staff_boxes(out, system.staves.as_slice())
}

fn put_staff_boxes(out: &mut Report, staves: &[StaffMarks]) -> Result<(), CaseError>
    requires { All (λ staff. AreGoodMarks staff.marks) staves.now }
{
    for staff in staves {
        let heights = staff_heights(staff.marks.as_slice());
        out.tell(format_args!("staff {} {}\n", heights.low, heights.high))?;
        put_boxes(out, staff.marks.as_slice())?;
    }
    Ok(())
}

/// Adds what is printed of a text, and what is printed of it within a number of characters.
pub(crate) fn put_printed(out: &mut Report, most: usize, text: &[u8]) -> Result<(), CaseError> {
    out.next(printed(out.alloc, text)?.as_slice())?;
    out.end_line()?;
    out.next(printed_within(out.alloc, most, text)?.as_slice())?;
    out.end_line()
}
