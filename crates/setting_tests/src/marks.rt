//! The marks of a system.

use crate::books::size_name;
use case_texts::{CaseError, Report, put_key};
use glyph_paths::name_of;
use mus_laid::{Laid, Lane, Mark, StaffMarks, SystemMarks};
use mus_units::{Glyph, Size, Text, Way};

fn way_name(way: Way) -> &'static str {
    match way {
        Way::Up => "up",
        Way::Down => "down",
        Way::Grace => "grace",
    }
}

/// Adds the name of a lane; one of a verse has its number.
fn put_lane(out: &mut Report, lane: Lane) -> Result<(), CaseError> {
    match lane {
        Lane::Main => out.next(b"main"),
        Lane::Above => out.next(b"above"),
        Lane::Below => out.next(b"below"),
        Lane::Loose => out.next(b"loose"),
        Lane::Verse(verse) => out.next_number(b"verse ", verse),
    }
}

fn put_glyph(out: &mut Report, glyph: Glyph, rank: u32, dx: i32, dy: i32) -> Result<(), CaseError> {
    out.next(b"glyph")?;
    out.next(name_of(glyph))?;
    out.tell(format_args!("{rank} {dx} {dy}"))
}

fn put_words(
    out: &mut Report,
    size: Size,
    rank: u32,
    dx: i32,
    dy: i32,
    text: &Text,
) -> Result<(), CaseError> {
    out.tell(format_args!("{} {rank} {dx} {dy}", size_name(size)))?;
    out.next(text.as_slice())
}

fn put_beam(
    out: &mut Report,
    way: Way,
    first: u32,
    last: u32,
    from: i32,
    to: i32,
) -> Result<(), CaseError> {
    out.tell(format_args!("beam {} {first} {last} {from} {to}", way_name(way)))
}

/// Adds a mark: its kind, its ranks, and its places in u.
fn put_mark(out: &mut Report, mark: &Mark) -> Result<(), CaseError> {
    match mark {
        Mark::Glyph {
            glyph,
            rank,
            dx,
            dy,
        } => put_glyph(out, *glyph, *rank, *dx, *dy),
        Mark::Words {
            size,
            rank,
            dx,
            dy,
            text,
        } => put_words(out, *size, *rank, *dx, *dy, text),
        Mark::Stem { rank, dx, from, to } => {
            out.tell(format_args!("stem {rank} {dx} {from} {to}"))
        }
        Mark::Beam {
            way,
            first,
            last,
            from,
            to,
        } => put_beam(out, *way, *first, *last, *from, *to),
        Mark::Arc {
            first,
            last,
            from,
            to,
            bulge,
        } => out.tell(format_args!("arc {first} {last} {from} {to} {bulge}")),
    }
}

/// Adds the lane of a mark, and the mark.
pub(crate) fn put_laid(out: &mut Report, laid: &Laid) -> Result<(), CaseError> {
    put_lane(out, laid.lane)?;
    put_mark(out, &laid.mark)
}

fn put_staff(out: &mut Report, staff: &StaffMarks) -> Result<(), CaseError> {
    out.tell(format_args!("staff {} {}\n", staff.low, staff.high))?;
    for laid in staff.marks.as_slice() {
        put_laid(out, laid)?;
        out.end_line()?;
    }
    Ok(())
}

/// Adds a line for each key of a system, and for each staff a line of its heights and one for each mark.
pub(crate) fn put_system(out: &mut Report, system: &SystemMarks) -> Result<(), CaseError> {
    for key in system.keys.as_slice() {
        out.next(b"key")?;
        put_key(out, *key)?;
        out.end_line()?;
    }
    for staff in system.staves.as_slice() {
        put_staff(out, staff)?;
    }
    Ok(())
}
