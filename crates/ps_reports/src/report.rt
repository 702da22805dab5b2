ghost use Rattle.std.specs.Prelude.{◌≡◌, ◌++◌, decimal, OnOk, IfOk};
ghost use Rattle.ps_text.specs.Document.{numbered};
ghost use Rattle.ps_reports.specs.SheetText.{plain_line, named_line, report_words_line, mark_report, marks_report};
ghost use Rattle.ps_reports.specs.SheetText.{staff_report, system_report, item_report, items_report, page_report};
ghost use Rattle.ps_reports.specs.SheetText.{frame_report, sheet_report};

use crate::put_spaced;
use eng_lines::put_number;
use glyph_paths::name_of;
use mus_units::{Memory, Size, Text};
use ps_text::fields::put_quoted;
use ps_text::names::{size_name_of, way_name_of};
use ps_text::{Frame, Item, Page, PageMark, Sheet, Staff};
use std::alloc::Global;

/// Adds a line with a kind and numbers.
#[tactic(auto, unfolding(crate::specs::SheetText::plain_line))]
fn put_plain(out: &mut Text, kind: &[u8], zs: &[i64]) -> Result<(), Memory>
    ensures { OnOk result (out.new ≡ out.old ++ plain_line kind.now zs.now) }
{
    out.append(kind)?;
    put_spaced(out, zs)?;
    out.push(b'\n')
}

/// Adds a line with a kind, a name and numbers.
#[tactic(auto, unfolding(crate::specs::SheetText::named_line))]
fn put_named(out: &mut Text, kind: &[u8], name: &[u8], zs: &[i64]) -> Result<(), Memory>
    ensures { OnOk result (out.new ≡ out.old ++ named_line kind.now name.now zs.now) }
{
    out.append(kind)?;
    out.append(name)?;
    put_spaced(out, zs)?;
    out.push(b'\n')
}

/// Adds a line with a kind, a count and numbers.
#[tactic(auto, unfolding(crate::specs::SheetText::named_line))]
fn put_counted(out: &mut Text, kind: &[u8], count: u64, zs: &[i64]) -> Result<(), Memory>
    ensures { OnOk result (out.new ≡ out.old ++ named_line kind.now (decimal count) zs.now) }
{
    out.append(kind)?;
    put_number(out, count)?;
    put_spaced(out, zs)?;
    out.push(b'\n')
}

/// Adds a line with a kind, a size, a place and words.
#[tactic(auto, unfolding(crate::specs::SheetText::report_words_line))]
fn put_words_line(
    out: &mut Text,
    kind: &[u8],
    size: Size,
    zs: &[i64],
    words: &[u8],
) -> Result<(), Memory>
    ensures { OnOk result (out.new ≡ out.old ++ report_words_line kind.now size zs.now words.now) }
{
    out.append(kind)?;
    out.append(size_name_of(size))?;
    put_spaced(out, zs)?;
    out.push(b' ')?;
    put_quoted(out, words)?;
    out.push(b'\n')
}

/// Adds the line of a mark.
fn put_mark(out: &mut Text, m: &PageMark) -> Result<(), Memory>
    ensures { OnOk result (out.new ≡ out.old ++ mark_report m.now) }
{
    match m {
        PageMark::Glyph { glyph, x, dx, dy } => {
            let zs = [*x, i64::from(*dx), i64::from(*dy)];
            put_named(out, b"glyph ", name_of(*glyph), &zs)
        }
        PageMark::Words {
            size,
            x,
            dx,
            dy,
            text,
        } => {
            let zs = [*x, i64::from(*dx), i64::from(*dy)];
            put_words_line(out, b"text ", *size, &zs, text.as_slice())
        }
        PageMark::Stem { x, dx, from, to } => {
            let zs = [*x, i64::from(*dx), i64::from(*from), i64::from(*to)];
            put_plain(out, b"stem", &zs)
        }
        PageMark::Beam {
            way,
            x1,
            x2,
            from,
            to,
        } => {
            let zs = [*x1, *x2, i64::from(*from), i64::from(*to)];
            put_named(out, b"beam ", way_name_of(*way), &zs)
        }
        PageMark::Arc {
            x1,
            x2,
            from,
            to,
            bulge,
        } => {
            let zs = [
                *x1,
                *x2,
                i64::from(*from),
                i64::from(*to),
                i64::from(*bulge),
            ];
            put_plain(out, b"arc", &zs)
        }
    }
}

#[tactic(auto, unfolding(crate::specs::SheetText::marks_report))]
fn put_marks(out: &mut Text, marks: &[PageMark]) -> Result<(), Memory>
    ensures { OnOk result (out.new ≡ out.old ++ marks_report marks.now) }
{
    for m in marks {
        put_mark(out, m)?;
    }
    Ok(())
}

/// Adds the lines of staff `k` of a system.
#[tactic(auto, unfolding(crate::specs::SheetText::staff_report))]
fn put_staff(out: &mut Text, k: u64, staff: &Staff) -> Result<(), Memory>
    ensures { OnOk result (out.new ≡ out.old ++ staff_report k staff.now) }
{
    put_counted(out, b"staff ", k, &[staff.y, i64::from(staff.width)])?;
    put_marks(out, staff.marks.as_slice())
}

fn put_staves(out: &mut Text, staves: &[Staff]) -> Result<(), Memory>
    ensures { OnOk result (out.new ≡ out.old ++ numbered staff_report 0 staves.now) }
{
    let mut k = 0;
    for staff in staves {
        put_staff(out, k, staff)?;
        k += 1;
    }
    Ok(())
}

#[tactic(auto, unfolding(crate::specs::SheetText::system_report))]
fn put_system(out: &mut Text, a: u32, b: u32, staves: &[Staff]) -> Result<(), Memory>
    ensures { OnOk result (out.new ≡ out.old ++ system_report a b staves.now) }
{
    put_counted(out, b"system ", u64::from(a), &[i64::from(b)])?;
    put_staves(out, staves)
}

fn put_item(out: &mut Text, item: &Item) -> Result<(), Memory>
    ensures { OnOk result (out.new ≡ out.old ++ item_report item.now) }
{
    match item {
        Item::Tune { ordinal } => put_plain(out, b"tune", &[i64::from(*ordinal)]),
        Item::Title { x, y, size, text } => {
            put_words_line(out, b"title ", *size, &[*x, *y], text.as_slice())
        }
        Item::System { a, b, staves } => put_system(out, *a, *b, staves.as_slice()),
    }
}

#[tactic(auto, unfolding(crate::specs::SheetText::items_report))]
fn put_items(out: &mut Text, items: &[Item]) -> Result<(), Memory>
    ensures { OnOk result (out.new ≡ out.old ++ items_report items.now) }
{
    for item in items {
        put_item(out, item)?;
    }
    Ok(())
}

/// Adds the lines of page `k`, from 1.
#[tactic(auto, unfolding(crate::specs::SheetText::page_report))]
fn put_page(out: &mut Text, k: u64, page: &Page) -> Result<(), Memory>
    ensures { OnOk result (out.new ≡ out.old ++ page_report k page.now) }
{
    put_counted(out, b"page ", k, &[])?;
    put_items(out, page.items.as_slice())
}

fn put_pages(out: &mut Text, pages: &[Page]) -> Result<(), Memory>
    ensures { OnOk result (out.new ≡ out.old ++ numbered page_report 1 pages.now) }
{
    let mut k = 1;
    for page in pages {
        put_page(out, k, page)?;
        k += 1;
    }
    Ok(())
}

#[tactic(auto, unfolding(crate::specs::SheetText::frame_report))]
fn put_frame(out: &mut Text, frame: Frame) -> Result<(), Memory>
    ensures { OnOk result (out.new ≡ out.old ++ frame_report frame) }
{
    let zs = [
        i64::from(frame.wide),
        i64::from(frame.high),
        i64::from(frame.left),
        i64::from(frame.bottom),
        i64::from(frame.scale),
    ];
    put_plain(out, b"frame", &zs)
}

/// Adds the lines for all that a sheet shows: its frame, and for each page its tunes, titles, systems, staves and
/// marks in order. All lengths are in u.
#[tactic(auto, unfolding(crate::specs::SheetText::sheet_report))]
pub fn report_of(alloc: Global, sheet: &Sheet) -> Result<Text, Memory>
    ensures { IfOk result (λ t. t ≡ sheet_report sheet.now) }
{
    let mut out = Text::new(alloc);
    put_frame(&mut out, sheet.frame)?;
    put_pages(&mut out, sheet.pages.as_slice())?;
    put_counted(&mut out, b"pages ", sheet.pages.len() as u64, &[])?;
    Ok(out)
}
