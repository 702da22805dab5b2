//! Pages as text.

ghost use Rattle.std.specs.Prelude.{◌≡◌, ◌++◌, ◌∷◌, [], codes, flat_map, OnOk};
ghost use Rattle.std.specs.Fmt.{signed_decimal};
ghost use Rattle.ps_text.specs.Fields.{quoted};
ghost use Rattle.ps_reports.specs.PaintText.{spaced, seg_text, paint_line, painted_page, paint_text};

use eng_lines::put_number;
use itoa::Buffer;
use mus_units::{Memory, Text};
use ps_steps::{PagePaint, Paint, Seg};
use ps_text::fields::put_quoted;

/// Adds a number after a space.
fn put_spaced_one(out: &mut Text, number: i64) -> Result<(), Memory>
    ensures { OnOk result (out.new ≡ out.old ++ (codes " " ++ signed_decimal number)) }
{
    let mut buffer = Buffer::new();
    out.push(b' ')?;
    out.append(buffer.format(number).as_bytes())
}

/// Adds numbers in decimal, each after a space. On an error, part of the text was added.
#[tactic(auto, unfolding(crate::specs::PaintText::spaced))]
pub fn put_spaced(out: &mut Text, numbers: &[i64]) -> Result<(), Memory>
    ensures { OnOk result (out.new ≡ out.old ++ spaced numbers.now) }
{
    for number in numbers {
        put_spaced_one(out, *number)?;
    }
    Ok(())
}

fn put_curve(out: &mut Text, points: &[i64]) -> Result<(), Memory>
    ensures { OnOk result (out.new ≡ out.old ++ spaced points.now ++ codes " c") }
{
    put_spaced(out, points)?;
    out.append(b" c")
}

/// Adds a piece of a path.
fn put_seg(out: &mut Text, piece: Seg) -> Result<(), Memory>
    ensures { OnOk result (out.new ≡ out.old ++ seg_text piece) }
{
    match piece {
        Seg::Move(x, y) => {
            put_spaced(out, &[x, y])?;
            out.append(b" m")
        }
        Seg::Line(x, y) => {
            put_spaced(out, &[x, y])?;
            out.append(b" l")
        }
        Seg::Curve(a, b, c, d, x, y) => put_curve(out, &[a, b, c, d, x, y]),
        Seg::Close => out.append(b" z"),
    }
}

/// Adds a path.
fn put_path(out: &mut Text, path: &[Seg]) -> Result<(), Memory>
    ensures { OnOk result (out.new ≡ out.old ++ flat_map seg_text path.now) }
{
    for piece in path {
        put_seg(out, *piece)?;
    }
    Ok(())
}

fn put_fill(out: &mut Text, path: &[Seg]) -> Result<(), Memory>
    ensures { OnOk result (out.new ≡ out.old ++ codes "fill" ++ flat_map seg_text path.now ++ codes "\n") }
{
    out.append(b"fill")?;
    put_path(out, path)?;
    out.append(b"\n")
}

fn put_stroke(out: &mut Text, width: i64, path: &[Seg]) -> Result<(), Memory>
    ensures { OnOk result
        (out.new ≡ out.old ++ codes "stroke" ++ spaced (width ∷ []) ++ flat_map seg_text path.now ++ codes "\n") }
{
    out.append(b"stroke")?;
    put_spaced(out, &[width])?;
    put_path(out, path)?;
    out.append(b"\n")
}

fn put_show(out: &mut Text, size: i64, x: i64, y: i64, words: &[u8]) -> Result<(), Memory>
    ensures { OnOk result
        (out.new
        ≡ out.old ++ codes "show" ++ spaced (size ∷ x ∷ y ∷ []) ++ codes " " ++ quoted words.now ++ codes "\n") }
{
    out.append(b"show")?;
    put_spaced(out, &[size, x, y])?;
    out.append(b" ")?;
    put_quoted(out, words)?;
    out.append(b"\n")
}

/// Adds the line of a paint.
fn put_paint(out: &mut Text, paint: &Paint) -> Result<(), Memory>
    ensures { OnOk result (out.new ≡ out.old ++ paint_line paint.now) }
{
    match paint {
        Paint::Fill(path) => put_fill(out, path.as_slice()),
        Paint::Stroke(width, path) => put_stroke(out, *width, path.as_slice()),
        Paint::Show(size, x, y, words) => put_show(out, *size, *x, *y, words.as_slice()),
    }
}

fn put_paints(out: &mut Text, paints: &[Paint]) -> Result<(), Memory>
    ensures { OnOk result (out.new ≡ out.old ++ flat_map paint_line paints.now) }
{
    for paint in paints {
        put_paint(out, paint)?;
    }
    Ok(())
}

/// Adds the lines of a page, with ordinal `k`.
fn put_page(out: &mut Text, k: u64, page: &PagePaint) -> Result<(), Memory>
    ensures { OnOk result (out.new ≡ out.old ++ painted_page k page.now) }
{
    out.append(b"page ")?;
    put_number(out, k)?;
    out.append(b"\n")?;
    put_paints(out, page.paints.as_slice())
}

/// Adds the text of pages: a line `page k` for each, counted from 1, and a line for each of its paints. On an error,
/// part of the text was added.
pub fn put_pages(out: &mut Text, pages: &[PagePaint]) -> Result<(), Memory>
    ensures { OnOk result (out.new ≡ out.old ++ paint_text pages.now) }
{
    let mut k = 1;
    for page in pages {
        put_page(out, k, page)?;
        k += 1;
    }
    Ok(())
}
