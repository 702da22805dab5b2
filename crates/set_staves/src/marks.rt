ghost use Rattle.std.specs.Prelude.{◌≡◌, ◌<◌, All, IfOk, length, map};
ghost use Rattle.ps_text.specs.Range.{IsPageMark, IsWords};
ghost use Rattle.law_marks_in_range.specs.Ranks.{AreMarksRanked, IsRanked};
ghost use Rattle.law_marks_in_range.specs.Texts.{HasPrinted, HavePrinted, IsPrinted};
ghost use Rattle.set_staves.specs.{Drawn.IsOnPage, Marks.RisesAlong, Marks.page_mark, Marks.x_at};

use mus_laid::{Laid, Mark};
use mus_units::{Memory, Row, Text};
use ps_text::PageMark;
use std::alloc::Global;

/// Returns where the column of a rank is.
fn x_at(at: &[i64], rank: u32) -> i64
    requires { rank < length at.now }
    ensures { result ≡ x_at at.now rank }
{
    at[rank as usize]
}

/// Returns words as a page has them, if their text can be printed.
pub fn page_words(alloc: Global, text: &[u8]) -> Result<Text, Memory>
    requires { IsPrinted text.now }
    ensures value { IfOk result (λ words. words ≡ text.now) }
    ensures good { IfOk result IsWords }
{
    Text::from_slice(alloc, text)
}

/// Returns a mark where its columns are, on a staff at `y`.
fn page_mark(alloc: Global, at: &[i64], y: i64, mark: &Mark) -> Result<PageMark, Memory>
    requires height { IsOnPage y }
    requires numbers { All IsOnPage at.now }
    requires rise { RisesAlong at.now }
    requires ranked { IsRanked (length at.now) mark.now }
    requires printed { HasPrinted mark.now }
    ensures value { IfOk result (λ placed. placed ≡ page_mark at.now mark.now) }
    ensures good { IfOk result (IsPageMark y) }
{
    match mark {
        Mark::Glyph {
            glyph,
            rank,
            dx,
            dy,
        } => Ok(PageMark::Glyph {
            glyph: *glyph,
            x: x_at(at, *rank),
            dx: *dx,
            dy: *dy,
        }),
        Mark::Words {
            size,
            rank,
            dx,
            dy,
            text,
        } => Ok(PageMark::Words {
            size: *size,
            x: x_at(at, *rank),
            dx: *dx,
            dy: *dy,
            text: page_words(alloc, text.as_slice())?,
        }),
        Mark::Stem { rank, dx, from, to } => Ok(PageMark::Stem {
            x: x_at(at, *rank),
            dx: *dx,
            from: *from,
            to: *to,
        }),
        Mark::Beam {
            way,
            first,
            last,
            from,
            to,
        } => Ok(PageMark::Beam {
            way: *way,
            x1: x_at(at, *first),
            x2: x_at(at, *last),
            from: *from,
            to: *to,
        }),
        Mark::Arc {
            first,
            last,
            from,
            to,
            bulge,
        } => Ok(PageMark::Arc {
            x1: x_at(at, *first),
            x2: x_at(at, *last),
            from: *from,
            to: *to,
            bulge: *bulge,
        }),
    }
}

/// Returns the marks of a staff at `y` where their columns are.
pub fn place_marks(
    alloc: Global,
    at: &[i64],
    y: i64,
    marks: &[Laid],
) -> Result<Row<PageMark>, Memory>
    requires height { IsOnPage y }
    requires numbers { All IsOnPage at.now }
    requires rise { RisesAlong at.now }
    requires ranked { AreMarksRanked (length at.now) marks.now }
    requires printed { HavePrinted marks.now }
    ensures value { IfOk result (λ all. all ≡ map (λ laid. page_mark at.now laid.mark) marks.now) }
    ensures good { IfOk result (All (IsPageMark y)) }
{
    let mut placed = Row::with_room(alloc, marks.len())?;
    for laid in marks {
        placed.push(page_mark(alloc, at, y, &laid.mark)?)?;
    }
    Ok(placed)
}
