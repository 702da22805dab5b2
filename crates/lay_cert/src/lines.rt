ghost use Rattle.std.specs.Prelude.{◌≡◌, ◌++◌, ◌∷◌, [], codes, decimal, OnOk, IfOk, Decides};
ghost use Rattle.lay_cert.specs.Lines.{line_text, sum_text};

use eng_lines::{put_named, put_next, put_number};
use lay_breaks::Span;
use mus_units::{Memory, Text};
use std::alloc::Global;

/// A line of a listing.
#[derive(Clone, Copy, PartialEq, Eq)]
pub enum ListingLine {
    /// The first line.
    Listing,
    /// The first line of a tune: its number in the book, and how many bars it has.
    Tune { tune: u32, bars: u32 },
    /// A span that fits.
    OneSpan(Span),
    /// A break that was chosen.
    Choose { bar: u32 },
    /// The total cost of the chosen spans.
    Total { total: u64 },
    /// The least sum of listed spans from 0 to a bar, or `None` if there is none.
    Potential { bar: u32, least: Option<u64> },
    /// The last line.
    End,
}

fn put_sum(out: &mut Text, sum: Option<u64>) -> Result<(), Memory>
    ensures { OnOk result (out.new ≡ out.old ++ sum_text sum) }
{
    match sum {
        Some(sum) => put_number(out, sum),
        None => out.append(b"none"),
    }
}

fn put_tune(out: &mut Text, tune: u32, bars: u32) -> Result<(), Memory>
    ensures { OnOk result
        (out.new ≡ out.old ++ codes "tune " ++ decimal tune ++ codes " measures " ++ decimal bars) }
{
    put_named(out, b"tune ", tune as u64)?;
    put_named(out, b" measures ", bars as u64)
}

fn put_span(out: &mut Text, span: Span) -> Result<(), Memory>
    ensures { OnOk result
        (out.new
        ≡ out.old ++ codes "span " ++ decimal span.a
        ++ (codes " " ++ decimal span.b ++ (codes " " ++ decimal span.badness))) }
{
    put_named(out, b"span ", span.a as u64)?;
    put_next(out, span.b as u64)?;
    put_next(out, span.badness)
}

fn put_potential(out: &mut Text, bar: u32, least: Option<u64>) -> Result<(), Memory>
    ensures { OnOk result (out.new ≡ out.old ++ codes "potential " ++ decimal bar ++ (codes " " ++ sum_text least)) }
{
    put_named(out, b"potential ", bar as u64)?;
    out.push(b' ')?;
    put_sum(out, least)
}

/// Adds a line at the end of the text, without a line feed.
pub fn put_text(out: &mut Text, line: ListingLine) -> Result<(), Memory>
    ensures { OnOk result (out.new ≡ out.old ++ line_text line) }
{
    match line {
        ListingLine::Listing => out.append(b"listing 1"),
        ListingLine::Tune { tune, bars } => put_tune(out, tune, bars),
        ListingLine::OneSpan(span) => put_span(out, span),
        ListingLine::Choose { bar } => put_named(out, b"choose ", bar as u64),
        ListingLine::Total { total } => put_named(out, b"total ", total),
        ListingLine::Potential { bar, least } => put_potential(out, bar, least),
        ListingLine::End => out.append(b"end"),
    }
}

/// Returns whether the bytes are the text of the line.
pub fn is_line(alloc: Global, bytes: &[u8], line: ListingLine) -> Result<bool, Memory>
    ensures { IfOk result (λ r. Decides r (bytes.now ≡ line_text line)) }
{
    let mut text = Text::new(alloc);
    put_text(&mut text, line)?;
    Ok(text.as_slice() == bytes)
}
