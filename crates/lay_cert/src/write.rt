ghost use Rattle.std.specs.Prelude.{◌≡◌, ◌+◌, ◌++◌, ◌∷◌, [], ℕ, List, Option, map, length, ◌<◌, ◌^◌, OnOk};
ghost use Rattle.lay_cert.specs.Laws.{InParts, ForcedBySpans};
ghost use Rattle.lay_cert.specs.Lines.{line_text, lines_then};
ghost use Rattle.lay_cert.specs.Listing.{entry_lines, potential_lines};
ghost use Rattle.lay_cert.specs.declared.lines.ListingLine.TheVariants as line;

use crate::lines::{ListingLine, put_text};
use lay_breaks::{Breaking, Span};
use mus_units::{Memory, Text};

/// Adds a line and its line feed at the end of the text.
pub fn put_line(out: &mut Text, line: ListingLine) -> Result<(), Memory>
    ensures { OnOk result (out.new ≡ out.old ++ lines_then (line ∷ []) []) }
{
    put_text(out, line)?;
    out.push(b'\n')
}

fn put_spans(out: &mut Text, spans: &[Span]) -> Result<(), Memory>
    ensures { OnOk result (out.new ≡ out.old ++ lines_then (map line.OneSpan spans.now) []) }
{
    for span in spans.iter() {
        put_line(out, ListingLine::OneSpan(*span))?;
    }
    Ok(())
}

fn put_breaks(out: &mut Text, breaks: &[u32]) -> Result<(), Memory>
    ensures { OnOk result (out.new ≡ out.old ++ lines_then (map line.Choose breaks.now) []) }
{
    for bar in breaks.iter() {
        put_line(out, ListingLine::Choose { bar: *bar })?;
    }
    Ok(())
}

fn put_potentials(out: &mut Text, potentials: &[Option<u64>]) -> Result<(), Memory>
    requires { length potentials.now < 2 ^ 32 }
    ensures { OnOk result (out.new ≡ out.old ++ lines_then (potential_lines 0 potentials.now) []) }
{
    let mut bar: u32 = 0;
    for least in potentials.iter() {
        put_line(out, ListingLine::Potential { bar, least: *least })?;
        bar += 1;
    }
    Ok(())
}

/// Adds the first line of a listing.
pub fn put_heading(out: &mut Text) -> Result<(), Memory>
    ensures { OnOk result (out.new ≡ out.old ++ lines_then (line.Listing ∷ []) []) }
{
    put_line(out, ListingLine::Listing)
}

/// Adds the lines of one tune: its number and bars, the spans that fit, sorted by where they begin and then by where
/// they end, and what was chosen among them.
pub fn put_entry(
    out: &mut Text,
    tune: u32,
    bars: u32,
    spans: &[Span],
    breaking: &Breaking,
) -> Result<(), Memory>
    requires few { length breaking.now.potentials < 2 ^ 32 }
    ensures { OnOk result (out.new ≡ out.old ++ lines_then (entry_lines (record {
      tune = tune;
      bars = bars;
      spans = spans.now;
      breaks = breaking.now.breaks;
      total = breaking.now.total;
      potentials = breaking.now.potentials;
    })) []) }
{
    put_line(out, ListingLine::Tune { tune, bars })?;
    put_spans(out, spans)?;
    put_breaks(out, breaking.breaks.as_slice())?;
    put_line(
        out,
        ListingLine::Total {
            total: breaking.total,
        },
    )?;
    put_potentials(out, breaking.potentials.as_slice())?;
    Ok(())
}

/// Adds the last line of a listing.
pub fn put_end(out: &mut Text) -> Result<(), Memory>
    ensures { OnOk result (out.new ≡ out.old ++ lines_then (line.End ∷ []) []) }
{
    put_line(out, ListingLine::End)
}

/// The law that a listing is its first line, the lines of each tune, and its last line.
pub fn in_parts()
    ensures { InParts }
{}

/// The law that, if no span passes a forced bar, the legal breakings are the breakings of those spans: a listing need
/// not say which bars are forced.
pub fn forced_by_spans()
    ensures { ForcedBySpans }
{}
