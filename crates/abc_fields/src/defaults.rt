ghost use Rattle.std.specs.Prelude.{◌≡◌, IfOk, IfSome, Some, None};
ghost use Rattle.std.specs.Option.{option_copied, option_map};
ghost use Rattle.mus_units.specs.Good.{IsGoodMeter, IsGoodUnit};
ghost use Rattle.abc_fields.specs.Good.{IsGoodDefaults, GoodUnitIn};
ghost use Rattle.abc_fields.specs.declared.defaults.Defaults.{Defaults};
ghost use Rattle.abc_fields.specs.FileHeader.{AreDefaultsBy};
ghost use Rattle.abc_fields.specs.Defaults.{text_of, rest_named, said_by, line_meter, line_unit, line_breaks, line_of};
ghost use Rattle.abc_fields.specs.Defaults.{line_spread, line_staves, defaults_of};
ghost use Rattle.abc_field.specs.Last.{last_of};

use abc_field::directive::{Breaks, cut_name, read_breaks, read_spread};
use abc_field::meter::{read_meter, read_unit};
use abc_lines::{Book, Line, LineKind, field_text, kind_of};
use mus_units::bytes::is_same;
use mus_units::{Frac, Memory, Meter, Spread, Text};
use std::alloc::Global;

/// The file header's settings for every tune. If `unit` is `None`, each tune's own meter determines it. `staves` is
/// the line of the last `%%score`: its number and its text.
#[derive(Drop)]
pub struct Defaults {
    pub meter: Meter,
    pub unit: Option<Frac>,
    pub breaks: Breaks,
    pub spread: Spread,
    pub staves: Option<Line>,
}

/// The text of a `%%score` and the number of its line.
#[derive(Clone, Copy)]
pub(crate) struct StavesDirective<'a> {
    pub(crate) number: u32,
    pub(crate) text: &'a [u8],
}

impl StavesDirective<'_> {
    /// Returns it as an owned line.
    pub(crate) fn to_line(self, alloc: Global) -> Result<Line, Memory>
        ensures { IfOk result (λ line. line ≡ line_of self.entry.number self.entry.text.now) }
    {
        Ok(Line {
            number: self.number,
            text: Text::from_slice(alloc, self.text)?,
        })
    }
}

/// Returns the last good values in the file header, or else free meter, no unit, breaks at line ends and `$`, and
/// accidentals that apply in every octave; and its last `%%score`.
pub fn read_defaults(alloc: Global, book: &Book) -> Result<Defaults, Memory>
    ensures states { IfOk result (AreDefaultsBy book.now.header) }
    ensures only { IfOk result (λ d. (defaults : Defaults) → AreDefaultsBy book.now.header defaults → defaults ≡ d) }
    ensures value { IfOk result (λ d. d ≡ defaults_of book.now.header) }
    ensures good { IfOk result IsGoodDefaults }
{
    defaults_of(alloc, book)
}

fn defaults_of(alloc: Global, book: &Book) -> Result<Defaults, Memory>
    ensures value { IfOk result (λ d. d ≡ defaults_of book.now.header) }
    ensures good { IfOk result IsGoodDefaults }
{
    let lines = book.header.as_slice();
    Ok(Defaults {
        meter: last_meter(lines).unwrap_or(Meter::Free),
        unit: last_unit(lines),
        breaks: last_breaks(lines).unwrap_or(Breaks {
            eol: true,
            dollar: true,
            bang: false,
        }),
        spread: last_spread(lines).unwrap_or(Spread::Pitch),
        staves: last_staves(alloc, lines)?,
    })
}

/// Returns the line of the last `%%score`.
pub(crate) fn last_staves(alloc: Global, lines: &[Line]) -> Result<Option<Line>, Memory>
    ensures { IfOk result (λ last. last ≡ last_of line_staves lines.now) }
{
    match staves_said(lines) {
        Some(said) => Ok(Some(said.to_line(alloc)?)),
        None => Ok(None),
    }
}

/// Returns the text of the last `%%score`.
#[tactic(auto, unfolding(crate::specs::Defaults::line_staves))]
fn staves_said(lines: &[Line]) -> Option<StavesDirective<'_>>
    ensures { option_map (λ said. line_of said.number said.text.now) result ≡ last_of line_staves lines.now }
{
    let mut last = None;
    for line in lines {
        if let Some(text) = said_by(b"score", line) {
            last = Some(StavesDirective {
                number: line.number,
                text,
            });
        }
    }
    last
}

fn last_meter(lines: &[Line]) -> Option<Meter>
    ensures value { result ≡ last_of line_meter lines.now }
    ensures good { IfSome result (λ m. IsGoodMeter m) }
{
    let mut last = None;
    for line in lines {
        last = line_meter(line).or(last);
    }
    last
}

fn last_unit(lines: &[Line]) -> Option<Frac>
    ensures value { result ≡ last_of line_unit lines.now }
    ensures good { GoodUnitIn result }
{
    let mut last = None;
    for line in lines {
        last = line_unit(line).or(last);
    }
    last
}

fn last_breaks(lines: &[Line]) -> Option<Breaks>
    ensures { result ≡ last_of line_breaks lines.now }
{
    let mut last = None;
    for line in lines {
        last = line_breaks(line).or(last);
    }
    last
}

fn last_spread(lines: &[Line]) -> Option<Spread>
    ensures { result ≡ last_of line_spread lines.now }
{
    let mut last = None;
    for line in lines {
        last = line_spread(line).or(last);
    }
    last
}

#[tactic(auto, unfolding(crate::specs::Defaults::line_meter))]
fn line_meter(line: &Line) -> Option<Meter>
    ensures value { result ≡ line_meter line.now }
    ensures good { IfSome result (λ m. IsGoodMeter m) }
{
    match text_of(b'M', line) {
        Some(text) => read_meter(text),
        None => None,
    }
}

#[tactic(auto, unfolding(crate::specs::Defaults::line_unit))]
fn line_unit(line: &Line) -> Option<Frac>
    ensures value { result ≡ line_unit line.now }
    ensures good { GoodUnitIn result }
{
    match text_of(b'L', line) {
        Some(text) => read_unit(text),
        None => None,
    }
}

#[tactic(auto, unfolding(crate::specs::Defaults::line_breaks))]
fn line_breaks(line: &Line) -> Option<Breaks>
    ensures { result ≡ line_breaks line.now }
{
    match said_by(b"linebreak", line) {
        Some(rest) => read_breaks(rest),
        None => None,
    }
}

#[tactic(auto, unfolding(crate::specs::Defaults::line_spread))]
fn line_spread(line: &Line) -> Option<Spread>
    ensures { result ≡ line_spread line.now }
{
    match said_by(b"propagate-accidentals", line) {
        Some(rest) => read_spread(rest),
        None => None,
    }
}

/// Returns the text of a field if the line is one with that letter.
#[tactic(auto, unfolding(crate::specs::Defaults::text_of))]
pub(crate) fn text_of(letter: u8, line: &Line) -> Option<&[u8]>
    ensures { option_copied result ≡ text_of letter line.now.text }
{
    match kind_of(line) {
        LineKind::Field { letter: other } if other == letter => Some(field_text(line)),
        _ => None,
    }
}

/// Returns the text of a directive if the line is one with that name.
#[tactic(auto, unfolding(crate::specs::Defaults::said_by))]
pub(crate) fn said_by<'a>(name: &[u8], line: &'a Line) -> Option<&'a [u8]>
    ensures { option_copied result ≡ said_by name.now line.now.text }
{
    match kind_of(line) {
        LineKind::Directive => rest_named(name, field_text(line)),
        _ => None,
    }
}

fn rest_named<'a>(name: &[u8], text: &'a [u8]) -> Option<&'a [u8]>
    ensures { option_copied result ≡ rest_named name.now text.now }
{
    let (other, rest) = cut_name(text);
    if is_same(other, name) {
        Some(rest)
    } else {
        None
    }
}
