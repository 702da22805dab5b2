ghost use Rattle.std.specs.Prelude.{◌≡◌, ◌++◌, OnOk};
ghost use Rattle.ps_text.specs.Prolog.{percent, first_text, box_start, procedures, page_start, page_end, last_text};
ghost use Rattle.ps_text.specs.Prolog.{box_line, scaling, page_line, glyph_lines, heading, prolog};

use crate::sheet::Frame;
use eng_lines::{put_named, put_next, put_number};
use glyph_paths::{all_glyphs, procedure};
use mus_units::{Glyph, Memory, Text};
use std::alloc::Global;

/// The first line of a document.
pub const FIRST: &[u8] = b"%!PS-Adobe-3.0\n";

/// The bounding box, up to the width.
pub const BOX: &[u8] = b"%%BoundingBox: 0 0 ";

/// From after the bounding box to the procedure that begins a page.
pub const PROCEDURES: &[u8] = b"%%LanguageLevel: 2\n\
      %%Pages: (atend)\n\
      %%EndComments\n\
      %%BeginProlog\n\
      /m {moveto} def\n\
      /l {lineto} def\n\
      /c {curveto} def\n\
      /h {closepath fill} def\n\
      /k {stroke} def\n\
      /sf {gsave translate 0 0 m l 0 500 m l 0 1000 m l 0 1500 m l 0 2000 m l stroke grestore} def\n\
      /vl {m l stroke} def\n\
      /st {gsave translate m l stroke grestore} def\n\
      /bu {gsave 280 0 translate m l l l h grestore} def\n\
      /bd {gsave -280 0 translate m l l l h grestore} def\n\
      /gb {gsave 190 0 translate m l l l h grestore} def\n\
      /ac {m c stroke} def\n\
      /t1 {gsave translate m show grestore} def\n\
      /t2 {gsave /EngFont findfont 1600 scalefont setfont translate m show grestore} def\n\
      /Courier findfont dup length dict begin {1 index /FID ne {def} {pop pop} ifelse} forall /Encoding \
      ISOLatin1Encoding def currentdict end /EngFont exch definefont pop\n";

/// The procedure that begins a page, up to the left margin.
pub const PAGE_START: &[u8] = b"/pg {gsave 0.01 0.01 scale ";

/// That procedure from after the scale.
pub const PAGE_END: &[u8] = b" scale 60 setlinewidth /EngFont findfont 900 scalefont setfont} def";

/// The last line of the prolog.
pub const LAST: &[u8] = b"%%EndProlog\n";

#[tactic(auto, unfolding(crate::specs::Prolog::first_text))]
fn first_bytes() -> &'static [u8]
    ensures { result.now ≡ first_text }
{
    FIRST
}

#[tactic(auto, unfolding(crate::specs::Prolog::box_start))]
fn box_bytes() -> &'static [u8]
    ensures { result.now ≡ box_start }
{
    BOX
}

#[tactic(auto, unfolding(crate::specs::Prolog::procedures))]
fn procedure_bytes() -> &'static [u8]
    ensures { result.now ≡ procedures }
{
    PROCEDURES
}

#[tactic(auto, unfolding(crate::specs::Prolog::page_start))]
fn page_start_bytes() -> &'static [u8]
    ensures { result.now ≡ page_start }
{
    PAGE_START
}

#[tactic(auto, unfolding(crate::specs::Prolog::page_end))]
fn page_end_bytes() -> &'static [u8]
    ensures { result.now ≡ page_end }
{
    PAGE_END
}

#[tactic(auto, unfolding(crate::specs::Prolog::last_text))]
fn last_bytes() -> &'static [u8]
    ensures { result.now ≡ last_text }
{
    LAST
}

/// Adds a percent as a number with two decimals.
#[tactic(auto, unfolding(crate::specs::Prolog::percent))]
fn put_percent(out: &mut Text, p: u16) -> Result<(), Memory>
    ensures { OnOk result (out.new ≡ out.old ++ percent p) }
{
    put_number(out, u64::from(p / 100))?;
    out.push(b'.')?;
    out.push(b'0' + (p / 10 % 10) as u8)?;
    out.push(b'0' + (p % 10) as u8)
}

#[tactic(auto, unfolding(crate::specs::Prolog::box_line))]
fn put_box(out: &mut Text, wide: u32, high: u32) -> Result<(), Memory>
    ensures { OnOk result (out.new ≡ out.old ++ box_line wide high) }
{
    put_named(out, box_bytes(), u64::from(wide))?;
    put_next(out, u64::from(high))
}

#[tactic(auto, unfolding(crate::specs::Prolog::scaling))]
fn put_scaling(out: &mut Text, left: u32, bottom: u32, scale: u16) -> Result<(), Memory>
    ensures { OnOk result (out.new ≡ out.old ++ scaling left bottom scale) }
{
    put_number(out, u64::from(left))?;
    put_next(out, u64::from(bottom))?;
    out.append(b" translate ")?;
    put_percent(out, scale)?;
    out.push(b' ')?;
    put_percent(out, scale)
}

/// Adds the line that defines how a page begins, without its LF.
#[tactic(auto, unfolding(crate::specs::Prolog::page_line))]
pub fn put_page_line(out: &mut Text, left: u32, bottom: u32, scale: u16) -> Result<(), Memory>
    ensures { OnOk result (out.new ≡ out.old ++ page_line left bottom scale) }
{
    out.append(page_start_bytes())?;
    put_scaling(out, left, bottom, scale)?;
    out.append(page_end_bytes())
}

/// Adds the lines that define glyphs.
#[tactic(auto, unfolding(crate::specs::Prolog::glyph_lines))]
pub fn put_glyphs(alloc: Global, out: &mut Text, glyphs: &[Glyph]) -> Result<(), Memory>
    ensures { OnOk result (out.new ≡ out.old ++ glyph_lines glyphs.now) }
{
    for g in glyphs {
        let line = procedure(alloc, *g)?;
        out.append(line.as_slice())?;
        out.push(b'\n')?;
    }
    Ok(())
}

#[tactic(auto, unfolding(crate::specs::Prolog::heading))]
fn put_heading(out: &mut Text, frame: &Frame) -> Result<(), Memory>
    ensures { OnOk result (out.new ≡ out.old ++ heading frame.now) }
{
    out.append(first_bytes())?;
    put_box(out, frame.wide, frame.high)?;
    out.push(b'\n')
}

/// Adds the prolog of a document, up to and including the line `%%EndProlog`.
#[tactic(auto, unfolding(crate::specs::Prolog::prolog))]
pub fn put_prolog(alloc: Global, out: &mut Text, frame: &Frame) -> Result<(), Memory>
    ensures { OnOk result (out.new ≡ out.old ++ prolog frame.now) }
{
    put_heading(out, frame)?;
    out.append(procedure_bytes())?;
    put_page_line(out, frame.left, frame.bottom, frame.scale)?;
    out.push(b'\n')?;
    put_glyphs(alloc, out, all_glyphs())?;
    out.append(last_bytes())
}
