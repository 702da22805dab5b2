ghost use Rattle.std.specs.Prelude.{◌≡◌, OnOk};
ghost use Rattle.{mus_ink.specs.Bars.{bar_glyph, bar_marks}, mus_laid.specs.Ranked.{inked}};

use crate::drawing::put_glyph;
use mus_laid::MarkPen;
use mus_units::{Bar, Glyph, Memory};

/// Returns the glyph of a bar's body.
#[tactic(auto, unfolding(crate::specs::Bars::bar_glyph))]
fn body(bar: Bar) -> Glyph
    ensures { result ≡ bar_glyph bar }
{
    let left = bar.end || bar.last;
    let right = bar.start || bar.initial;
    if left && right {
        Glyph::Bb
    } else if left {
        Glyph::Bf
    } else if right {
        Glyph::Bi
    } else if bar.double {
        Glyph::Bw
    } else if bar.dotted {
        Glyph::Bo
    } else if bar.unseen {
        Glyph::Nn
    } else {
        Glyph::Bt
    }
}

/// Draws a bar: its body at dx 0 and dy 0, then the dots of a repeat that ends there, then those of a repeat that
/// begins there.
#[tactic(auto, unfolding(crate::specs::Bars::bar_marks))]
pub fn put_bar(pen: &mut MarkPen, bar: Bar) -> Result<(), Memory>
    ensures { OnOk result (pen.new ≡ inked pen.old (bar_marks bar)) }
{
    put_glyph(pen, body(bar), 0, 0)?;
    if bar.end {
        put_glyph(pen, Glyph::Dl, 0, 0)?;
    }
    if bar.start {
        put_glyph(pen, Glyph::Dr, 0, 0)?;
    }
    Ok(())
}
