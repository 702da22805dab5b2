ghost use Rattle.std.specs.Prelude.{◌≡◌, ◌++◌, ◌∷◌, [], OnOk};
ghost use Rattle.{mus_words.specs.Words.{words, if_any, shown_text}, mus_laid.specs.Ranked.{inked}};

use mus_laid::{Ink, Lane, LaneInk, MarkPen, printed};
use mus_units::{Memory, Row, Size, Text};
use std::alloc::Global;

/// Draws a text of small characters.
pub(crate) fn put_words(
    pen: &mut MarkPen,
    lane: Lane,
    dx: i32,
    dy: i32,
    text: Text,
) -> Result<(), Memory>
    ensures { OnOk result (pen.new ≡ inked pen.old (words lane dx dy text ∷ [])) }
{
    let ink = Ink::Words {
        size: Size::Small,
        dx,
        dy,
        text,
    };
    pen.put(LaneInk { ink, lane })
}

fn add_if_any(out: &mut Row<Text>, text: Text) -> Result<(), Memory>
    ensures { OnOk result (out.new ≡ out.old ++ if_any text) }
{
    if text.len() == 0 {
        return Ok(());
    }
    out.push(text)
}

/// Adds the printed form of a text, unless it is empty.
pub(crate) fn add_shown(alloc: Global, out: &mut Row<Text>, text: &[u8]) -> Result<(), Memory>
    ensures { OnOk result (out.new ≡ out.old ++ shown_text text.now) }
{
    add_if_any(out, printed(alloc, text)?)
}
