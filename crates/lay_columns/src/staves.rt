ghost use Rattle.std.specs.Prelude.{◌≡◌, IfOk, map};
ghost use Rattle.{mus_score.specs.Seats.{grouped}, mus_marks.specs.{Staff.verses_on, System.is_drawn_lower}};

use mus_marks::{lower_count, verses_on};
use mus_time::DrawnScore;
use mus_units::{Memory, Row};
use std::alloc::Global;

/// Returns the number of verses of each staff of a drawn score, from the top.
pub fn staff_verses(alloc: Global, drawn: &DrawnScore<'_>) -> Result<Row<u8>, Memory>
    ensures { IfOk result (λ r. r ≡ map verses_on (grouped is_drawn_lower drawn.now.voices.now)) }
{
    let mut verses = Row::new(alloc);
    let mut rest = drawn.voices;
    'staves: while let [_, following @ ..] = rest {
        let count = lower_count(following) + 1;
        verses.push(verses_on(&rest[..count]))?;
        rest = &rest[count..];
    }
    Ok(verses)
}
