ghost use Rattle.std.specs.Prelude.{◌≡◌, ◌+◌, ◌≤◌, ◌<◌, length, OnOk};
ghost use Rattle.mus_laid.specs.Printed.{printed};
ghost use Rattle.mus_laid.specs.Ranked.{inked};
ghost use Rattle.mus_words.specs.Syllables.{syllable_dx, verse_dy, syllable, syllable_if, syllables_from};

use crate::words::put_words;
use mus_ink::distances::{HALF_CHARACTER, VERSE_STEP};
use mus_ink::drawing::cut_dy;
use mus_laid::{Lane, MarkPen, printed};
use mus_units::{Memory, Text};

/// Returns the dx of a syllable with this number of characters.
#[tactic(auto, unfolding(crate::specs::Syllables::syllable_dx))]
fn syllable_dx(count: usize) -> i32
    requires { count ≤ 60 }
    ensures { result ≡ syllable_dx count }
{
    -HALF_CHARACTER * count as i32
}

/// Returns the dy of the syllables of a verse; verses are counted from 0.
#[tactic(auto, unfolding(crate::specs::Syllables::verse_dy))]
fn verse_dy(low: i32, verse: u8) -> i32
    ensures { result ≡ verse_dy low verse }
{
    cut_dy(i64::from(low) - VERSE_STEP * (i64::from(verse) + 1))
}

/// Draws the printed form of a syllable.
fn put_syllable(pen: &mut MarkPen, low: i32, verse: u8, text: Text) -> Result<(), Memory>
    requires { length text ≤ 60 }
    ensures { OnOk result (pen.new ≡ inked pen.old (syllable low verse text)) }
{
    if text.len() == 0 {
        return Ok(());
    }
    let dx = syllable_dx(text.len());
    put_words(pen, Lane::Verse(verse), dx, verse_dy(low, verse), text)
}

fn put_syllable_if(
    pen: &mut MarkPen,
    low: i32,
    verse: u8,
    word: &Option<Text>,
) -> Result<(), Memory>
    ensures { OnOk result (pen.new ≡ inked pen.old (syllable_if low verse word.now)) }
{
    match word {
        None => Ok(()),
        Some(text) => put_syllable(pen, low, verse, printed(pen.alloc, text.as_slice())?),
    }
}

/// Draws the syllables of an event. `words` has a place for each verse from `first` on. Verses are counted from 0, and
/// those of verse n are 1000·(n + 1) u below `low`, the least dy that other marks take, each centred at its column. A
/// syllable that prints nothing is no mark. Each dy is clamped to ±2^30 u. The only error is out of memory.
pub fn put_syllables(
    pen: &mut MarkPen,
    first: u8,
    low: i32,
    words: &[Option<Text>],
) -> Result<(), Memory>
    requires { first + length words.now < 256 }
    ensures { OnOk result (pen.new ≡ inked pen.old (syllables_from low first words.now)) }
{
    let mut verse = first;
    for word in words {
        put_syllable_if(pen, low, verse, word)?;
        verse += 1;
    }
    Ok(())
}
