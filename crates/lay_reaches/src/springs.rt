ghost use Rattle.std.specs.{Prelude.◌≡◌, List.find};
ghost use Rattle.lay_reaches.specs.Naturals.{natural_for, is_note_key, is_note_of, length_of_measure, tick_or_end};
ghost use Rattle.lay_reaches.specs.Naturals.{natural_of};

use crate::distances::{
    BREVE_LENGTH, EIGHTH_LENGTH, HALF_LENGTH, LEAST_LENGTH, LENGTH_OF_16TH, LENGTH_OF_32ND,
    LENGTH_OF_64TH, QUARTER_LENGTH, WHOLE_LENGTH,
};
use mus_onsets::{Class, ColumnKey};
use mus_units::WHOLE;

/// Returns the natural length for some ticks: that of the greatest row that isn't above them.
fn natural_for(ticks: u64) -> u32
    ensures { result ≡ natural_for ticks }
{
    if ticks >= 2 * WHOLE {
        BREVE_LENGTH
    } else if ticks >= WHOLE {
        WHOLE_LENGTH
    } else if ticks >= WHOLE / 2 {
        HALF_LENGTH
    } else if ticks >= WHOLE / 4 {
        QUARTER_LENGTH
    } else if ticks >= WHOLE / 8 {
        EIGHTH_LENGTH
    } else if ticks >= WHOLE / 16 {
        LENGTH_OF_16TH
    } else if ticks >= WHOLE / 32 {
        LENGTH_OF_32ND
    } else if ticks >= WHOLE / 64 {
        LENGTH_OF_64TH
    } else {
        LEAST_LENGTH
    }
}

fn is_note_key(key: ColumnKey) -> bool
    ensures { result ≡ is_note_key key }
{
    matches!(key.class, Class::Note)
}

fn is_note_of(measure: u32, key: ColumnKey) -> bool
    ensures { result ≡ is_note_of measure key }
{
    is_note_key(key) && key.measure == measure
}

fn next_note(measure: u32, following: &[ColumnKey]) -> Option<ColumnKey>
    ensures { result ≡ find (is_note_of measure) following.now }
{
    for key in following {
        if is_note_of(measure, *key) {
            return Some(*key);
        }
    }
    None
}

fn length_of_measure(lengths: &[u64], measure: u32) -> u64
    ensures { result ≡ length_of_measure lengths.now measure }
{
    lengths.get(measure as usize).copied().unwrap_or(0)
}

fn tick_or_end(measure: u32, next: Option<ColumnKey>, lengths: &[u64]) -> u64
    ensures { result ≡ tick_or_end measure next lengths.now }
{
    match next {
        Some(next) => next.tick,
        None => length_of_measure(lengths, measure),
    }
}

/// Returns the natural length of the spring from a column to the next. It depends on the ticks from
/// a note column to the next one of its measure, or else to the measure's end. It is 0 for all
/// other columns.
pub(crate) fn natural_of(key: ColumnKey, following: &[ColumnKey], lengths: &[u64]) -> u32
    ensures { result ≡ natural_of key following.now lengths.now }
{
    if is_note_key(key) {
        let end = tick_or_end(key.measure, next_note(key.measure, following), lengths);
        natural_for(end.saturating_sub(key.tick))
    } else {
        0
    }
}
