ghost use Rattle.std.specs.Prelude.{◌≡◌, ◌≤◌, ◌||◌, length, codes, not};
ghost use Rattle.std.specs.List.{prefix_len};
ghost use Rattle.abc_lines.specs.Kinds.{is_blank};
ghost use Rattle.abc_field.specs.Directives.{name_len, name_of, rest_of, has_word, names_breaks, breaks_of, spread_of};

use crate::words::{has_word, is_blank, is_same, trimmed};
use mus_units::Spread;

/// Which line breaks are on: line ends, `$` and `!`.
#[derive(Clone, Copy, PartialEq, Eq)]
pub struct Breaks {
    pub eol: bool,
    pub dollar: bool,
    pub bang: bool,
}

/// Returns the name of a directive, and its text.
#[tactic(auto, unfolding(crate::specs::Directives::name_of, crate::specs::Directives::rest_of))]
pub fn cut_name(text: &[u8]) -> (&[u8], &[u8])
    ensures name { result.0.now ≡ name_of text.now }
    ensures rest { result.1.now ≡ rest_of text.now }
{
    let (name, rest) = text.split_at(name_len(text));
    (name, trimmed(rest))
}

fn name_len(text: &[u8]) -> usize
    ensures value { result ≡ name_len text.now }
    ensures within { result ≤ length text.now }
{
    text.iter().take_while(|byte| !is_blank(**byte)).count()
}

/// Returns the line breaks that are listed, or `None` if there is no known word.
#[tactic(auto, unfolding(crate::specs::Directives::breaks_of))]
pub fn read_breaks(text: &[u8]) -> Option<Breaks>
    ensures { result ≡ breaks_of text.now }
{
    if names_breaks(text) {
        Some(Breaks {
            eol: has_word(text, b"<EOL>"),
            dollar: has_word(text, b"$"),
            bang: has_word(text, b"!"),
        })
    } else {
        None
    }
}

fn names_breaks(text: &[u8]) -> bool
    ensures { result ≡ names_breaks text.now }
{
    has_either(text, b"<EOL>", b"$") || has_either(text, b"!", b"<none>")
}

fn has_either(text: &[u8], one: &[u8], other: &[u8]) -> bool
    ensures { result ≡ (has_word text.now one.now || has_word text.now other.now) }
{
    has_word(text, one) || has_word(text, other)
}

/// Returns how far accidentals reach, by name.
#[tactic(auto, unfolding(crate::specs::Directives::spread_of))]
pub fn read_spread(text: &[u8]) -> Option<Spread>
    ensures { result ≡ spread_of text.now }
{
    if is_same(text, b"not") {
        Some(Spread::Not)
    } else if is_same(text, b"octave") {
        Some(Spread::Octave)
    } else if is_same(text, b"pitch") {
        Some(Spread::Pitch)
    } else {
        None
    }
}
