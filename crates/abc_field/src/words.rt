//! Words of a text, separated by spaces and tabs.

ghost use Rattle.std.specs.Prelude.{◌≡◌, ◌≤◌, length, false};
ghost use Rattle.std.specs.Option.{option_map, option_copied};
ghost use Rattle.std.specs.List.{prefix_len, suffix_len, list_any, starts_with};
ghost use Rattle.std.specs.Str.{bytes_eq};
ghost use Rattle.abc_lines.specs.Kinds.{is_blank, after_blanks};
ghost use Rattle.abc_field.specs.Words.{word_len, quoted_after, parts_words, word_and_rest, next_word, trimmed};
ghost use Rattle.abc_field.specs.Words.{ends_quoted, words_of, words_in, words_after, after_prefix};

pub use mus_units::bytes::{is_blank, is_same};
use mus_units::bytes::{after_blanks, trimmed as between_blanks};

/// Returns the text without the blanks at both ends.
#[tactic(auto, unfolding(crate::specs::Words::trimmed))]
pub fn trimmed(text: &[u8]) -> &[u8]
    ensures { result.now ≡ trimmed text.now }
{
    between_blanks(text)
}

/// Returns the first word and the rest after it, or `None` if there are only blanks. If quotes count, blanks between
/// two quotes are part of a word.
#[tactic(auto, using(crate::proofs::WordLaws::words_next_is))]
pub fn next_word(quotes: bool, text: &[u8]) -> Option<(&[u8], &[u8])>
    ensures read { option_map (λ w. (w.0.now, w.1.now)) result ≡ next_word quotes text.now }
    ensures words { words_in quotes text.now ≡ words_after quotes (option_map (λ w. (w.0.now, w.1.now)) result) }
{
    cut_word(quotes, text)
}

#[tactic(auto, unfolding(crate::specs::Words::next_word))]
fn cut_word(quotes: bool, text: &[u8]) -> Option<(&[u8], &[u8])>
    ensures read { option_map (λ w. (w.0.now, w.1.now)) result ≡ next_word quotes text.now }
{
    word_and_rest(quotes, after_blanks(text))
}

fn word_and_rest(quotes: bool, text: &[u8]) -> Option<(&[u8], &[u8])>
    ensures read { option_map (λ w. (w.0.now, w.1.now)) result ≡ word_and_rest quotes text.now }
{
    if text.is_empty() {
        None
    } else {
        Some(text.split_at(word_len(quotes, text)))
    }
}

/// Returns the length of the first word.
fn word_len(quotes: bool, text: &[u8]) -> usize
    ensures value { result ≡ word_len quotes false text.now }
    ensures within { result ≤ length text.now }
{
    let mut quoted = false;
    for (i, byte) in text.iter().enumerate() {
        if parts_words(quoted, *byte) {
            return i;
        }
        quoted = quoted_after(quotes, quoted, *byte);
    }
    text.len()
}

fn parts_words(quoted: bool, byte: u8) -> bool
    ensures { result ≡ parts_words quoted byte }
{
    is_blank(byte) && !quoted
}

/// Returns whether the position after this byte is between quotes.
fn quoted_after(quotes: bool, quoted: bool, byte: u8) -> bool
    ensures { result ≡ quoted_after quotes quoted byte }
{
    if quotes && byte == b'"' {
        !quoted
    } else {
        quoted
    }
}

/// Returns whether a quote is open at the end.
pub fn ends_quoted(text: &[u8]) -> bool
    ensures { result ≡ ends_quoted false text.now }
{
    let mut quoted = false;
    for byte in text {
        quoted = quoted_after(true, quoted, *byte);
    }
    quoted
}

/// Returns whether a word is one of the words of the text.
pub fn has_word(text: &[u8], word: &[u8]) -> bool
    ensures { result ≡ list_any (λ w. bytes_eq w word.now) (words_of text.now) }
{
    let mut rest = text;
    while let Some((next, others)) = next_word(false, rest) {
        if is_same(next, word) {
            return true;
        }
        rest = others;
    }
    false
}

/// Returns the rest after a prefix, if the text begins with it.
#[tactic(auto, unfolding(crate::specs::Words::after_prefix))]
pub fn after_prefix<'a>(text: &'a [u8], leading: &[u8]) -> Option<&'a [u8]>
    ensures { option_copied result ≡ after_prefix leading.now text.now }
{
    if text.starts_with(leading) {
        Some(&text[leading.len()..])
    } else {
        None
    }
}
