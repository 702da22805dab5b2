ghost use Rattle.std.specs.{Prelude.◌≡◌, Prelude.not, List.list_all, Option.is_none};
ghost use Rattle.mus_score.specs.Plain.{is_plain_score, is_plain_body, is_plain_event, is_plain_node};

use crate::score::{Event, Measure, Music, Score, Voice};
use mus_units::{Head, Text};

fn are_untied(heads: &[Head]) -> bool
    ensures { result ≡ list_all (λ h. not h.tied) heads.now }
{
    heads.iter().all(|head| !head.tied)
}

fn are_silent(words: &[Option<Text>]) -> bool
    ensures { result ≡ list_all is_none words.now }
{
    words.iter().all(|word| word.is_none())
}

fn is_plain_event(e: &Event) -> bool
    ensures { result ≡ is_plain_event e.now }
{
    e.decos.is_empty()
        && e.mentions.is_empty()
        && e.ending.is_none()
        && e.begins == 0
        && e.ends == 0
        && are_untied(e.heads.as_slice())
        && are_silent(e.words.as_slice())
}

fn is_plain_node(m: &Music) -> bool
    ensures { result ≡ is_plain_node m.now }
{
    match m {
        Music::Note(e) => is_plain_event(e),
        Music::Rest(e) => is_plain_event(e),
        Music::Grace { body: _, slash: _ } => false,
        Music::Tuplet {
            p: _,
            q: _,
            body: _,
        } => false,
    }
}

fn is_plain_body(body: &[Music]) -> bool
    ensures { result ≡ is_plain_body body.now }
{
    body.iter().all(|m| is_plain_node(m))
}

fn are_plain(measures: &[Measure]) -> bool
    ensures { result ≡ list_all (λ m. is_plain_body m.body) measures.now }
{
    measures.iter().all(|m| is_plain_body(m.body.as_slice()))
}

fn are_plain_voices(voices: &[Voice]) -> bool
    ensures { result ≡ list_all (λ v. list_all (λ m. is_plain_body m.body) v.measures) voices.now }
{
    voices.iter().all(|v| are_plain(v.measures.as_slice()))
}

/// Returns whether a score is plain: it has no grace, tuplet, decoration, mention, ending, slur mark, tied head or
/// word. Takes no memory.
pub fn is_plain(s: &Score) -> bool
    ensures { result ≡ is_plain_score s.now }
{
    are_plain_voices(s.voices.as_slice())
}
