ghost use Rattle.std.specs.{Prelude.◌≡◌, Prelude.not, List.list_all, Option.is_none};
ghost use Rattle.mus_marks.specs.Silent.{is_text, is_silent, are_silent};

use mus_drawn::{DrawnEvent, DrawnMeasure};
use mus_score::Flat;
use mus_units::{Deco, Text};

/// Returns whether a decoration is a fingering or a dynamic mark.
fn is_text(deco: &Deco) -> bool
    ensures { result ≡ is_text deco.now }
{
    matches!(deco, Deco::Above(_) | Deco::Below(_))
}

fn have_no_text(decos: &[Deco]) -> bool
    ensures { result ≡ list_all (λ d. not (is_text d)) decos.now }
{
    decos.iter().all(|deco| !is_text(deco))
}

fn have_no_syllable(words: &[Option<Text>]) -> bool
    ensures { result ≡ list_all is_none words.now }
{
    words.iter().all(|word| word.is_none())
}

/// Returns whether an event has no syllables and no texts.
pub(crate) fn is_silent(flat: &Flat<'_>) -> bool
    ensures { result ≡ is_silent flat.now }
{
    let event = flat.event();
    event.ending.is_none()
        && flat.tuplets.is_empty()
        && event.mentions.is_empty()
        && have_no_syllable(event.words.as_slice())
        && have_no_text(event.decos.as_slice())
}

fn are_all_silent(events: &[DrawnEvent<'_>]) -> bool
    ensures { result ≡ list_all (λ e. is_silent e.flat) events.now }
{
    events.iter().all(|e| is_silent(&e.flat))
}

/// Returns whether the events of measures have no syllables and no texts.
pub(crate) fn are_silent(measures: &[DrawnMeasure<'_>]) -> bool
    ensures { result ≡ are_silent measures.now }
{
    measures.iter().all(|d| are_all_silent(d.events.as_slice()))
}
