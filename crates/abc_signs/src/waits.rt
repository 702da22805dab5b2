ghost use Rattle.std.specs.Prelude.{◌≡◌, ◌++◌, ◌∷◌, [], None, IfOk, OnOk};
ghost use Rattle.std.specs.List.{list_any};
ghost use Rattle.abc_signs.specs.Waits.{decos_in, is_annotation_above, mention_of, mentions_in, graces_in, has_slash};
ghost use Rattle.abc_signs.specs.Waits.{ending_after, pending_of, nothing_pending, no_changes, tells};

use crate::written::{Pending, StoredPending};
use abc_steps::copies::put_chords;
use abc_steps::force::changes_at;
use abc_steps::{InForce, PlacedStep, Step};
use mus_score::{Changes, Mention};
use mus_units::{Deco, Memory, Row, Text, put_decos};
use std::alloc::Global;

fn is_annotation_above(byte: u8) -> bool
    ensures { result ≡ is_annotation_above byte }
{
    byte == b'^' || (byte == b'<' || (byte == b'>' || byte == b'@'))
}

/// Returns a quoted text: whether it is below the staff, and the text without the character that says so.
fn mention(alloc: Global, text: &[u8]) -> Result<Mention, Memory>
    ensures { IfOk result (λ m. m ≡ mention_of text.now) }
{
    let (below, text) = match text {
        [first, rest @ ..] => {
            if is_annotation_above(*first) {
                (false, rest)
            } else if *first == b'_' {
                (true, rest)
            } else {
                (false, text)
            }
        }
        [] => (false, text),
    };
    Ok(Mention {
        below,
        text: Text::from_slice(alloc, text)?,
    })
}

#[tactic(auto, unfolding(crate::specs::Waits::has_slash))]
fn has_slash(s: &Step) -> bool
    ensures { result ≡ has_slash s.now }
{
    match s {
        Step::Grace { slash, body: _ } => *slash,
        _ => false,
    }
}

fn any_slash(waits: &[PlacedStep]) -> bool
    ensures { result ≡ list_any (λ s. has_slash s.step) waits.now }
{
    waits.iter().any(|s| has_slash(&s.step))
}

/// Adds what a step means for the event after it, except changes and slashes.
#[tactic(auto, unfolding(crate::specs::Waits::decos_in, crate::specs::Waits::mentions_in, //
crate::specs::Waits::ending_after, crate::specs::Waits::graces_in))]
fn put_waiting(alloc: Global, out: &mut Pending, s: &Step) -> Result<(), Memory>
    ensures changes { OnOk result (out.new.changes ≡ out.old.changes) }
    ensures decos { OnOk result (out.new.decos ≡ out.old.decos ++ decos_in s.now) }
    ensures mentions { OnOk result (out.new.mentions ≡ out.old.mentions ++ mentions_in s.now) }
    ensures ending { OnOk result (out.new.ending ≡ ending_after s.now out.old.ending) }
    ensures graces { OnOk result (out.new.graces ≡ out.old.graces ++ graces_in s.now) }
    ensures slash { OnOk result (out.new.slash ≡ out.old.slash) }
{
    match s {
        Step::Deco(deco) => out.decos.push(deco.get().copy(alloc)?)?,
        Step::Says(text) => out.mentions.push(mention(alloc, text.as_slice())?)?,
        Step::Ending(text) => out.ending = Some(text.copy(alloc)?),
        Step::Grace { slash: _, body } => put_chords(alloc, &mut out.graces, body.as_slice())?,
        _ => (),
    }
    Ok(())
}

/// Returns whether a step means something for the event after it.
#[tactic(auto, unfolding(crate::specs::Waits::tells))]
fn tells(s: &Step) -> bool
    ensures { result ≡ tells s.now }
{
    matches!(
        s,
        Step::Grace { .. }
            | Step::Ending(_)
            | Step::Deco(_)
            | Step::Says(_)
            | Step::Key(_)
            | Step::Meter(_)
            | Step::Clef(_)
    )
}

fn any_tells(waits: &[PlacedStep]) -> bool
    ensures { result ≡ list_any (λ s. tells s.step) waits.now }
{
    waits.iter().any(|s| tells(&s.step))
}

/// Gathers what is pending for an event.
#[inline(never)]
#[tactic(auto, unfolding(crate::specs::Waits::pending_of))]
fn gathered(
    alloc: Global,
    now: &InForce,
    waits: &[PlacedStep],
    inside: &[Deco],
) -> Result<StoredPending, Memory>
    ensures { IfOk result (λ w. w ≡ pending_of now.now waits.now inside.now) }
{
    let mut waiting = nothing_pending(alloc);
    waiting.changes = changes_at(alloc, now, waits)?;
    waiting.slash = any_slash(waits);
    for s in waits {
        put_waiting(alloc, &mut waiting, &s.step)?;
    }
    put_decos(alloc, &mut waiting.decos, inside)?;
    StoredPending::new(alloc, waiting)
}

/// Returns what is pending for an event, given what is in force there, the steps since the event before it, and the
/// decorations inside a chord.
#[inline(always)]
#[tactic(auto, using(crate::proofs::Idle::nothing_for))]
pub fn waiting_of(
    alloc: Global,
    now: &InForce,
    waits: &[PlacedStep],
    inside: &[Deco],
) -> Result<StoredPending, Memory>
    ensures { IfOk result (λ w. w ≡ pending_of now.now waits.now inside.now) }
{
    if inside.is_empty() && !any_tells(waits) {
        return Ok(StoredPending::nothing());
    }
    gathered(alloc, now, waits, inside)
}

/// Returns no changes.
pub fn no_changes() -> Changes
    ensures { result ≡ no_changes }
{
    Changes {
        clef: None,
        key: None,
        meter: None,
    }
}

/// Returns an empty `Pending`.
pub fn nothing_pending(alloc: Global) -> Pending
    ensures { result ≡ nothing_pending }
{
    Pending {
        changes: no_changes(),
        decos: Row::new(alloc),
        mentions: Row::new(alloc),
        ending: None,
        graces: Row::new(alloc),
        slash: false,
    }
}
