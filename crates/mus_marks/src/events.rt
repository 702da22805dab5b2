ghost use Rattle.std.specs.Prelude.{◌≡◌, ◌≤◌, ◌++◌, ◌||◌, drop, length, None, OnOk};
ghost use Rattle.mus_score.specs.Seats.{is_lower};
ghost use Rattle.mus_onsets.specs.Ranks.{AreRanked};
ghost use Rattle.mus_laid.specs.Ranked.{inked};
ghost use Rattle.mus_drawn.specs.Good.{AreGoodDrawn, IsGoodDrawn};
ghost use Rattle.mus_bridges.specs.Ends.{ended_events, event_ended};
ghost use Rattle.mus_slots.specs.Staff.{ink_with, slots_laid};
ghost use Rattle.mus_slots.specs.Voice.{change_slots, event_marks, events_slots, group_slots, levels_after, levels_in};
ghost use Rattle.mus_slots.specs.Voice.{written_of};
ghost use Rattle.mus_slots.specs.Words.{words_in};
ghost use Rattle.mus_marks.specs.Events.{changes_nothing};

use crate::silence::is_silent;
use crate::words::put_words_at;
use mus_bridges::{EndedEvents, end_at};
use mus_drawn::{DrawnEvent, raise_of};
use mus_ink::{StemEnd, group_of, put_change, put_grace, put_note};
use mus_laid::MarkPen;
use mus_onsets::{Class, ColumnKey};
use mus_score::{Changes, Flat};
use mus_stems::StemPlan;
use mus_time::note_key;
use mus_units::Memory;
use mus_words::TextPlace;

/// Where the words of a voice go, whose verses count from `first` on: to `place` in each of its columns, or nowhere.
#[derive(Clone, Copy)]
pub struct WordsAt {
    pub first: u8,
    pub place: Option<TextPlace>,
    pub ghost few: { first ≤ 240 },
}

/// Returns whether changes have neither clef nor key nor meter.
pub fn changes_nothing(changes: &Changes) -> bool
    ensures { result ≡ changes_nothing changes.now }
{
    changes.clef.is_none() && changes.key.is_none() && changes.meter.is_none()
}

/// Draws the change before an event, unless the head or the voice above draws it.
fn put_change_part(
    pen: &mut MarkPen,
    keys: &[ColumnKey],
    measure: u32,
    in_head: bool,
    e: &DrawnEvent<'_>,
) -> Result<(), Memory>
    requires keys { AreRanked keys.now }
    requires good { IsGoodDrawn e.now }
    ensures { OnOk result
        (pen.new.marks
        ≡ pen.old.marks ++ slots_laid keys.now None (change_slots measure (in_head || is_lower e.now.seat) e.now)) }
{
    if in_head || e.seat.is_lower() {
        return Ok(());
    }
    let changes = &e.flat.event().changes;
    if changes_nothing(changes) {
        return Ok(());
    }
    pen.go_to(keys, ColumnKey::new(measure, e.tick, Class::Change, 0));
    put_change(pen, e.clef, e.old.as_slice(), changes)
}

/// Draws the graces before an event, each in a column of its own.
fn put_graces(
    pen: &mut MarkPen,
    keys: &[ColumnKey],
    measure: u32,
    e: &DrawnEvent<'_>,
) -> Result<(), Memory>
    requires keys { AreRanked keys.now }
    requires good { IsGoodDrawn e.now }
    ensures { OnOk result (pen.new.marks ≡ pen.old.marks ++ slots_laid keys.now None (group_slots measure e.now)) }
{
    let graces = e.flat.graces.as_slice();
    let [_, ..] = graces else {
        return Ok(());
    };
    let group = group_of(e.clef, graces, e.flat.slash);
    for (i, grace) in graces.iter().enumerate() {
        pen.go_to(
            keys,
            ColumnKey::new(measure, e.tick, Class::Grace, i as u32),
        );
        put_grace(pen, e.clef, group, i == 0, grace)?;
    }
    Ok(())
}

/// Draws the words of an event in its column, if they have a place.
fn put_placed_words(pen: &mut MarkPen, words: WordsAt, flat: &Flat<'_>) -> Result<(), Memory>
    requires words { length flat.now.event.words ≤ 8 }
    ensures { OnOk result (pen.new ≡ inked pen.old (words_in words.place (written_of words.first flat.now))) }
{
    let Some(place) = words.place else {
        return Ok(());
    };
    if is_silent(flat) {
        return Ok(());
    }
    put_words_at(pen, place, words.first, flat)?;
    Ok(())
}

/// Draws an event in its column, its stem up to `to`, with its words if they have a place; `before` and `after` are
/// the levels of the events beside it in its beam.
fn put_event(
    pen: &mut MarkPen,
    words: WordsAt,
    before: u8,
    after: u8,
    to: i32,
    e: &DrawnEvent<'_>,
) -> Result<(), Memory>
    requires words { length e.now.flat.event.words ≤ 8 }
    ensures { OnOk result
        (pen.new
        ≡ inked pen.old
        (ink_with words.place (event_marks before after (event_ended to e.now)) (written_of words.first e.now.flat))) }
{
    let (event, plan) = (e.flat.event(), &e.plan);
    let raise = raise_of(e.seat);
    put_note(
        pen,
        e.clef,
        raise,
        event,
        plan,
        StemEnd { to, before, after },
    )?;
    put_placed_words(pen, words, &e.flat)
}

/// Returns the levels of an event that are in a plan's beam.
fn levels_in(plan: &StemPlan, group: u32, flags: u8) -> u8
    ensures { result ≡ levels_in plan.now group flags }
{
    if group == plan.group { flags } else { 0 }
}

/// Returns the levels of the next event that are in a plan's beam.
fn levels_after(plan: &StemPlan, following: &[DrawnEvent<'_>]) -> u8
    ensures { result ≡ levels_after plan.now following.now }
{
    match following {
        [] => 0,
        [next, ..] => levels_in(plan, next.plan.group, next.plan.flags),
    }
}

/// Returns the ends of the events after the first.
fn after_first(ends: &[i32]) -> &[i32]
    ensures { result.now ≡ drop 1 ends.now }
{
    match ends {
        [] => ends,
        [_, more @ ..] => more,
    }
}

/// Draws the events of a measure, each with the change and the graces before it; the first without its change if the
/// head draws that.
pub(crate) fn put_events(
    pen: &mut MarkPen,
    keys: &[ColumnKey],
    words: WordsAt,
    measure: u32,
    in_head: bool,
    events: EndedEvents<'_>,
) -> Result<(), Memory>
    requires keys { AreRanked keys.now }
    requires good { AreGoodDrawn events.events.now }
    ensures { OnOk result
        (pen.new.marks
        ≡ pen.old.marks
        ++ slots_laid keys.now words.place
        (events_slots words.first measure in_head 0 0 (ended_events events.entry))) }
{
    let EndedEvents {
        events: mut rest,
        mut ends,
    } = events;
    let (mut drawn, mut group, mut flags) = (in_head, 0, 0);
    while let [e, following @ ..] = rest {
        put_change_part(pen, keys, measure, drawn, e)?;
        put_graces(pen, keys, measure, e)?;
        let before = levels_in(&e.plan, group, flags);
        let after = levels_after(&e.plan, following);
        pen.go_to(keys, note_key(measure, e));
        let to = end_at(ends, 0, e);
        put_event(pen, words, before, after, to, e)?;
        drawn = false;
        group = e.plan.group;
        flags = e.plan.flags;
        rest = following;
        ends = after_first(ends);
    }
    Ok(())
}
