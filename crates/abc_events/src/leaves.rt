ghost use Rattle.std.specs.Prelude.{◌≡◌, ◌≤◌, ◌+◌, ◌++◌, ◌∷◌, [], List, map, length, replicate, unwrap_or, false, None};
ghost use Rattle.std.specs.Prelude.{IfOk, OnOk};
ghost use Rattle.std.specs.List.{All};
ghost use Rattle.mus_units.specs.Value.{value_length};
ghost use Rattle.abc_signs.specs.Signs.{with_tie};
ghost use Rattle.abc_events.specs.Leaves.{ends_at, first_part, later_head, later_part, some_more, later_parts, parts};
ghost use Rattle.abc_events.specs.Leaves.{node_of, grace_event, grace_note, grace_nodes, nodes_of, words_of_event};

use abc_music::GraceChord;
use abc_signs::{Pending, StoredPending, WrittenEvent, no_changes, nothing_pending, with_ties};
use mus_score::{Event, Look, Music};
use mus_units::{Base, Few, Head, Memory, Row, Text, Value, copy_optional_texts, ticks_of};
use std::alloc::Global;

/// The number of written events so far, and the id of the next part.
#[derive(Clone, Copy, PartialEq, Eq)]
pub struct Numbers {
    pub event: usize,
    pub id: u32,
}

impl Numbers {
    /// Advances past an event with this number of parts, and returns the numbers of that event.
    pub fn step_over(&mut self, parts: usize) -> Result<Numbers, Memory>
        ensures here { IfOk result (λ here. here ≡ self.old) }
        ensures event { OnOk result (self.new.event ≡ self.old.event + 1) }
        ensures id { OnOk result (self.new.id ≡ self.old.id + parts) }
    {
        let here = *self;
        self.id = id_after(here.id, parts)?;
        self.event = here.event.checked_add(1).ok_or(Memory)?;
        Ok(here)
    }
}

/// A written event of a voice, with what is pending for it, its words, and the id of its first part.
#[derive(Drop)]
pub struct VoiceEvent {
    pub written: WrittenEvent,
    pub waits: StoredPending,
    pub words: Row<Option<Text>>,
    pub id: u32,
}

/// What only the first part of a written event has: what is pending for the event, its words, and an id.
#[derive(Drop)]
struct FirstPart {
    waiting: Pending,
    words: Row<Option<Text>>,
    id: u32,
}

fn ends_at(w: &WrittenEvent, more: bool) -> u32
    ensures { result ≡ ends_at w.now more }
{
    if more { 0 } else { w.ends }
}

fn ticks_at(w: &WrittenEvent, value: Value) -> u64
    requires { value.dots ≤ 3 }
    ensures { result ≡ unwrap_or w.now.whole (value_length value) }
{
    w.whole.unwrap_or(ticks_of(value))
}

/// Returns the first part of a written event, with its heads, which are tied if there are more parts.
#[tactic(auto, unfolding(crate::specs::Leaves::first_part))]
fn first_part(
    w: &WrittenEvent,
    heads: Few<Head>,
    first: FirstPart,
    more: bool,
    value: Value,
) -> Event
    requires few { value.dots ≤ 3 }
    requires heads { heads ≡ map (with_tie more) w.now.heads }
    ensures { result ≡ first_part w.now first.waiting first.words first.id more value }
{
    let waiting = first.waiting;
    Event {
        id: first.id,
        heads,
        look: w.look,
        value,
        ticks: ticks_at(w, value),
        parted: w.parted,
        changes: waiting.changes,
        decos: waiting.decos,
        mentions: waiting.mentions,
        ending: waiting.ending,
        begins: w.begins,
        ends: ends_at(w, more),
        words: first.words,
    }
}

fn later_head(more: bool, head: Head) -> Head
    ensures { result ≡ later_head more head }
{
    Head {
        pitch: head.pitch,
        sign: None,
        tied: head.tied || more,
    }
}

fn later_row(alloc: Global, heads: &[Head], more: bool) -> Result<Row<Head>, Memory>
    ensures { IfOk result (λ r. r ≡ map (later_head more) heads.now) }
{
    let items = heads
        .iter()
        .map(|head| later_head(more, *head))
        .collect(alloc)?;
    Ok(Row { items })
}

fn later_heads(alloc: Global, heads: &[Head], more: bool) -> Result<Few<Head>, Memory>
    ensures { IfOk result (λ r. r ≡ map (later_head more) heads.now) }
{
    match heads {
        [head] => Ok(Few::one(later_head(more, *head))),
        _ => Ok(Few::from(later_row(alloc, heads, more)?)),
    }
}

/// Returns a list of empty words, one entry per verse.
fn no_words(alloc: Global, verses: usize) -> Result<Row<Option<Text>>, Memory>
    ensures { IfOk result (λ r. r ≡ replicate verses None) }
{
    let mut words = Row::new(alloc);
    for verse in 0..verses {
        words.push(None)?;
    }
    Ok(words)
}

#[tactic(auto, unfolding(crate::specs::Leaves::later_part))]
fn later_part(
    alloc: Global,
    w: &WrittenEvent,
    verses: usize,
    id: u32,
    more: bool,
    value: Value,
) -> Result<Event, Memory>
    requires { value.dots ≤ 3 }
    ensures { IfOk result (λ e. e ≡ later_part w.now verses id more value) }
{
    let heads = later_heads(alloc, w.heads.as_slice(), more)?;
    let words = no_words(alloc, verses)?;
    Ok(Event {
        id,
        heads,
        look: w.look,
        value,
        ticks: ticks_at(w, value),
        parted: false,
        changes: no_changes(),
        decos: Row::new(alloc),
        mentions: Row::new(alloc),
        ending: None,
        begins: 0,
        ends: ends_at(w, more),
        words,
    })
}

fn node_of(e: Event) -> Music
    ensures { result ≡ node_of e }
{
    match e.heads.as_slice() {
        [] => Music::Rest(e),
        _ => Music::Note(e),
    }
}

/// Returns the next id. Ids past 2^32 fail as out of memory.
fn next_id(id: u32) -> Result<u32, Memory>
    ensures { IfOk result (λ next. next ≡ id + 1) }
{
    id.checked_add(1).ok_or(Memory)
}

/// Returns the id `count` after another.
fn id_after(id: u32, count: usize) -> Result<u32, Memory>
    ensures { IfOk result (λ following. following ≡ id + count) }
{
    match u32::try_from(count) {
        Ok(count) => id.checked_add(count).ok_or(Memory),
        Err(_) => Err(Memory),
    }
}

fn some_more(values: &[Value]) -> bool
    ensures { result ≡ some_more values.now }
{
    !values.is_empty()
}

/// Adds the first part.
fn put_first(
    alloc: Global,
    nodes: &mut Row<Music>,
    w: &WrittenEvent,
    first: FirstPart,
    more: bool,
    value: Value,
) -> Result<(), Memory>
    requires { value.dots ≤ 3 }
    ensures { OnOk result
        (nodes.new ≡ nodes.old ++ node_of (first_part w.now first.waiting first.words first.id more value) ∷ []) }
{
    let heads = with_ties(alloc, w.heads.as_slice(), more)?;
    nodes.push(node_of(first_part(w, heads, first, more, value)))
}

/// Adds the parts after the first, which has this id.
fn put_later(
    alloc: Global,
    nodes: &mut Row<Music>,
    w: &WrittenEvent,
    verses: usize,
    id: u32,
    values: &[Value],
) -> Result<(), Memory>
    requires { All (λ v. v.dots ≤ 3) values.now }
    ensures { OnOk result (nodes.new ≡ nodes.old ++ map node_of (later_parts w.now verses (id + 1) values.now)) }
{
    let mut last = id;
    for i in 0..values.len() {
        let (_, others) = values.split_at(i + 1);
        last = next_id(last)?;
        let part = later_part(alloc, w, verses, last, some_more(others), values[i])?;
        nodes.push(node_of(part))?;
    }
    Ok(())
}

/// Returns the part of a written event that has only one.
#[inline(always)]
#[tactic(auto, using(crate::proofs::Heads::untied), unfolding(crate::specs::Leaves::first_part))]
fn only_part(w: WrittenEvent, first: FirstPart, value: Value) -> Event
    requires { value.dots ≤ 3 }
    ensures { result ≡ first_part w first.waiting first.words first.id false value }
{
    let ticks = ticks_at(&w, value);
    let waiting = first.waiting;
    Event {
        id: first.id,
        heads: w.heads,
        look: w.look,
        value,
        ticks,
        parted: w.parted,
        changes: waiting.changes,
        decos: waiting.decos,
        mentions: waiting.mentions,
        ending: waiting.ending,
        begins: w.begins,
        ends: w.ends,
        words: first.words,
    }
}

/// Adds the parts of a written event that may have more than one.
#[inline(never)]
fn put_several(
    alloc: Global,
    nodes: &mut Row<Music>,
    w: &WrittenEvent,
    first: FirstPart,
) -> Result<(), Memory>
    requires { All (λ v. v.dots ≤ 3) w.now.values }
    ensures { OnOk result
        (nodes.new ≡ nodes.old ++ map node_of (parts w.now first.waiting first.words first.id w.now.values)) }
{
    let [value, others @ ..] = w.values.as_slice() else {
        return Ok(());
    };
    let (id, verses) = (first.id, first.words.len());
    put_first(alloc, nodes, w, first, some_more(others), *value)?;
    put_later(alloc, nodes, w, verses, id, others)
}

#[tactic(auto, using(crate::proofs::Heads::untied), unfolding(crate::specs::Leaves::grace_event))]
fn grace_event(alloc: Global, heads: &[Head]) -> Result<Event, Memory>
    ensures { IfOk result (λ e. e ≡ grace_event heads.now) }
{
    let eighth = Value {
        base: Base::Eighth,
        dots: 0,
    };
    Ok(Event {
        id: 0,
        heads: with_ties(alloc, heads, false)?,
        look: Look::Seen,
        value: eighth,
        ticks: ticks_of(eighth),
        parted: false,
        changes: no_changes(),
        decos: Row::new(alloc),
        mentions: Row::new(alloc),
        ending: None,
        begins: 0,
        ends: 0,
        words: Row::new(alloc),
    })
}

fn grace_notes(alloc: Global, graces: &[GraceChord]) -> Result<Row<Music>, Memory>
    ensures { IfOk result (λ r. r ≡ map grace_note graces.now) }
{
    let mut notes = Row::new(alloc);
    for g in graces {
        notes.push(Music::Note(grace_event(alloc, g.heads.as_slice())?))?;
    }
    Ok(notes)
}

/// Adds the group of pending graces, if there is one.
#[inline(never)]
fn put_graces(
    alloc: Global,
    nodes: &mut Row<Music>,
    graces: &[GraceChord],
    slash: bool,
) -> Result<(), Memory>
    ensures { OnOk result (nodes.new ≡ nodes.old ++ grace_nodes graces.now slash) }
{
    if graces.is_empty() {
        return Ok(());
    }
    let body = grace_notes(alloc, graces)?;
    nodes.push(Music::Grace { body, slash })
}

/// Adds the graces pending for an event, and returns all that is pending for it.
#[inline(always)]
fn with_graces_put(
    alloc: Global,
    nodes: &mut Row<Music>,
    waits: StoredPending,
) -> Result<Pending, Memory>
    ensures waiting { IfOk result (λ waiting. waiting ≡ waits) }
    ensures graces { OnOk result (nodes.new ≡ nodes.old ++ grace_nodes waits.graces waits.slash) }
{
    if waits.is_nothing() {
        return Ok(nothing_pending(alloc));
    }
    let waiting = waits.whole(alloc);
    put_graces(alloc, nodes, waiting.graces.as_slice(), waiting.slash)?;
    Ok(waiting)
}

/// Returns the words of a written event.
pub fn words_of_event(
    alloc: Global,
    words: &[Row<Option<Text>>],
    event: usize,
) -> Result<Row<Option<Text>>, Memory>
    ensures { IfOk result (λ r. r ≡ words_of_event words.now event) }
{
    match words.get(event) {
        Some(row) => copy_optional_texts(alloc, row.as_slice()),
        None => Ok(Row::new(alloc)),
    }
}

/// Adds the parts of a written event.
#[inline(always)]
fn put_parts(
    alloc: Global,
    nodes: &mut Row<Music>,
    w: WrittenEvent,
    first: FirstPart,
) -> Result<(), Memory>
    requires { All (λ v. v.dots ≤ 3) w.values }
    ensures { OnOk result (nodes.new ≡ nodes.old ++ map node_of (parts w first.waiting first.words first.id w.values)) }
{
    match w.values.as_slice() {
        [value] => {
            let value = *value;
            nodes.push(node_of(only_part(w, first, value)))?;
            Ok(())
        }
        _ => put_several(alloc, nodes, &w, first),
    }
}

/// Adds the nodes of a written event: the group of its graces, and its parts.
pub fn put_nodes(alloc: Global, nodes: &mut Row<Music>, e: VoiceEvent) -> Result<(), Memory>
    requires { All (λ v. v.dots ≤ 3) e.written.values }
    ensures { OnOk result (nodes.new ≡ nodes.old ++ nodes_of e.written e.waits e.words e.id) }
{
    let first = FirstPart {
        waiting: with_graces_put(alloc, nodes, e.waits)?,
        words: e.words,
        id: e.id,
    };
    put_parts(alloc, nodes, e.written, first)
}
