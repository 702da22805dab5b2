ghost use Rattle.std.specs.Prelude.{◌≡◌, ◌&&◌, ◌||◌, not, ◌==◌, IfOk, OnOk, map, find, fold, length};
ghost use Rattle.std.specs.Prelude.{unwrap_or, true, false};
ghost use Rattle.std.specs.List.{list_any};
ghost use Rattle.std.specs.Option.{option_copied};
ghost use Rattle.std.specs.Str.{bytes_eq};
ghost use Rattle.abc_items.specs.Voices.{claims, voice_one, ids_by_step, ids_after_item, declared_ids, voice_ids};
ghost use Rattle.abc_items.specs.Voices.{unnamed_of, declared, decides, clef_of_item, still_alone, first_clef};
ghost use Rattle.abc_items.specs.Voices.{clef_first, start_clef, wish_of_item, wish_if, declared_wish, start_stem};
ghost use Rattle.abc_items.specs.Voices.{start_of, starts_of};
ghost use Rattle.{abc_field.specs.Last.{last_of}, abc_fields.specs.Voicing.{with_id}};

use abc_field::VoiceDef;
use abc_fields::Header;
use abc_steps::{BodyItem, Step};
use mus_units::bytes::is_same;
use mus_units::{Clef, Memory, Row, Text, Wish};
use std::alloc::Global;

/// What a voice begins with: its id, its first clef, and the last stem direction that the tune names for it. Its key,
/// meter and unit length are the header's.
#[derive(Drop)]
pub struct VoiceStart {
    pub id: Text,
    pub clef: Clef,
    pub stem: Wish,
}

/// Returns whether a step establishes its voice, and its line as a line of that voice: spaces, line breaks, line ends
/// and fields don't.
#[tactic(auto, unfolding(crate::specs::Voices::claims))]
pub fn claims(step: &Step) -> bool
    ensures { result ≡ claims step.now }
{
    match step {
        Step::Space => false,
        Step::Break => false,
        Step::LineEnd => false,
        Step::Key(_) => false,
        Step::Meter(_) => false,
        Step::Unit(_) => false,
        Step::Clef(_) => false,
        _ => true,
    }
}

pub(crate) fn is_mentioned(ids: &[Text], id: &[u8]) -> bool
    ensures { result ≡ list_any (bytes_eq id.now) ids.now }
{
    ids.iter().any(|other| is_same(id, other.as_slice()))
}

/// Adds an id at the end unless it is already there.
pub(crate) fn mention(alloc: Global, ids: &mut Row<Text>, id: &[u8]) -> Result<(), Memory>
    ensures { OnOk result (ids.new ≡ with_id ids.old id.now) }
{
    if is_mentioned(ids.as_slice(), id) {
        return Ok(());
    }
    ids.push(Text::from_slice(alloc, id)?)
}

/// Returns the ids that the header declares, in order.
pub(crate) fn declared_ids(alloc: Global, header: &Header) -> Result<Row<Text>, Memory>
    ensures { IfOk result (λ ids. ids ≡ declared_ids header.now) }
{
    ids_in(alloc, header.voices.as_slice())
}

fn ids_in(alloc: Global, voices: &[VoiceDef]) -> Result<Row<Text>, Memory>
    ensures { IfOk result (λ ids. ids ≡ map (λ def. def.id) voices.now) }
{
    let mut ids = Row::new(alloc);
    for def in voices {
        ids.push(def.id.copy(alloc)?)?;
    }
    Ok(ids)
}

/// Adds the id that an item mentions.
#[inline(always)]
pub(crate) fn mention_item(
    alloc: Global,
    ids: &mut Row<Text>,
    item: &BodyItem,
) -> Result<(), Memory>
    ensures { OnOk result (ids.new ≡ ids_after_item ids.old item.now) }
{
    match item {
        BodyItem::Step(stood) => mention_step(alloc, ids, &stood.step),
        BodyItem::Voice { def, .. } => mention(alloc, ids, def.id.as_slice()),
        _ => Ok(()),
    }
}

#[inline(always)]
fn mention_step(alloc: Global, ids: &mut Row<Text>, step: &Step) -> Result<(), Memory>
    ensures { OnOk result (ids.new ≡ ids_by_step ids.old (claims step.now)) }
{
    if ids.len() == 0 && claims(step) {
        return ids.push(Text::from_slice(alloc, b"1")?);
    }
    Ok(())
}

/// Returns the ids of a tune's voices, in order of first mention.
fn voice_ids(alloc: Global, header: &Header, items: &[BodyItem]) -> Result<Row<Text>, Memory>
    ensures { IfOk result (λ ids. ids ≡ voice_ids header.now items.now) }
{
    let mut ids = declared_ids(alloc, header)?;
    for item in items {
        mention_item(alloc, &mut ids, item)?;
    }
    Ok(ids)
}

/// Returns the voice of the music before any voice field of the body.
pub fn unnamed_of(header: &Header) -> &[u8]
    ensures { result.now ≡ unnamed_of header.now }
{
    match header.voices.as_slice().split_first() {
        Some((def, _)) => def.id.as_slice(),
        None => b"1",
    }
}

fn declared<'a>(header: &'a Header, id: &[u8]) -> Option<&'a VoiceDef>
    ensures { option_copied result ≡ declared header.now id.now }
{
    header
        .voices
        .as_slice()
        .iter()
        .find(|def| is_same(def.id.as_slice(), id))
}

/// Returns whether an item decides the first clef of a voice.
fn decides(id: &[u8], alone: bool, item: &BodyItem) -> bool
    ensures { result ≡ decides id.now alone item.now }
{
    match item {
        BodyItem::Voice { def, .. } => is_same(def.id.as_slice(), id),
        BodyItem::Step(stood) => alone && claims(&stood.step) && is_same(id, b"1"),
        _ => false,
    }
}

fn clef_of_item(item: &BodyItem) -> Option<Clef>
    ensures { result ≡ clef_of_item item.now }
{
    match item {
        BodyItem::Voice { def, .. } => def.clef,
        _ => None,
    }
}

fn still_alone(alone: bool, item: &BodyItem) -> bool
    ensures { result ≡ still_alone alone item.now }
{
    match item {
        BodyItem::Voice { .. } => false,
        BodyItem::Step(stood) => alone && !claims(&stood.step),
        _ => alone,
    }
}

/// Returns the clef of the first voice field of an id, unless music without any voice comes before it.
fn first_clef(id: &[u8], undeclared: bool, items: &[BodyItem]) -> Option<Clef>
    ensures { result ≡ first_clef id.now undeclared items.now }
{
    let mut alone = undeclared;
    for item in items {
        if decides(id, alone, item) {
            return clef_of_item(item);
        }
        alone = still_alone(alone, item);
    }
    None
}

fn clef_first(header: &Header, items: &[BodyItem], id: &[u8]) -> Option<Clef>
    ensures { result ≡ clef_first header.now items.now id.now (declared header.now id.now) }
{
    match declared(header, id) {
        Some(def) => def.clef,
        None => first_clef(id, header.voices.len() == 0, items),
    }
}

fn wish_of_item(id: &[u8], item: &BodyItem) -> Option<Wish>
    ensures { result ≡ wish_of_item id.now item.now }
{
    match item {
        BodyItem::Voice { def, .. } if is_same(def.id.as_slice(), id) && def.asks => Some(def.stem),
        _ => None,
    }
}

fn last_wish(id: &[u8], items: &[BodyItem]) -> Option<Wish>
    ensures { result ≡ last_of (wish_of_item id.now) items.now }
{
    let mut last = None;
    for item in items {
        last = wish_of_item(id, item).or(last);
    }
    last
}

fn declared_wish(header: &Header, id: &[u8]) -> Wish
    ensures { result ≡ declared_wish (declared header.now id.now) }
{
    match declared(header, id) {
        Some(def) if def.asks => def.stem,
        _ => Wish::Auto,
    }
}

fn start_of(
    alloc: Global,
    header: &Header,
    items: &[BodyItem],
    id: &Text,
) -> Result<VoiceStart, Memory>
    ensures { IfOk result (λ start. start ≡ start_of header.now items.now id.now) }
{
    let clef = clef_first(header, items, id.as_slice()).unwrap_or(header.clef);
    let stem = last_wish(id.as_slice(), items).unwrap_or(declared_wish(header, id.as_slice()));
    Ok(VoiceStart {
        id: id.copy(alloc)?,
        clef,
        stem,
    })
}

/// Returns the voices of a tune in order of first mention, with what each begins with. A voice begins with the clef
/// of its declaration, or else with that of the voice field that mentions it first, or else with the header's.
pub fn voices_of(
    alloc: Global,
    header: &Header,
    items: &[BodyItem],
) -> Result<Row<VoiceStart>, Memory>
    ensures { IfOk result (λ starts. starts ≡ starts_of header.now items.now) }
{
    let ids = voice_ids(alloc, header, items)?;
    starts_in(alloc, header, items, ids.as_slice())
}

fn starts_in(
    alloc: Global,
    header: &Header,
    items: &[BodyItem],
    ids: &[Text],
) -> Result<Row<VoiceStart>, Memory>
    ensures { IfOk result (λ starts. starts ≡ map (start_of header.now items.now) ids.now) }
{
    let mut starts = Row::new(alloc);
    for id in ids {
        starts.push(start_of(alloc, header, items, id)?)?;
    }
    Ok(starts)
}
