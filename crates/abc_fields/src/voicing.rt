//! The voices that fields name, in order of first mention.

ghost use Rattle.std.specs.Prelude.{◌≡◌, length, map, IfOk, OnOk, [], is_some, unwrap_or};
ghost use Rattle.abc_field.specs.Last.{last_of};
ghost use Rattle.abc_fields.specs.Voicing.{with_id, ids_after, clef_for, wish_for, voice_from};

use abc_field::field::Field;
use abc_field::voice::VoiceDef;
use indexmap::IndexSet;
use mus_units::bytes::is_same;
use mus_units::{Clef, Memory, Row, Text, Wish};
use std::alloc::Global;
use std::marker::Model;

/// The ids that fields have mentioned, each once, in order of first mention.
#[derive(Drop)]
pub(crate) struct VoiceIds {
    set: IndexSet<Vec<u8>>,
}

impl Model for VoiceIds {
    ghost use Rattle.std.specs.Prelude.{List, ℕ, map};

    ghost Value = { List (List ℕ) };

    ghost view = { λ v. map (λ id. id.items) v.set.keys };
}

impl VoiceIds {
    /// Returns an empty list of ids.
    pub(crate) fn new(alloc: Global) -> VoiceIds
        ensures { result ≡ [] }
    {
        VoiceIds {
            set: IndexSet::new(alloc),
        }
    }

    /// Returns the number of ids.
    pub(crate) fn len(&self) -> usize
        ensures { result ≡ length self.now }
    {
        self.set.as_slice().len()
    }

    /// Adds an id at the end unless it is already there.
    pub(crate) fn mention(&mut self, alloc: Global, id: &[u8]) -> Result<(), Memory>
        ensures { OnOk result (self.new ≡ with_id self.old id.now) }
    {
        let key = Vec::from_slice(alloc, id)?;
        self.set.insert(key)?;
        Ok(())
    }
}

/// Adds the id that a field mentions.
pub(crate) fn mention(alloc: Global, ids: &mut VoiceIds, field: &Field) -> Result<(), Memory>
    ensures { OnOk result (ids.new ≡ ids_after ids.old field.now) }
{
    match field {
        Field::Voice(def) => ids.mention(alloc, def.id.as_slice()),
        _ => Ok(()),
    }
}

/// Returns the voice of each id: the last clef and the last stem direction that its lines name.
pub(crate) fn voices_of(
    alloc: Global,
    ids: &VoiceIds,
    fields: &[Field],
) -> Result<Row<VoiceDef>, Memory>
    ensures { IfOk result (λ row. row ≡ map (voice_from fields.now) ids.now) }
{
    voices_for(alloc, ids.set.as_slice(), fields)
}

fn voices_for(alloc: Global, ids: &[Vec<u8>], fields: &[Field]) -> Result<Row<VoiceDef>, Memory>
    ensures { IfOk result (λ row. row ≡ map (λ id. voice_from fields.now id.items) ids.now) }
{
    let mut voices = Row::new(alloc);
    for id in ids {
        voices.push(voice_from(alloc, fields, id.as_slice())?)?;
    }
    Ok(voices)
}

fn voice_from(alloc: Global, fields: &[Field], id: &[u8]) -> Result<VoiceDef, Memory>
    ensures { IfOk result (λ def. def ≡ voice_from fields.now id.now) }
{
    let wish = last_wish(fields, id);
    Ok(VoiceDef {
        id: Text::from_slice(alloc, id)?,
        clef: last_clef(fields, id),
        stem: wish.unwrap_or(Wish::Auto),
        asks: wish.is_some(),
    })
}

fn last_clef(fields: &[Field], id: &[u8]) -> Option<Clef>
    ensures { result ≡ last_of (clef_for id.now) fields.now }
{
    let mut last = None;
    for field in fields {
        last = clef_for(field, id).or(last);
    }
    last
}

fn clef_for(field: &Field, id: &[u8]) -> Option<Clef>
    ensures { result ≡ clef_for id.now field.now }
{
    match field {
        Field::Voice(def) if is_same(def.id.as_slice(), id) => def.clef,
        _ => None,
    }
}

fn last_wish(fields: &[Field], id: &[u8]) -> Option<Wish>
    ensures { result ≡ last_of (wish_for id.now) fields.now }
{
    let mut last = None;
    for field in fields {
        last = wish_for(field, id).or(last);
    }
    last
}

fn wish_for(field: &Field, id: &[u8]) -> Option<Wish>
    ensures { result ≡ wish_for id.now field.now }
{
    match field {
        Field::Voice(def) if is_same(def.id.as_slice(), id) && def.asks => Some(def.stem),
        _ => None,
    }
}
