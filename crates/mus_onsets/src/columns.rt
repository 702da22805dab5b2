ghost use Rattle.mus_score.specs.Limits.{head_limit};
ghost use Rattle.std.specs.Prelude.{◌≡◌, ◌≤◌, ◌++◌, OnOk, filter, length};
ghost use Rattle.mus_onsets.specs.Keys.{AreKeys, change_has_mark, event_keys, first_keys, grace_keys, has_entries};
ghost use Rattle.mus_onsets.specs.Keys.{has_features, is_for_each, key_has_mark, meter_has_mark};

use crate::keys::{Class, ColumnKey};
use mus_score::{Bar, Changes, Event, Flat, Key, Meter};
use mus_units::{Memory, Row};

/// Returns whether a key has an entry.
fn is_signed(key: &Key) -> bool
    ensures { result ≡ has_entries key.now }
{
    key.signs.len() >= 1
}

fn draws_key(signed: bool, key: &Option<Key>) -> bool
    ensures { result ≡ key_has_mark signed key.now }
{
    match key {
        Some(key) => signed || is_signed(key),
        None => false,
    }
}

fn draws_meter(meter: Option<Meter>) -> bool
    ensures { result ≡ meter_has_mark meter }
{
    match meter {
        None => false,
        Some(Meter::Free) => false,
        Some(_) => true,
    }
}

/// Returns whether a change draws anything, given whether the key before it has entries.
fn draws(signed: bool, changes: &Changes) -> bool
    ensures { result ≡ change_has_mark signed changes.now }
{
    changes.clef.is_some() || draws_key(signed, &changes.key) || draws_meter(changes.meter)
}

/// Returns whether a bar has any feature. The bar before the first measure is drawn only if it has one.
pub fn has_features(bar: Bar) -> bool
    ensures { result ≡ has_features bar }
{
    bar.end || bar.start || bar.last || bar.initial || bar.double || bar.dotted || bar.unseen
}

fn put_graces(
    out: &mut Row<ColumnKey>,
    measure: u32,
    tick: u64,
    graces: &[Event],
) -> Result<(), Memory>
    requires { length graces.now ≤ head_limit }
    ensures { OnOk result (out.new ≡ out.old ++ grace_keys measure tick 0 graces.now) }
{
    for (i, _grace) in graces.iter().enumerate() {
        out.push(ColumnKey::new(measure, tick, Class::Grace, i as u32))?;
    }
    Ok(())
}

/// Adds the column keys of an event at a tick of a measure: that of its change, unless the head draws the change or
/// it draws nothing; those of its graces; and its own. `signed` says whether the musical key before it has entries,
/// which matters only if the event changes the key.
pub fn put_event_keys(
    out: &mut Row<ColumnKey>,
    measure: u32,
    tick: u64,
    in_head: bool,
    signed: bool,
    f: &Flat<'_>,
) -> Result<(), Memory>
    requires { length f.now.graces ≤ head_limit }
    ensures { OnOk result (out.new ≡ out.old ++ event_keys measure tick in_head signed f.now) }
{
    if !in_head && draws(signed, &f.event().changes) {
        out.push(ColumnKey::new(measure, tick, Class::Change, 0))?;
    }
    put_graces(out, measure, tick, f.graces.as_slice())?;
    out.push(ColumnKey::new(measure, tick, Class::Note, 0))?;
    Ok(())
}

/// Adds the key of the bar before the first measure if a system begins with that measure and the bar has features.
pub fn put_first_key(out: &mut Row<ColumnKey>, a: u32, bar: Bar) -> Result<(), Memory>
    ensures { OnOk result (out.new ≡ out.old ++ first_keys a bar) }
{
    if a != 0 || !has_features(bar) {
        return Ok(());
    }
    out.push(ColumnKey::new(0, 0, Class::First, 0))
}

fn is_for_each(key: ColumnKey) -> bool
    ensures { result ≡ is_for_each key }
{
    match key.class {
        Class::Grace | Class::Note => true,
        Class::Head | Class::First | Class::Change | Class::Bar => false,
    }
}

/// Adds the keys that each voice of a staff has for itself.
pub fn put_own_keys(out: &mut Row<ColumnKey>, keys: &[ColumnKey]) -> Result<(), Memory>
    ensures { OnOk result (out.new ≡ out.old ++ filter is_for_each keys.now) }
{
    for key in keys {
        if is_for_each(*key) {
            out.push(*key)?;
        }
    }
    Ok(())
}

/// Returns the keys in order, each once.
pub fn rising_keys(keys: Row<ColumnKey>) -> Row<ColumnKey>
    ensures { AreKeys result keys }
{
    let mut items = keys.items;
    items.sort_unstable();
    items.dedup();
    Row { items }
}
