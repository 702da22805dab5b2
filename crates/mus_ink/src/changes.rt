ghost use Rattle.std.specs.Prelude.{◌≡◌, ◌≤◌, length, IfSome, OnOk};
ghost use Rattle.mus_units.specs.Good.{AreGoodSigns, IsGoodKey};
ghost use Rattle.mus_ink.specs.Changes.{change_marks, count_if, head_marks, key_if};
ghost use Rattle.mus_laid.specs.Ranked.{inked};

use crate::distances::{CLEF_SIDE, CLEF_WIDTH, ENTRY_GAP, ENTRY_STEP, SIGNATURE_SIDE};
use crate::signatures::{put_clef, put_entries, put_meter_if};
use mus_laid::MarkPen;
use mus_score::Changes;
use mus_units::{Clef, Key, Memory, Meter, Sign};

/// Draws the head of a staff: its clef at dx 200, its signature from dx 1800 on, and after it the meter, if one is
/// drawn there.
#[tactic(auto, using(crate::proofs::Keys::few_signs), unfolding(crate::specs::Changes::head_marks))]
pub fn put_head(
    pen: &mut MarkPen,
    clef: Clef,
    signs: &[Sign],
    meter: Option<Meter>,
) -> Result<(), Memory>
    requires { AreGoodSigns signs.now }
    ensures { OnOk result (pen.new ≡ inked pen.old (head_marks clef signs.now meter)) }
{
    put_clef(pen, CLEF_SIDE, clef)?;
    put_entries(pen, clef, false, SIGNATURE_SIDE, signs)?;
    put_meter_if(pen, SIGNATURE_SIDE + ENTRY_STEP * signs.len() as u32, meter)
}

/// Draws the signature of a new key or, if it has no entries, a natural for each entry of the old one.
fn put_key_if(
    pen: &mut MarkPen,
    clef: Clef,
    first: u32,
    old: &[Sign],
    key: &Option<Key>,
) -> Result<(), Memory>
    requires near { first ≤ 2000 }
    requires old { length old.now ≤ 7 }
    requires key { IfSome key.now IsGoodKey }
    ensures { OnOk result (pen.new ≡ inked pen.old (key_if clef first old.now key.now)) }
{
    match key {
        None => Ok(()),
        Some(key) => match key.signs.as_slice() {
            [] => put_entries(pen, clef, true, first, old),
            signs => put_entries(pen, clef, false, first, signs),
        },
    }
}

/// Returns how many entries a change of key draws.
fn count_if(old: &[Sign], key: &Option<Key>) -> usize
    requires old { length old.now ≤ 7 }
    requires key { IfSome key.now IsGoodKey }
    ensures value { result ≡ count_if old.now key.now }
    ensures most { result ≤ 7 }
{
    match key {
        None => 0,
        Some(key) => match key.signs.as_slice() {
            [] => old.len(),
            signs => signs.len(),
        },
    }
}

/// Draws a change before an event, in its own column: the clef at dx 0, then the key's entries in the clef in force
/// there, `clef`, and then the meter. If the new key has no entries, each entry of the old key, `old`, gives a
/// natural.
#[tactic(auto, using(crate::proofs::Keys::few_signs), unfolding(crate::specs::Changes::change_marks))]
pub fn put_change(
    pen: &mut MarkPen,
    clef: Clef,
    old: &[Sign],
    changes: &Changes,
) -> Result<(), Memory>
    requires old { AreGoodSigns old.now }
    requires key { IfSome changes.now.key IsGoodKey }
    ensures { OnOk result (pen.new ≡ inked pen.old (change_marks clef old.now changes.now)) }
{
    let first = match changes.clef {
        None => 0,
        Some(clef) => {
            put_clef(pen, 0, clef)?;
            CLEF_WIDTH
        }
    };
    let count = count_if(old, &changes.key) as u32;
    put_key_if(pen, clef, first + ENTRY_GAP, old, &changes.key)?;
    put_meter_if(pen, first + ENTRY_STEP * count, changes.meter)
}
