ghost use Rattle.std.specs.Prelude.{◌≡◌, ◌≤◌, ◌+ℤ◌, pos, negsuc, length, true, false, IfOk, MatchOption};
ghost use Rattle.std.specs.Cmp.Lexicographic.{pointwise};
ghost use Rattle.mus_pitch.specs.Circle.{is_signature};
ghost use Rattle.mus_transpose.specs.Moved.{Within, GivesIfMovable, moved_key, key_may, on_circle, same_sign};
ghost use Rattle.mus_transpose.specs.Moved.{sharps_by, sharps_in};

use crate::moves::{Move, MoveError, Moved};
use mus_pitch::key_of;
use mus_units::{Alter, Key, Memory, Sign};
use std::alloc::Global;

/// Returns the number of sharps of at most seven accidentals, by the first of them: each flat counts as one less.
pub(crate) fn sharps_in(signs: &[Sign]) -> i8
    requires { length signs.now ≤ 7 }
    ensures value { result ≡ sharps_in signs.now }
    ensures fits { Within (negsuc 6) (pos 7) result }
{
    let count = signs.len() as i8;
    match signs.first() {
        Some(sign) => match sign.alter {
            Alter::Flat => -count,
            _ => count,
        },
        None => 0,
    }
}

fn same_signs(signs: &[Sign], others: &[Sign]) -> bool
    ensures { result ≡ pointwise same_sign signs.now others.now }
{
    signs == others
}

/// Returns whether a key has the accidentals of -7 to 7 sharps, in their order.
pub(crate) fn on_circle(alloc: Global, key: &Key) -> Result<bool, Memory>
    ensures { IfOk result (λ r. r ≡ on_circle key.now) }
{
    if key.signs.len() > 7 {
        return Ok(false);
    }
    let other = key_of(alloc, sharps_in(key.signs.as_slice()))?;
    Ok(same_signs(key.signs.as_slice(), other.signs.as_slice()))
}

/// Returns the number of sharps of the moved key.
fn moved_sharps(sharps: i8, by: i32) -> i64
    ensures value { result ≡ sharps +ℤ by }
    ensures fits { Within (negsuc 2999999999) (pos 3000000000) result }
{
    i64::from(sharps) + i64::from(by)
}

/// Returns the sharps of a signature. `None` if there are more than seven sharps or flats.
fn signature(sharps: i64) -> Option<i8>
    requires { Within (negsuc 2999999999) (pos 3000000000) sharps }
    ensures { MatchOption result (is_signature sharps ≡ false) (λ n. (is_signature sharps ≡ true) × (n ≡ sharps)) }
{
    if -7 <= sharps && sharps <= 7 {
        Some(sharps as i8)
    } else {
        None
    }
}

/// Returns the moved key.
pub(crate) fn moved_key(alloc: Global, by: Move, key: &Key) -> Moved<Key>
    ensures { GivesIfMovable (key_may by key.now) (moved_key by key.now) result }
{
    if !on_circle(alloc, key)? {
        return Err(MoveError::NoMove);
    }
    match signature(moved_sharps(sharps_in(key.signs.as_slice()), by.sharps)) {
        Some(sharps) => Ok(Key {
            signs: key_of(alloc, sharps)?.signs,
        }),
        None => Err(MoveError::NoMove),
    }
}
