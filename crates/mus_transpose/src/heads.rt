ghost use Rattle.std.specs.Prelude.{◌≡◌, ◌≤◌, ◌+ℤ◌, ◌-ℤ◌, ◌*ℤ◌, pos, negsuc, true, false, MatchOption};
ghost use Rattle.mus_pitch.specs.Steps.{steps};
ghost use Rattle.mus_transpose.specs.Moved.{Within, alter_from, alter_of, half_steps_above_c, semitones, head_moves};
ghost use Rattle.mus_transpose.specs.Moved.{is_near_staff, moved_alter, moved_head, moved_pitch, moved_steps};

use crate::moves::Move;
use mus_pitch::pitch_of_steps;
use mus_units::{Alter, Clef, Head, Letter, Pitch, height};

/// Returns the semitones from C to a letter.
fn natural(letter: Letter) -> u8
    ensures value { result ≡ half_steps_above_c letter }
    ensures most { result ≤ 11 }
{
    match letter {
        Letter::C => 0,
        Letter::D => 2,
        Letter::E => 4,
        Letter::F => 5,
        Letter::G => 7,
        Letter::A => 9,
        Letter::B => 11,
    }
}

/// Returns the semitones of an alteration.
fn half_steps(alter: Alter) -> i64
    ensures value { result ≡ alter_of alter }
    ensures fits { Within (negsuc 1) (pos 2) result }
{
    match alter {
        Alter::Flat2 => -2,
        Alter::Flat => -1,
        Alter::Natural => 0,
        Alter::Sharp => 1,
        Alter::Sharp2 => 2,
    }
}

/// Returns the alteration by this number of semitones, if there is one.
fn alter_from(z: i64) -> Option<Alter>
    ensures { result ≡ alter_from z }
{
    match z {
        -2 => Some(Alter::Flat2),
        -1 => Some(Alter::Flat),
        0 => Some(Alter::Natural),
        1 => Some(Alter::Sharp),
        2 => Some(Alter::Sharp2),
        _ => None,
    }
}

/// Returns the semitones of a pitch above C0, ignoring its alteration.
fn natural_semitones(p: Pitch) -> i64
    ensures value { result ≡ pos 12 *ℤ p.octave +ℤ pos (half_steps_above_c p.letter) }
    ensures fits { Within (negsuc 28999999999) (pos 29000000000) result }
{
    12 * i64::from(p.octave) + i64::from(natural(p.letter))
}

#[tactic(auto, unfolding(crate::specs::Moved::semitones))]
fn semitones(p: Pitch, a: Alter) -> i64
    ensures value { result ≡ semitones p a }
    ensures fits { Within (negsuc 29999999999) (pos 30000000000) result }
{
    natural_semitones(p) + half_steps(a)
}

/// Returns the steps of a pitch above C0. The bottom line of the treble clef is 30 steps above C0.
#[tactic(auto, using(crate::proofs::MovedGood::few_letters), unfolding(mus_pitch::specs::Steps::steps))]
fn steps(p: Pitch) -> i64
    ensures value { result ≡ steps p }
    ensures fits { Within (negsuc 29999999999) (pos 30000000000) result }
{
    height(p, Clef::Treble) + 30
}

fn moved_steps(m: Move, p: Pitch) -> i64
    ensures { result ≡ moved_steps m p }
{
    steps(p) + i64::from(m.letters)
}

fn is_near_staff(m: Move, p: Pitch) -> bool
    ensures { result ≡ is_near_staff m p }
{
    let steps = moved_steps(m, p);
    4 <= steps && steps <= 52
}

/// Returns the moved pitch. `None` if it is in reach in no clef.
#[tactic(auto, unfolding(crate::specs::Moved::moved_pitch))]
fn moved_pitch(m: Move, p: Pitch) -> Option<Pitch>
    ensures { MatchOption result (is_near_staff m p ≡ false) (λ q. (is_near_staff m p ≡ true) × (q ≡ moved_pitch m p)) }
{
    if is_near_staff(m, p) {
        Some(pitch_of_steps(moved_steps(m, p) as i32))
    } else {
        None
    }
}

fn semitones_between(from: i64, by: i32, to: i64) -> i64
    requires from { Within (negsuc 29999999999) (pos 30000000000) from }
    requires to { Within (negsuc 29999999999) (pos 30000000000) to }
    ensures { result ≡ (from +ℤ by) -ℤ to }
{
    from + i64::from(by) - to
}

/// Returns what an accidental becomes before the moved pitch `q`. `None` if that is beyond a double one.
#[tactic(auto, unfolding(crate::specs::Moved::moved_alter))]
fn moved_alter(m: Move, p: Pitch, q: Pitch, a: Alter) -> Option<Alter>
    requires { q ≡ moved_pitch m p }
    ensures { result ≡ moved_alter m p a }
{
    let natural = semitones(q, Alter::Natural);
    alter_from(semitones_between(semitones(p, a), m.semitones, natural))
}

/// Returns the moved head. `None` if it or its accidental can't be moved.
pub(crate) fn moved_head(m: Move, h: Head) -> Option<Head>
    ensures { MatchOption result (head_moves m h ≡ false) (λ r. (head_moves m h ≡ true) × (r ≡ moved_head m h)) }
{
    let pitch = moved_pitch(m, h.pitch)?;
    let sign = match h.sign {
        Some(a) => Some(moved_alter(m, h.pitch, pitch, a)?),
        None => None,
    };
    Some(Head {
        pitch,
        sign,
        tied: h.tied,
    })
}
