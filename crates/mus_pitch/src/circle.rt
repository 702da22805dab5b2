ghost use Rattle.std.specs.Prelude.{◌≡◌, negsuc, pos, ◌≤ℤ◌, IfSome};
ghost use Rattle.mus_pitch.specs.Circle.{fifths_of, shift_of, mode_shift, sharps_of, is_signature, signature_of};

use mus_units::{Alter, Letter};

/// The mode of a key. `Maj` also covers Ionian, and `Min` Aeolian.
#[derive(Clone, Copy, PartialEq, Eq)]
pub enum Mode {
    Maj,
    Min,
    Mix,
    Dor,
    Phr,
    Loc,
    Lyd,
}

/// Returns the number of sharps of a key, negative for flats. `None` if it is outside -7 to 7. Takes no memory.
pub fn signature(tonic: Letter, alter: Alter, mode: Mode) -> Option<i8>
    ensures value { result ≡ signature_of tonic alter mode }
    ensures low { IfSome result (λ n. negsuc 6 ≤ℤ n) }
    ensures high { IfSome result (λ n. n ≤ℤ pos 7) }
{
    let sharps = sharps(tonic, alter, mode);
    if is_signature(sharps) {
        Some(sharps)
    } else {
        None
    }
}

#[tactic(auto, unfolding(crate::specs::Circle::sharps_of))]
fn sharps(tonic: Letter, alter: Alter, mode: Mode) -> i8
    ensures value { result ≡ sharps_of tonic alter mode }
{
    fifths(tonic) + shift(alter) + mode_shift(mode)
}

/// Returns whether a signature may have the given number of sharps.
fn is_signature(sharps: i8) -> bool
    ensures { result ≡ is_signature sharps }
{
    sharps >= -7 && sharps <= 7
}

/// Returns the position of a letter on the circle of fifths, with C at 0.
fn fifths(letter: Letter) -> i8
    ensures value { result ≡ fifths_of letter }
    ensures low { negsuc 0 ≤ℤ result }
    ensures high { result ≤ℤ pos 5 }
{
    match letter {
        Letter::F => -1,
        Letter::C => 0,
        Letter::G => 1,
        Letter::D => 2,
        Letter::A => 3,
        Letter::E => 4,
        Letter::B => 5,
    }
}

/// Returns how far an alteration moves on the circle of fifths.
fn shift(alter: Alter) -> i8
    ensures value { result ≡ shift_of alter }
    ensures low { negsuc 13 ≤ℤ result }
    ensures high { result ≤ℤ pos 14 }
{
    match alter {
        Alter::Flat2 => -14,
        Alter::Flat => -7,
        Alter::Natural => 0,
        Alter::Sharp => 7,
        Alter::Sharp2 => 14,
    }
}

/// Returns how far a mode's signature is from that of major.
fn mode_shift(mode: Mode) -> i8
    ensures value { result ≡ mode_shift mode }
    ensures low { negsuc 4 ≤ℤ result }
    ensures high { result ≤ℤ pos 1 }
{
    match mode {
        Mode::Lyd => 1,
        Mode::Maj => 0,
        Mode::Mix => -1,
        Mode::Dor => -2,
        Mode::Min => -3,
        Mode::Phr => -4,
        Mode::Loc => -5,
    }
}
