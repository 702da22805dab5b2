ghost use Rattle.std.specs.Prelude.{◌≡◌, pos};
ghost use Rattle.std.specs.Int.{int_div_euclid, int_rem_euclid};
ghost use Rattle.std.specs.Int.RustNames.{unsigned_abs};
ghost use Rattle.std.specs.List.{slice_index_or};
ghost use Rattle.mus_pitch.specs.Steps.{pitch_of_steps, scale_letters};

use mus_units::{Letter, Pitch};

/// Returns the letter a number of steps above C.
fn letter_at(number: u32) -> Letter
    ensures { result ≡ slice_index_or scale_letters number Letter.C }
{
    match number {
        0 => Letter::C,
        1 => Letter::D,
        2 => Letter::E,
        3 => Letter::F,
        4 => Letter::G,
        5 => Letter::A,
        6 => Letter::B,
        _ => Letter::C,
    }
}

fn seventh(steps: i32) -> i32
    ensures { result ≡ int_div_euclid steps (pos 7) }
{
    steps.div_euclid(7)
}

fn above_seventh(steps: i32) -> u32
    ensures { result ≡ unsigned_abs (int_rem_euclid steps (pos 7)) }
{
    steps.rem_euclid(7).unsigned_abs()
}

/// Returns the pitch a number of steps above C0; a step leads from one letter to the next. Takes no memory.
#[tactic(auto, unfolding(crate::specs::Steps::pitch_of_steps))]
pub fn pitch_of_steps(steps: i32) -> Pitch
    ensures { result ≡ pitch_of_steps steps }
{
    Pitch {
        letter: letter_at(above_seventh(steps)),
        octave: seventh(steps),
    }
}
