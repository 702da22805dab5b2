ghost use Rattle.std.specs.{Prelude.◌≡◌, Int.int_div_euclid};
ghost use Rattle.{mus_units.specs.{Distances.staff_step, Pitch.clef_row}, ps_heard.specs.Roles.{pitch_at}};

use mus_pitch::pitch_of_steps;
use mus_units::distances::STEP;
use mus_units::{Clef, Pitch, clef_row};

fn height(dy: i32) -> i32
    ensures { result ≡ int_div_euclid dy staff_step }
{
    dy.div_euclid(STEP)
}

/// Returns the number of steps from C0 to the bottom line.
fn bottom(clef: Clef) -> u8
    ensures { result ≡ (clef_row clef).bottom }
{
    clef_row(clef).bottom
}

/// Returns the pitch at a height of a staff.
#[tactic(auto, unfolding(crate::specs::Roles::pitch_at))]
pub fn pitch_at(clef: Clef, dy: i32) -> Pitch
    ensures { result ≡ pitch_at clef dy }
{
    pitch_of_steps(height(dy) + i32::from(bottom(clef)))
}
