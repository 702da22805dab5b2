ghost use Rattle.std.specs.Prelude.{◌≡◌, ◌+ℤ◌, ◌-ℤ◌, ◌*ℤ◌, pos, negsuc};
ghost use Rattle.std.specs.Int.{int_div_euclid, int_rem_euclid};
ghost use Rattle.mus_transpose.specs.declared.moves.MoveError.TheVariants as errors;
ghost use Rattle.mus_transpose.specs.Moved.{Within, new_sharps, move_for};

use mus_units::Memory;

/// How far a score moves: by how many semitones its heads sound higher, by how many sharps its keys move, and by how
/// many letters its heads move.
#[derive(Clone, Copy, PartialEq, Eq)]
pub struct Move {
    pub semitones: i32,
    pub sharps: i32,
    pub letters: i32,
}

/// Why a move fails.
#[derive(Clone, Copy, PartialEq, Eq)]
pub enum MoveError {
    /// A key, an accidental or a head can't be moved.
    NoMove,
    /// Memory ran out.
    Memory,
}

impl From<Memory> for MoveError {
    ghost from_gives = { λ _ e. e ≡ errors.Memory };

    fn from(_: Memory) -> MoveError {
        MoveError::Memory
    }
}

pub(crate) type Moved<T> = Result<T, MoveError>;

/// Returns the sharps reached from a key of `sharps` sharps by seven fifths per semitone, plus 5.
fn climbed(sharps: i8, by: i8) -> i32
    ensures { result ≡ (sharps +ℤ (pos 7 *ℤ by)) +ℤ pos 5 }
{
    i32::from(sharps) + 7 * i32::from(by) + 5
}

/// Returns the distance from the last multiple of 12 up to a number.
fn above_twelve(z: i32) -> i32
    ensures value { result ≡ int_rem_euclid z (pos 12) }
    ensures fits { Within (pos 0) (pos 11) result }
{
    z.rem_euclid(12)
}

/// Returns the number of sharps of the new key.
fn new_sharps(sharps: i8, by: i8) -> i32
    ensures value { result ≡ new_sharps sharps by }
    ensures fits { Within (negsuc 4) (pos 6) result }
{
    above_twelve(climbed(sharps, by)) - 5
}

/// Returns by how many sharps keys move.
fn change_of(sharps: i8, by: i8) -> i32
    ensures value { result ≡ new_sharps sharps by -ℤ sharps }
    ensures fits { Within (negsuc 131) (pos 134) result }
{
    new_sharps(sharps, by) - i32::from(sharps)
}

fn passed(change: i32, by: i8) -> i32
    requires { Within (negsuc 131) (pos 134) change }
    ensures value { result ≡ (pos 7 *ℤ change) -ℤ by }
    ensures fits { Within (negsuc 1199) (pos 1199) result }
{
    7 * change - i32::from(by)
}

#[tactic(auto, using(crate::proofs::MovedGood::twelfth_fits))]
fn twelfth(z: i32) -> i32
    requires { Within (negsuc 1199) (pos 1199) z }
    ensures value { result ≡ int_div_euclid z (pos 12) }
    ensures fits { Within (negsuc 99) (pos 99) result }
{
    z.div_euclid(12)
}

fn letters(change: i32, octaves: i32) -> i32
    requires change { Within (negsuc 131) (pos 134) change }
    requires octaves { Within (negsuc 99) (pos 99) octaves }
    ensures { result ≡ (pos 4 *ℤ change) -ℤ (pos 7 *ℤ octaves) }
{
    4 * change - 7 * octaves
}

/// Returns the move by `by` semitones from a key of `sharps` sharps.
#[tactic(auto, unfolding(crate::specs::Moved::move_for))]
pub(crate) fn move_for(sharps: i8, by: i8) -> Move
    ensures { result ≡ move_for sharps by }
{
    let change = change_of(sharps, by);
    Move {
        semitones: i32::from(by),
        sharps: change,
        letters: letters(change, twelfth(passed(change, by))),
    }
}
