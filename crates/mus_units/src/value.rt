ghost use Rattle.std.specs.Prelude.{◌≡◌, ◌≤◌, ◌*◌};
ghost use Rattle.mus_units.specs.{Parts.units_of, Value.base_length, Value.value_length};

/// The number of ticks in a whole note: 2^15 * 3^4 * 5^2 * 7^2. With it, every length under up to two nested tuplets
/// is a whole number of ticks.
pub const WHOLE: u64 = 3_251_404_800;

/// A fraction as written, not reduced.
#[derive(Clone, Copy, PartialEq, Eq)]
pub struct Frac {
    pub num: u64,
    pub den: u64,
}

/// The length of a note without dots, from two whole notes to a 64th.
#[derive(Clone, Copy, PartialEq, Eq)]
pub enum Base {
    Breve,
    Whole,
    Half,
    Quarter,
    Eighth,
    N16,
    N32,
    N64,
}

/// A base with up to three dots: its length is the base plus its halves, one per dot.
#[derive(Clone, Copy, PartialEq, Eq)]
pub struct Value {
    pub base: Base,
    pub dots: u8,
}

/// Returns the ticks of a base.
fn base_ticks(base: Base) -> u64
    ensures { result ≡ base_length base }
{
    match base {
        Base::Breve => 2 * WHOLE,
        Base::Whole => WHOLE,
        Base::Half => WHOLE / 2,
        Base::Quarter => WHOLE / 4,
        Base::Eighth => WHOLE / 8,
        Base::N16 => WHOLE / 16,
        Base::N32 => WHOLE / 32,
        Base::N64 => WHOLE / 64,
    }
}

/// Returns the length of a value in ticks: its 512ths of a whole note, each of which is `WHOLE / 512` ticks. Takes no
/// memory.
pub fn ticks_of(v: Value) -> u64
    requires { v.dots ≤ 3 }
    ensures value { result ≡ value_length v }
    ensures exact { result * 512 ≡ units_of v * 3251404800 }
{
    let base = base_ticks(v.base);
    match v.dots {
        0 => base,
        1 => base + base / 2,
        2 => base + base / 2 + base / 4,
        _ => base + base / 2 + base / 4 + base / 8,
    }
}
