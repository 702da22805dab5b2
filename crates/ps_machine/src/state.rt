//! The state of the machine.

ghost use Rattle.std.specs.Prelude.{◌≡◌};
ghost use Rattle.ps_machine.specs.declared.state.Stop.TheVariants as stops;

use crate::canvas::Canvas;
use crate::definitions::Definitions;
use mus_units::{Memory, Row};
use ps_steps::{Cause, Operand, PagePaint, Paint};
use std::alloc::{AllocError, AllocFailed};

/// The machine: its stack with the top last, its definitions, whether the font was made, the graphics state with the
/// saved ones, the paints of the page and the pages before it.
#[derive(Drop)]
pub struct Machine<'a> {
    pub stack: Vec<Operand<'a>>,
    pub names: Definitions<'a>,
    pub made: bool,
    pub canvas: Canvas,
    pub paints: Row<Paint>,
    pub pages: Row<PagePaint>,
}

/// Why a token isn't executed.
#[derive(Clone, Copy, PartialEq, Eq)]
pub enum Stop {
    Halted(Cause),
    Memory,
}

impl From<Memory> for Stop {
    ghost from_gives = { λ _ e. e ≡ stops.Memory };

    fn from(_e: Memory) -> Stop {
        Stop::Memory
    }
}

impl From<AllocError> for Stop {
    ghost from_gives = { λ _ e. e ≡ stops.Memory };

    fn from(_e: AllocError) -> Stop {
        Stop::Memory
    }
}

impl<T: Drop> From<AllocFailed<T>> for Stop {
    ghost from_gives = { λ _ e. e ≡ stops.Memory };

    fn from(_e: AllocFailed<T>) -> Stop {
        Stop::Memory
    }
}
