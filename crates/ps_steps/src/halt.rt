//! Why a run of the painting machine halts.

ghost use Rattle.std.specs.Prelude.{◌≡◌};
ghost use Rattle.ps_steps.specs.declared.halt.MachineError.TheVariants as errors;

use mus_units::Memory;

/// Why a run halts at a token. If several causes apply, the first in this order is reported: BadToken, Unclosed,
/// Budget, and then the others in the order in which they are listed here.
#[derive(Clone, Copy, PartialEq, Eq)]
pub enum Cause {
    /// The bytes there begin no token, also within a procedure; or a `{` is in a procedure.
    BadToken,
    /// A string or a procedure doesn't end; or a `}` has no `{`.
    Unclosed,
    /// An operator has too few operands.
    Stack,
    /// An operand is not of the kind that the operator takes.
    Kind,
    /// A name has no meaning; or `findfont` gets a name that isn't a font's.
    Name,
    /// A line, a curve or words without a current point.
    Point,
    /// A `grestore` with nothing saved.
    Restore,
    /// The two factors of a `scale` differ; or the new scale isn't a whole number of at least 1.
    Scale,
    /// A number that the token makes or paints exceeds 2^60 in size.
    Range,
    /// The budget is used up, and there is one more token.
    Budget,
}

/// Why there are no pages.
#[derive(Clone, Copy, PartialEq, Eq)]
pub enum MachineError {
    /// The run halts, after `token` tokens were executed.
    Halt { token: u64, cause: Cause },
    /// Memory ran out.
    Memory,
}

impl From<Memory> for MachineError {
    ghost from_gives = { λ _ e. e ≡ errors.Memory };

    fn from(_e: Memory) -> MachineError {
        MachineError::Memory
    }
}
