//! The painting machine as specified: its tokens, its state, what each operator does, and the result of running a
//! text. It defines the types of the machine's results and the values that the machine keeps.
#![tactic(auto)]

pub mod graphics;
pub mod halt;
pub mod paint;
pub mod token;
pub mod value;

pub use graphics::Graphics;
pub use halt::{Cause, MachineError};
pub use paint::{PagePaint, Paint, Seg};
pub use token::{Hundredths, MachineToken, Number, SimpleToken};
pub use value::{Operand, Procedure, StringBytes};
