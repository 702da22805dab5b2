//! A small machine that runs the bytes of pages, or any others, and returns what they paint. It executes the tokens
//! of a text one after another on a stack, a path and a graphics state, at most as many as a budget allows.
#![tactic(auto)]

pub mod calls;
pub mod canvas;
pub mod definitions;
pub mod drawing;
pub mod execute;
pub mod fonts;
pub mod laws;
pub mod operands;
pub mod operators;
pub mod run;
pub mod scaling;
pub mod showing;
pub mod state;

pub use laws::one_answer;
pub use ps_steps::{Cause, MachineError, PagePaint, Paint, Seg};
pub use run::run_machine;
