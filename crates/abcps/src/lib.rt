//! The engraver's top call: words and streams in, a status out.
#![tactic(auto)]

mod books;
mod building;
mod hearing;
mod inspecting;
mod judging;
mod making;
mod painting;
mod printing;
pub mod refusing;
mod reporting;
pub mod running;
pub mod status;
pub mod wordless;

pub use abcps_words::{Command, usage};
pub use ps_machine::Cause;
pub use refusing::Refusal;
pub use running::{calls_one, never_both, run};
pub use set_book::{Gate, NoGate};
pub use status::Status;
pub use wordless::{WordsError, refuse_words};
