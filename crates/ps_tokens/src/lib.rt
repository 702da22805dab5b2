//! The tokens of a text for the painting machine: its bytes are split into numbers, strings, names and procedures, up
//! to the end or to the first bytes that begin no token.
#![tactic(auto)]

pub mod body;
pub mod front;
pub mod laws;
pub mod number;
pub mod program;
pub mod scan;
pub mod string;

pub use laws::one_token;
pub use program::{Program, read_program};
