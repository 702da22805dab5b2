//! Headers: the values that the lines of a tune's header give together, or its first fault, and what the file header
//! sets for the tunes and the paper. Re-exports the reader of one field from `abc_field`.
#![tactic(auto)]

pub mod defaults;
pub mod header;
mod length;
pub mod paper;
mod voicing;

pub use abc_field::{
    Breaks, Clef, Field, FieldError, Frac, Key, KeyText, Letter, Meter, Sign, Spread, VoiceDef,
    Wish, read_field,
};
pub use defaults::{Defaults, read_defaults};
pub use header::{Header, read_header};
pub use paper::{Paper, body_of, read_paper};
