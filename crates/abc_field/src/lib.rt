//! Fields: the meaning of a line of a header or a body, or its fault.
#![tactic(auto)]

pub mod directive;
pub mod field;
pub mod key;
pub mod meter;
pub mod numbers;
pub mod voice;
pub mod words;

pub use directive::Breaks;
pub use field::{Field, FieldError, read_field, read_named};
pub use key::KeyText;
pub use mus_units::{Clef, Frac, Key, Letter, Meter, Sign, Spread, Wish};
pub use voice::VoiceDef;
