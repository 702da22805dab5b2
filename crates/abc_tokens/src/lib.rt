//! Tokens of a music line: re-exports the reader of `abc_music`, and defines the one plain spelling of tokens, with a
//! backquote between two.
#![tactic(auto)]

pub mod bar;
pub mod group;
pub mod note;
pub mod speller;

pub use abc_music::{Bar, Deco, GraceChord, Head, Len, Placed, Token, read_music};
pub use speller::spell;
