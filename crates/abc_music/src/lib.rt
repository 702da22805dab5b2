//! The tokens of a music line, with the columns where they begin, and the first fault of the line.
#![tactic(auto)]

pub mod reader;
pub mod token;

pub use abc_pieces::{Boxed, GraceChord, Len, Token, WrittenChord};
pub use mus_units::{Bar, Deco, Head};
pub use reader::{read_music, read_part, read_prefix, start};
pub use token::{LinePart, LineRest, Placed, TokenCursor, TokenPrefix};
