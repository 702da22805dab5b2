//! The pieces of a music line: the bytes and the token of each kind, and a reader of the longest piece at the start
//! of a line.
#![tactic(auto)]

pub mod apart;
pub mod bar;
pub mod piece;
pub mod token;
pub mod tuplet;

pub use abc_notes::{Flaw, GraceChord, Len};
pub use apart::Boxed;
pub use token::{BorrowedToken, BracketOpening, PieceBefore, Token, WrittenChord};
