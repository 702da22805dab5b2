//! The plain types of the engraver, and what is computed from them alone.
//!
//! They are: lists of bytes and of values that contracts see as lists; note values and their ticks; pitches, clefs and
//! heights on a staff; distances; keys and meters; note heads, bars and decorations as written; the names of glyphs;
//! classes of bytes.
#![tactic(auto)]

pub mod bytes;
pub mod distances;
pub mod few;
pub mod glyph;
pub mod key;
pub mod note;
pub mod parts;
pub mod pitch;
pub mod text;
pub mod value;

pub use few::Few;
pub use glyph::{Glyph, Size, Way};
pub use key::{Key, Meter, Sign, Spread, copy_optional_key};
pub use note::{Bar, Deco, Head, Wish, copy_decos, put_decos};
pub use parts::{parts_of, value_of};
pub use pitch::{Alter, Clef, Entries, Letter, Pitch, clef_drawn, clef_named, clef_row, height};
pub use text::{Memory, Row, Text, copy_optional_text, copy_optional_texts};
pub use value::{Base, Frac, Value, WHOLE, ticks_of};
