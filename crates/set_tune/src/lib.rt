//! Sets a tune. The result is its header, its score, moved if that is asked, the score laid out in systems, and the
//! blocks that these make on pages; or the tune's one fault.
#![tactic(auto)]

pub mod blocks;
pub mod how;
pub mod setting;
pub mod tune;

pub use blocks::blocks_of;
pub use how::How;
pub use lay_breaks::{Breaking, Span};
pub use lay_pages::{Block, Heights, TitleBlock};
pub use lay_springs::Placed;
pub use mus_laid::SystemMarks;
pub use setting::{set, set_how};
pub use tune::SetTune;
