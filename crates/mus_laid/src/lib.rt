//! Marks drawn in a column or between columns, wherever these columns are; the marks of a laid-out system, each with
//! the rank of its column, its heights and its lane; the boxes that marks fill; and the text that is printed.
#![tactic(auto)]

pub mod boxes;
pub mod columns;
pub mod distances;
pub mod drawn;
pub mod laid;
pub mod pen;
pub mod printing;
pub mod ranking;

pub use boxes::{
    HeightRange, Sides, character_width, heights_of, heights_over, lines_heights, sides_of,
    staff_heights,
};
pub use columns::{anchor_rank, by_columns};
pub use distances::{BEAM_THICKNESS, TOP_LINE};
pub use drawn::{Bridge, BridgeShape, Ink, LaneInk};
pub use laid::{Laid, Lane, Mark, StaffMarks, SystemMarks};
pub use mus_units::{Glyph, Size, Way};
pub use pen::MarkPen;
pub use printing::{printed, printed_within};
pub use ranking::put_bridges;
