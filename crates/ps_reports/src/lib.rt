//! What `inspect` and `paint` print: a line for the frame of a sheet, for each page, item, staff and mark, and for
//! the number of pages; a line for each page that a document paints, and for each fill, stroke and word on it; the
//! line for a run that halts.
#![tactic(auto)]

pub mod halted;
pub mod painted;
pub mod report;

pub use halted::put_halt;
pub use painted::{put_pages, put_spaced};
pub use report::report_of;
