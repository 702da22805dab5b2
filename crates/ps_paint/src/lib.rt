//! What a sheet paints on the painting machine, in 1/10000 point, and the law
//! that a document paints the sheet that it spells.
#![tactic(auto)]

pub mod laws;

pub use laws::paints_sheets;
