//! The parts that make up a staff's marks: bars, heads of staves and changes, notes and rests, and graces with their
//! beam. Each part determines what is drawn beside its column, not where the column is.
#![tactic(auto)]

pub mod bars;
pub mod changes;
pub mod decos;
pub mod distances;
pub mod drawing;
pub mod graces;
pub mod kinds;
pub mod notes;
pub mod rests;
pub mod signatures;
pub mod stems;

pub use bars::put_bar;
pub use changes::{put_change, put_head};
pub use decos::{put_note, top_of};
pub use graces::{Group, group_of, put_grace, put_grace_beam};
pub use stems::StemEnd;
