//! Staves that voices share: the plan that a `%%score` line spells, the score drawn by it, and whether the voices of
//! each staff are alike.
#![tactic(auto)]

pub mod alike;
pub mod changes;
pub mod copies;
pub mod drawing;
pub mod plan;
pub mod reading;
pub mod signs;

pub use alike::shared;
pub use drawing::drawn;
pub use plan::{Plan, PlannedStaff, read_plan, score_ids};
