//! What voices have in the columns of a system, as slots: each has a column key in place of a rank, and words without
//! heights. So the slots of a voice depend neither on other voices nor on the other marks of its staff.
//!
//! The crate has no code yet: it has the types of slots, in `specs` what slots a voice has and what marks a staff
//! gets from those of its voices, and in `proofs` what holds of all slots.
#![tactic(auto)]

pub mod slots;

pub use slots::{Slot, VoiceSlots, Written};
