//! When events sound, and the keys of a system's columns.
//!
//! An event begins where the earlier events of its measure and voice end. A column's place in its measure is given by
//! its tick, then by what it holds. The keys of a system rise, and the rank of a column is the number of keys before
//! its own.
#![tactic(auto)]

pub mod beats;
pub mod columns;
pub mod keys;
pub mod ranks;
pub mod times;

pub use columns::{has_features, put_event_keys, put_first_key, put_own_keys, rising_keys};
pub use keys::{Class, ColumnKey};
pub use ranks::{is_same, next_rank, rank_of};
pub use times::{Onset, Timeline, onsets};
