//! The score: its tree of music, its durations, and its list of events.
//!
//! A tree has notes, rests, grace groups and tuplets. The events of a measure are its leaves that are not graces,
//! from left to right. Durations are in ticks, which are divisible by every tuplet nested up to two deep.
#![tactic(auto)]

pub mod copies;
pub mod good;
pub mod leaves;
pub mod limits;
pub mod plain;
pub mod score;
pub mod times;

pub use copies::{copy_changes, copy_event};
pub use good::{NodeContext, NodeVerdict, is_good_body, weights_within};
pub use leaves::events;
pub use limits::{HEAD_LIMIT, HIGHEST_HEAD, LOWEST_HEAD, MEASURE_LIMIT, USUAL_GAP, WIDE_GAP};
pub use mus_units::{Bar, Deco, Head, Key, Meter, Sign, Spread, Wish};
pub use plain::is_plain;
pub use score::{
    BorrowedEvent, Changes, Event, Flat, Look, Measure, Mention, Music, Score, Seat, Voice,
};
pub use times::{body_duration, duration, flatten};
