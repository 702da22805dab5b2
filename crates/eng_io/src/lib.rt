//! Sources and sinks of bytes that count their faults.
//!
//! The crate has two traits, in-memory versions that work in pieces and fail on request, adapters over real streams,
//! and reading and writing of a whole text with the cause of every failure.
#![tactic(auto)]

pub mod memory;
pub mod reading;
pub mod standard;
pub mod traits;
pub mod writing;

pub use memory::{MemSink, MemSource};
pub use reading::{ReadError, read_all};
pub use standard::{StdSink, StdSource};
pub use traits::{Failed, Sink, Source};
pub use writing::{WriteError, write_all};
