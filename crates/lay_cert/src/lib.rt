//! Listings: the spans that fit among each tune's bars, the chosen breaks, their total, and the least sum to each
//! bar, as text that can be checked.
//!
//! `check_listing` judges a listing line by line and trusts none of its sums; `put_entry` with `put_heading` and
//! `put_end` writes one.
#![tactic(auto)]

pub mod check;
mod costs;
pub mod lines;
mod numbers;
pub mod report;
mod state;
pub mod write;

pub use check::{
    CertError, Judged, Verdict, check_listing, faults_tell_none, good_by_lines,
    no_prefix_is_a_listing, tells_one,
};
pub use lines::ListingLine;
pub use report::put_verdict;
pub use write::{forced_by_spans, in_parts, put_end, put_entry, put_heading};
