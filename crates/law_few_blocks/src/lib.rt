//! The law that a book has few blocks: a tune without a fault in its header has its `X:` line and its `K:` line, so
//! the bytes of a book bound how many such tunes it has, and a tune that is set has at most a block for each measure
//! and one for its titles.
#![tactic(auto)]

pub mod law;

pub use law::few_blocks;
