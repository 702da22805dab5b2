//! Lines of a text, and the numbers on them: printed in decimal, and read exactly in the form in which they are
//! printed.
#![tactic(auto)]

pub mod numbers;

pub use numbers::{
    cut_at, number, number_after, number_and_rest, numbers_after, put_named, put_next, put_number,
    small_number, strip,
};
