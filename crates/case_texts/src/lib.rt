//! What the test crates share: tables of cases, which stand beside the values that they expect; and the values of the
//! lower crates as text, each in one form.
//!
//! A table is a file. Its paragraphs have an empty line between them, and each is a case or, if its lines begin with
//! `#`, a comment. A case is a line with its name; a line with a call and its words; the lines of its input; a line
//! `=`; and the lines of the value that the call has. Input and value are in visible ASCII, with the escapes that
//! `unescaped` reads. Nothing here has a contract: a value is compared as a whole.
#![tactic(auto)]

pub mod cases;
pub mod error;
pub mod escapes;
pub mod faults;
pub mod layouts;
pub mod meeting;
pub mod notes;
pub mod numbers;
pub mod report;
pub mod tables;
pub mod times;
pub mod values;

pub use cases::{Case, within_limit};
pub use error::{CaseError, Mistake};
pub use escapes::unescaped;
pub use faults::{put_fault, put_kind};
pub use layouts::{put_breaking, put_heights, put_no_way, put_placed, put_spans};
pub use meeting::Meeting;
pub use notes::{put_bar, put_deco, put_head, put_pitch, put_value};
pub use numbers::{count_at, number_at, number_of, numbers_of, small_at};
pub use report::Report;
pub use tables::{Answers, Tally, check_tables};
pub use times::put_key;
pub use values::{
    alter_name, alter_named, clef_named, is_given, letter_named, put_clef, put_frac, put_letter,
    put_meter, put_signs, put_spread, put_text, put_wish,
};
