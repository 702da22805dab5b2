use abc_lines::Fault;
use set_tune::SetTune;

/// The outcome of a tune: its number in the book, from 1, and the tune as it is set, or its one fault.
#[derive(Drop)]
pub struct Outcome {
    pub ordinal: u32,
    pub result: Result<SetTune, Fault>,
}
