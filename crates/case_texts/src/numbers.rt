//! The numbers of a case.

use crate::error::{CaseError, Mistake};
use mus_units::Row;
use std::alloc::Global;
use std::str::FromStr;

/// Returns the number that a word says.
pub fn number_of<N: FromStr>(word: &str) -> Result<N, CaseError>
where
    N::Err: Drop,
{
    match word.parse::<N>() {
        Ok(number) => Ok(number),
        Err(_) => Err(CaseError::Wrong(Mistake::NoNumber)),
    }
}

/// Returns the numbers that words spell, a space apart; no word has none.
pub fn numbers_of(alloc: Global, words: &str) -> Result<Row<i64>, CaseError> {
    let mut numbers = Row::new(alloc);
    if !words.is_empty() {
        for word in words.split(' ') {
            numbers.push(number_of::<i64>(word)?)?;
        }
    }
    Ok(numbers)
}

/// Returns the number at a place.
pub fn number_at(numbers: &Row<i64>, place: usize) -> Result<i64, CaseError> {
    match numbers.as_slice().get(place) {
        Some(number) => Ok(*number),
        None => Err(CaseError::Wrong(Mistake::MissingNumber)),
    }
}

/// Returns the number at a place, which is a count of 32 bits.
pub fn count_at(numbers: &Row<i64>, place: usize) -> Result<u32, CaseError> {
    u32::try_from(number_at(numbers, place)?).map_err(|_| CaseError::Wrong(Mistake::OutOfRange))
}

/// Returns the number at a place, which fits in 32 bits.
pub fn small_at(numbers: &Row<i64>, place: usize) -> Result<i32, CaseError> {
    i32::try_from(number_at(numbers, place)?).map_err(|_| CaseError::Wrong(Mistake::OutOfRange))
}
