//! Laws of hearing, of a book: a listener to the pages of a book hears, for each clear tune for which no plan of staves
//! counts, or one by which each voice has a staff of its own, what the voices of its score sound.
//!
//! The crate has no code: its laws are in `proofs`, their statements in `specs`.
#![tactic(auto)]
