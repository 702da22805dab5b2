//! Laws of hearing, of one voice: a clear voice is heard at its columns as it sounds, however its measures are
//! divided into systems.
//!
//! The crate has no code: its laws are in `proofs`, their statements in `specs`.
#![tactic(auto)]
