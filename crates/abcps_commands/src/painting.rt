//! Programs for the painting machine, and whole documents: what each paints, or why it halts.

use crate::files::NamedFiles;
use case_texts::{CaseError, Report, number_of};
use ps_machine::{MachineError, run_machine};
use ps_reports::{put_halt, put_pages};

/// Adds what a program paints within a budget, or why it halts.
pub(crate) fn put_painted(out: &mut Report, program: &[u8], budget: u64) -> Result<(), CaseError> {
    match run_machine(out.alloc, program, budget) {
        Ok(pages) => Ok(put_pages(&mut out.text, pages.as_slice())?),
        Err(MachineError::Halt { token, cause }) => Ok(put_halt(&mut out.text, token, cause)?),
        Err(MachineError::Memory) => Err(CaseError::Memory),
    }
}

/// Adds what a program paints within the budget that a word says.
pub(crate) fn put_program(out: &mut Report, word: &str, program: &[u8]) -> Result<(), CaseError> {
    put_painted(out, program, number_of::<u64>(word)?)
}

/// Adds what the document in a file paints.
pub(crate) fn put_document(
    files: &NamedFiles,
    out: &mut Report,
    name: &str,
) -> Result<(), CaseError> {
    let document = files.bytes(name)?;
    let budget = (document.len() as u64).saturating_mul(100);
    put_painted(out, document, budget)
}
