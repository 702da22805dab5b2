//! Listings and their verdicts.

use case_texts::{CaseError, Report};
use lay_cert::{CertError, check_listing, put_verdict};

/// Adds the verdicts on a listing, or the line at which the text isn't one.
pub(crate) fn put_verdicts(out: &mut Report, text: &[u8]) -> Result<(), CaseError> {
    match check_listing(out.alloc, text) {
        Ok(judged) => {
            for one in judged.as_slice() {
                put_verdict(&mut out.text, one)?;
            }
            Ok(())
        }
        Err(CertError::NotListing { line }) => out.tell(format_args!("no listing at {line}\n")),
        Err(CertError::Memory) => Err(CaseError::Memory),
    }
}
