//! Columns of systems and of measures.

use case_texts::{CaseError, Report, put_key};
use lay_reaches::{Column, Reach};

fn put_reach(out: &mut Report, reach: Option<Reach>) -> Result<(), CaseError> {
    match reach {
        Some(reach) => out.tell_all(&[reach.left, reach.right]),
        None => out.next(b"-"),
    }
}

/// Adds a line for each column: its key, its natural length, and how far it reaches to the left and to the
/// right in each lane.
pub(crate) fn put_columns(out: &mut Report, columns: &[Column]) -> Result<(), CaseError> {
    for column in columns {
        put_key(out, column.key)?;
        out.next_number(b"natural ", column.natural)?;
        for lane in 0..column.reaches.len() {
            out.next(b",")?;
            put_reach(out, column.reaches.at(lane))?;
        }
        out.end_line()?;
    }
    Ok(())
}
