//! Two rows that wait for each other, which is in vain unless they are made in parallel.

ghost use Rattle.std.specs.Prelude.{◌≡◌, ◌∷◌, []};
ghost use Rattle.layout_tests.specs.Meeting.{one_row, row_low};

use case_texts::{CaseError, Meeting, Report};
use eng_jobs::Jobs;
use lay_rows::{RowMaker, Rows, make_rows};
use mus_units::{Memory, Row};
use std::alloc::Global;
use std::thread::Threads;

/// Makes the rows of two bars. Each waits until the other is begun.
#[derive(Drop)]
struct MeetingRows {
    alloc: Global,
    meeting: Meeting,
}

impl RowMaker for MeetingRows {
    ghost bars = { λ _. 2 };

    ghost is_row = { λ _ a row. row ≡ a ∷ [] };

    fn rows_between(&self, from: u32, to: u32) -> Result<Row<Row<u16>>, Memory> {
        let mut rows = Row::new(self.alloc);
        for a in from..to {
            self.meeting.wait(a as usize);
            let mut row = Row::new(self.alloc);
            row.push(a as u16)?;
            rows.push(row)?;
        }
        Ok(rows)
    }

    ghost is_one = { λ _ a row other _ h k. one_row a row other h k };

    ghost is_low = { λ _ a row l h. row_low a row l h };
}

/// Adds the two rows by a number of jobs, and for each whether it met the other.
fn put_rows<R: Threads + Sync>(
    rt: &R,
    out: &mut Report,
    jobs: Jobs,
    turns: u32,
) -> Result<(), CaseError> {
    let alloc = out.alloc;
    let meeting = Meeting::new(turns);
    let waiting = MeetingRows { alloc, meeting };
    put_made(out, &make_rows(rt, alloc, &waiting, 2, jobs)?)?;
    waiting.meeting.put_met(out)
}

fn put_made(out: &mut Report, made: &Rows) -> Result<(), CaseError> {
    for row in &made.rows {
        out.tell_all(row.as_slice())?;
    }
    Ok(())
}

/// Adds whether two rows meet with two jobs and with one. With one job the first waits in vain, and the second finds
/// that the first was begun.
pub(crate) fn put_meetings<R: Threads + Sync>(rt: &R, out: &mut Report) -> Result<(), CaseError> {
    put_rows(rt, out, Jobs { count: 2 }, 200_000_000)?;
    put_rows(rt, out, Jobs { count: 1 }, 1000)
}
