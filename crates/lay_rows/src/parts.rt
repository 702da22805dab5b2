ghost use Rattle.std.specs.Prelude.{IfOk};
ghost use Rattle.lay_rows.specs.Parts.{AreBars};

use crate::ranges::BarRange;
use eng_jobs::Jobs;
use mus_units::{Memory, Row};
use std::alloc::Global;

/// Returns the bars below `n` in as many parts as there are jobs. Their sizes differ by one at most.
pub(crate) fn parts_of(alloc: Global, n: u32, jobs: Jobs) -> Result<Row<BarRange>, Memory>
    ensures { IfOk result (λ parts. AreBars 0 n parts) }
{
    let mut parts = Row::with_room(alloc, usize::from(jobs.count))?;
    let mut from = 0;
    let mut left = u32::from(jobs.count);
    while 0 < left {
        let to = from + (n - from) / left;
        parts.push(BarRange { from, to })?;
        from = to;
        left -= 1;
    }
    Ok(parts)
}
