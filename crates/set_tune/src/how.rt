ghost use Rattle.std.specs.Prelude.{◌≡◌};
ghost use Rattle.set_tune.specs.Terms.{manner_of, unmoved};

use eng_jobs::Jobs;

/// How a tune is set. With `flow` no bar is forced. The score is moved by a number of semitones. Its rows of spans
/// are made by a number of jobs; the result is the same for every number of jobs.
#[derive(Clone, Copy, PartialEq, Eq)]
pub struct How {
    pub flow: bool,
    pub by: i8,
    pub jobs: Jobs,
}

impl How {
    /// Returns the setting of a tune as it is written, by one job.
    pub const fn unmoved(flow: bool) -> How
        ensures { manner_of result ≡ unmoved flow }
    {
        How {
            flow,
            by: 0,
            jobs: Jobs { count: 1 },
        }
    }

    /// Returns the same setting by `jobs` jobs.
    pub const fn with_jobs(self, jobs: Jobs) -> How
        ensures { manner_of result ≡ manner_of self }
    {
        How {
            flow: self.flow,
            by: self.by,
            jobs,
        }
    }
}
