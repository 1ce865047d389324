//! Why texts are not the parts of one run.

ghost use Rattle.std.specs.Prelude.{◌≡◌};
ghost use Rattle.rv_merge.specs.declared.error.MergeError.TheVariants.{OutOfMemory};

use std::alloc::AllocError;
use thiserror::Error;

/// Why texts are not the parts of one run. A text is identified by its index among those given, counted from 0.
#[derive(Clone, Copy, Debug, Error)]
pub enum MergeError {
    /// An allocation failed.
    #[error("out of memory")]
    OutOfMemory,
    /// There are no texts.
    #[error("no parts")]
    NoTexts,
    /// What is wrong with the text at an index.
    #[error("part {0}: {1}")]
    InvalidText(usize, Flaw),
    /// No text is the report of the shard with this number.
    #[error("shard {0} is missing")]
    MissingShard(usize),
}

/// What is wrong with a text.
#[derive(Clone, Copy, Debug, Error)]
pub enum Flaw {
    /// It is not a report: this is the first invalid line, counted from 1.
    #[error("invalid line {0}")]
    Line(usize),
    /// It is a truncated report.
    #[error("it is truncated")]
    Truncated,
    /// It is a whole report.
    #[error("it is a whole report")]
    Whole,
    /// It is a report of selected jobs.
    #[error("it is a report of selected jobs")]
    Selection,
    /// Its run has a different number of shards from the first text's.
    #[error("a different number of shards")]
    DifferentShardCount,
    /// Its list has a different number of jobs from the first text's.
    #[error("a different number of jobs")]
    DifferentJobCount,
    /// Its run has a different stamp from the first text's.
    #[error("a different stamp")]
    DifferentStamp,
    /// It differs from an earlier text of its shard, which is at this index.
    #[error("the same shard as part {0}, but different contents")]
    DifferentText(usize),
    /// Its row of the job with this number has the same name as an earlier job.
    #[error("job {0} has the same name as an earlier job")]
    RepeatedName(usize),
}

impl From<AllocError> for MergeError {
    ghost from_gives = { λ _ error. error ≡ OutOfMemory };

    // Returns `OutOfMemory`.
    fn from(_: AllocError) -> MergeError {
        MergeError::OutOfMemory
    }
}
