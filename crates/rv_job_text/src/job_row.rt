//! The row of a plan's job.

ghost use Rattle.std.specs.Prelude.{◌≡◌, ◌<◌, Some, length, option_map};
ghost use Rattle.rv_rows.specs.declared_job.Job.{Job as AJob};
ghost use Rattle.rv_rows.specs.Plans.{result_or_unreadable};
ghost use Rattle.rv_rows.specs.Rows.{content_if_read};
ghost use Rattle.rv_calls.specs.Trace.{job_at};

use crate::job_file::JobFile;
use rv_rows::{Plan, Row};

/// The row of a plan's job, with the job's image file.
#[derive(Clone, Copy)]
pub(crate) struct JobRow<'a> {
    pub(crate) plan: &'a Plan,
    /// The job's index, counted from 0.
    pub(crate) index: usize,
    pub(crate) row: &'a Row,
    pub(crate) file: &'a JobFile<'a>,
    ghost within: { index < length plan.now.jobs },
    ghost isa: { (d : AJob) → file.now.isa ≡ (job_at plan.now index d).isa },
    ghost bytes: { (d : AJob) → option_map (λ bytes. bytes.now) file.now.bytes
        ≡ content_if_read (Some (result_or_unreadable plan.now.results (job_at plan.now index d).image)) },
}
