//! The row of the job that a job's `same_as` names.

ghost use Rattle.std.specs.Prelude.{◌≡◌, ◌<◌, IfOk, IfSome, length};
ghost use Rattle.rv_expect.specs.UnmetInPlan.{row_of_same_as_job};

use rv_rows::{Job, Plan, Row, row_at};
use std::alloc::{AllocError, Global};

/// Returns the row of the job that a job's `same_as` names, or `None` if it names none. The named job is run once more.
pub fn row_of_same_as_job(alloc: Global, plan: &Plan, job: &Job) -> Result<Option<Row>, AllocError>
    requires { IfSome job.now.same_as (λ index. index < length plan.now.jobs) }
    ensures { IfOk result (λ other. other ≡ row_of_same_as_job plan.now job.now) }
{
    match job.same_as {
        Some(index) => Ok(Some(row_at(alloc, plan, index)?)),
        None => Ok(None),
    }
}
