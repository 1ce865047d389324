//! The counts and the call tree of a job.

ghost use Rattle.std.specs.Prelude.{IfOk, IfSome};
ghost use Rattle.rv_count_tables.specs.Table.{AreValidCounts};
ghost use Rattle.rv_counting.specs.declared_job.Job.{Job as AJob};
ghost use Rattle.rv_calls.specs.Rows.{start_state_in};
ghost use Rattle.rv_stacks.specs.Stacks.{function_at, AreCountsAndStacksOfJob};
ghost use Rattle.rv_stacks.specs.StackTables.{RunsWithinABudget};
ghost use Rattle.rv_counting.specs.Trace.{job_at};

use crate::run::count_with_stacks;
use rv_calls::machine_at;
use rv_count_tables::{Addresses, CallNodes};
use rv_counting::{CodeSymbols, JobImage};
use std::alloc::{AllocError, Global};

/// Runs a job once more within its budget, and returns its counts and its call tree; `None` if the job is refused. Functions are delimited
/// by the symbols. The counts are valid in a table.
pub fn count_job_with_stacks(
    alloc: Global,
    job: &JobImage<'_>,
    symbols: &CodeSymbols<'_>,
) -> Result<Option<(Addresses, CallNodes)>, AllocError>
    ensures counts_and_stacks { IfOk result (λ both. (d : AJob) → AreCountsAndStacksOfJob
        (function_at symbols.now.image.now symbols.now.bytes.now)
        (job_at job.now.plan.now job.now.index d).budget
        (start_state_in job.now.plan.now.results (job_at job.now.plan.now job.now.index d)) both) }
    ensures table { IfOk result (λ both. IfSome both (λ both. AreValidCounts both.0)) }
    ensures budget { (d : AJob) → IfOk result (λ _. RunsWithinABudget job.now.plan.now.results
        (job_at job.now.plan.now job.now.index d)) }
{
    match machine_at(alloc, job.plan, job.index, job.image)? {
        Ok(machine) => {
            let budget = job.plan.job(job.index).budget;
            Ok(Some(count_with_stacks(alloc, machine, budget, symbols)?))
        }
        Err(_) => Ok(None),
    }
}
