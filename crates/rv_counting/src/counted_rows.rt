//! The rows of jobs of one image, and the table of the same runs.

ghost use Rattle.std.specs.Prelude.{◌≡◌, ◌<◌, ◌≤◌, IfOk, OnOk, length, slice_index_or};
ghost use Rattle.rv_count_tables.specs.Limits.{max_jobs};
ghost use Rattle.rv_counting.specs.BatchRanges.{HaveOneImage};
ghost use Rattle.rv_counting.specs.JobTables.{IsTableOfRange};
ghost use Rattle.rv_counting.specs.RunCounts.{AddsJob, CanCountRuns};
ghost use Rattle.rv_fleet.specs.JobIndices.{AreJobIndices};
ghost use Rattle.rv_trace.specs.RecentOutcomes.{AreOutcomesOfPlan};
ghost use Rattle.rv_trace.specs.Rows.{row_of, rows_at};
ghost use Rattle.rv_trace.specs.Trace.{job_at};
ghost use Rattle.rv_trace.specs.declared_job.Job.{Job as AJob};

use crate::runs_counter::RunsCounter;
use crate::table_of_jobs::{count_job_at, table_of_counter};
use rv_count_tables::CountTable;
use rv_fleet::{Row, WorkerState, row_at_with_recent, row_from_with_recent};
use rv_trace::Plan;
use std::alloc::{AllocError, Global};

/// The rows of some jobs, in order, and the table of their runs.
#[derive(Drop)]
pub struct CountedRows {
    pub rows: Vec<Row>,
    pub table: CountTable,
}

/// Runs the jobs at these indices once each, and returns their rows and the table of their runs; a refused job does not count as a run. All
/// of the jobs must name the same image file. Takes memory for each executed address, and 256 KiB for a decode cache.
pub fn count_rows_at(
    alloc: Global,
    plan: &Plan,
    indices: &[usize],
    worker_state: &mut WorkerState,
) -> Result<CountedRows, AllocError>
    requires some { 0 < length indices.now }
    requires few { length indices.now ≤ max_jobs }
    requires within { AreJobIndices plan.now indices.now }
    requires same { HaveOneImage plan.now indices.now }
    requires recent { AreOutcomesOfPlan plan.now worker_state.old.recent }
    ensures rows { IfOk result (λ counted. counted.rows.items ≡ rows_at plan.now indices.now) }
    ensures table { IfOk result (λ counted. IsTableOfRange plan.now indices.now counted.table) }
    ensures recent { OnOk result (AreOutcomesOfPlan plan.now worker_state.new.recent) }
{
    let mut counter = RunsCounter::new(alloc)?;
    let mut rows = Vec::with_capacity(alloc, indices.len())?;
    for k in 0..indices.len() {
        let row = count_row_at(alloc, plan, indices[k], &mut counter, worker_state)?;
        rows.push(row)?;
    }
    let table = table_of_counter(alloc, plan, indices, counter)?;
    Ok(CountedRows { rows, table })
}

// Runs the job at an index, adds its run to the counts, and returns its row.
fn count_row_at(
    alloc: Global,
    plan: &Plan,
    index: usize,
    counter: &mut RunsCounter,
    worker_state: &mut WorkerState,
) -> Result<Row, AllocError>
    requires within { index < length plan.now.jobs }
    requires ready { CanCountRuns counter.old }
    requires few { counter.old.runs < max_jobs }
    requires recent { AreOutcomesOfPlan plan.now worker_state.old.recent }
    ensures counted { OnOk result ((d : AJob) → AddsJob plan.now.results (job_at plan.now index d) counter.old counter.new) }
    ensures row { IfOk result (λ row. (d : AJob) → row ≡ row_of plan.now (slice_index_or plan.now.jobs index d)) }
    ensures recent { OnOk result (AreOutcomesOfPlan plan.now worker_state.new.recent) }
{
    let (spare, recent) = (&mut worker_state.spare, &mut worker_state.recent);
    match count_job_at(alloc, plan, index, counter, spare)? {
        Some(run) => row_from_with_recent(plan, index, run, spare, recent),
        None => row_at_with_recent(alloc, plan, index, spare, recent),
    }
}
