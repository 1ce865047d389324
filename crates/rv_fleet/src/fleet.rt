//! A fleet: the rows of a plan, computed by threads that draw its chunks.

ghost use Rattle.rv_rows.specs.Limits.{max_group, max_workers};
ghost use Rattle.std.specs.Prelude.{◌≡◌, ◌<◌, ◌≤◌, IfOk};
ghost use Rattle.rv_rows.specs.Rows.{rows_of};
ghost use Rattle.rv_fleet.specs.declared.fleet.FleetError.TheVariants.{OutOfMemory};

use crate::all_indices::all_indices;
use crate::batch::Batch;
use crate::collect::rows_of_all_chunks;
use crate::gate::Gate;
use crate::pieces::Pieces;
use crate::threads::compute_chunks;
use rv_engine::Crew;
use rv_rows::{Plan, Report};
use std::alloc::{AllocError, Global};
use std::sync::Wait;
use std::thread::Threads;
use thiserror::Error;

/// Why there is no report.
#[derive(Clone, Copy, Debug, Error, PartialEq, Eq)]
pub enum FleetError {
    /// An allocation failed.
    #[error("out of memory")]
    OutOfMemory,
    /// A thread could not be started.
    #[error("no worker")]
    NoWorker,
}

impl From<AllocError> for FleetError {
    ghost from_gives = { λ _ error. error ≡ OutOfMemory };

    // Returns the error for a failed allocation: out of memory.
    fn from(_: AllocError) -> FleetError {
        FleetError::OutOfMemory
    }
}

/// Runs all jobs of a plan on `workers` threads, or one per chunk if there are fewer chunks, and returns their rows in list order. The
/// report does not depend on the number of workers, from 1 to 64, or the number of jobs in a chunk, from 1 to 4,096.
///
/// Each thread draws the next chunk when it is free. The function joins all threads that it started, even after an error. The gate is
/// entered for each chunk.
pub fn run_fleet<R: Threads + Wait, G: Gate>(
    rt: &R,
    alloc: Global,
    plan: &Plan,
    workers: u32,
    group: u32,
    gate: &G,
) -> Result<Report, FleetError>
    requires workers { (0 < workers) × (workers ≤ max_workers) }
    requires group { (0 < group) × (group ≤ max_group) }
    ensures { IfOk result (λ report. report.rows ≡ rows_of plan.now) }
{
    let indices = all_indices(alloc, plan)?;
    let batch = Batch::new(plan, indices.as_slice());
    let crew = Crew::new(rt, alloc, workers, group);
    let pieces = Pieces { batch, group };
    let slots = compute_chunks(&crew, &pieces, gate)?;
    let rows = rows_of_all_chunks(alloc, slots, &pieces, gate)?;
    Ok(Report { rows })
}
