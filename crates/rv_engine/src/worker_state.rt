//! What a worker carries over from one job to the next.

ghost use Rattle.rv_rows.specs.Plans.{PlanView};
ghost use Rattle.rv_rows.specs.RecentOutcomes.{AreOutcomesOfPlan};

use rv_rows::{RecentOutcomes, SpareBus};
use std::alloc::Global;

/// What a worker carries over from one job to the next: the memory of its last run, and the outcomes of its last jobs.
#[derive(Drop)]
pub struct WorkerState {
    pub spare: SpareBus,
    pub recent: RecentOutcomes,
}

impl WorkerState {
    /// Returns the state of a worker that has not run a job. Does not allocate.
    pub fn new(alloc: Global) -> WorkerState
        ensures { (plan : PlanView) → AreOutcomesOfPlan plan result.recent }
    {
        WorkerState {
            spare: SpareBus::new(),
            recent: RecentOutcomes::new(alloc),
        }
    }
}
