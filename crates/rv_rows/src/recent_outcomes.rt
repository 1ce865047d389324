//! The outcomes of a worker's last jobs, cached for the jobs that name these jobs in their `same_as`.

ghost use Rattle.std.specs.Prelude.{◌≡◌, IfSome, OnOk, Some};
ghost use Rattle.rv_jobs.specs.Plans.{PlanView};
ghost use Rattle.rv_rows.specs.RecentOutcomes.{AreOutcomesOfPlan, outcome_at};

use crate::outcome::Outcome;
use std::alloc::{AllocError, Global};
use std::marker::Model;

/// The outcome of the job at an index of a plan.
#[derive(Drop)]
pub struct CachedOutcome {
    pub index: usize,
    pub outcome: Outcome,
}

/// The maximum number of cached outcomes.
pub(crate) const MAX_OUTCOMES: usize = 8;

/// The maximum total size of all cached consoles and signatures, in bytes. With their overhead, this is less than 64 KiB.
const MAX_TOTAL_SIZE: usize = 64_000;

/// A cache of a few outcomes, the oldest first.
#[derive(Drop)]
pub struct RecentOutcomes {
    items: Vec<CachedOutcome>,
}

impl Model for RecentOutcomes {
    ghost use Rattle.std.specs.Prelude.{List};
    ghost use Rattle.rv_rows.specs.declared.recent_outcomes.CachedOutcome.{CachedOutcome};

    ghost Value = { List CachedOutcome };

    ghost view = { λ recent. recent.items.items };
}

impl RecentOutcomes {
    /// Returns an empty cache. Does not allocate.
    pub fn new(alloc: Global) -> RecentOutcomes
        ensures { (plan : PlanView) → AreOutcomesOfPlan plan result }
    {
        RecentOutcomes {
            items: Vec::new(alloc),
        }
    }

    /// Returns the allocator that the cache uses.
    pub(crate) fn alloc(&self) -> Global {
        *self.items.allocator()
    }

    /// Returns the outcome of the job at an index if it is cached; otherwise `None`.
    pub fn find(&self, index: usize) -> Option<&Outcome>
        ensures { (plan : PlanView) → AreOutcomesOfPlan plan self.now
            → IfSome result (λ outcome. outcome_at plan index ≡ Some outcome.now) }
    {
        for kept in &self.items {
            if kept.index == index {
                return Some(&kept.outcome);
            }
        }
        None
    }

    /// Returns whether an outcome whose console and signature have `size` bytes is small enough to be cached. If so, drops the oldest
    /// cached outcomes until there is room for it.
    pub fn make_room(&mut self, size: usize) -> bool
        ensures { (plan : PlanView) → AreOutcomesOfPlan plan self.old → AreOutcomesOfPlan plan self.new }
    {
        if MAX_TOTAL_SIZE < size {
            return false;
        }
        while !self.items.is_empty() && self.lacks_room_for(size) {
            self.items.remove(0);
        }
        true
    }

    /// Adds the outcome of the job at an index to the cache, which has room for it.
    pub fn keep(&mut self, index: usize, outcome: Outcome) -> Result<(), AllocError>
        ensures { (plan : PlanView) → AreOutcomesOfPlan plan self.old → outcome_at plan index
            ≡ Some outcome
            → OnOk result (AreOutcomesOfPlan plan self.new) }
    {
        self.items.push(CachedOutcome { index, outcome })?;
        Ok(())
    }

    // Whether there is no room for one more outcome of this size.
    fn lacks_room_for(&self, size: usize) -> bool {
        let mut total = size;
        for kept in &self.items {
            total = total.saturating_add(kept.outcome.size());
        }
        self.items.len() >= MAX_OUTCOMES || MAX_TOTAL_SIZE < total
    }
}
