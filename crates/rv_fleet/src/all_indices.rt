//! The indices of a plan's jobs.

ghost use Rattle.std.specs.Prelude.{◌≡◌, IfOk, length, vec_len};
ghost use Rattle.rv_fleet.specs.JobIndices.{AreJobIndices};
ghost use Rattle.rv_rows.specs.Rows.{rows_at, rows_of};
ghost use Rattle.std.specs.List.Sorted.{IsStrictlyIncreasing};

use rv_rows::Plan;
use std::alloc::{AllocError, Global};

/// Returns the indices of all jobs of a plan, in order.
pub(crate) fn all_indices(alloc: Global, plan: &Plan) -> Result<Vec<usize>, AllocError>
    ensures within { IfOk result (λ indices. AreJobIndices plan.now indices.items) }
    ensures count { IfOk result (λ indices. vec_len indices ≡ length plan.now.jobs) }
    ensures increasing { IfOk result (λ indices. IsStrictlyIncreasing indices.items) }
    ensures rows { IfOk result (λ indices. rows_at plan.now indices.items ≡ rows_of plan.now) }
{
    let jobs = plan.jobs();
    let mut indices = Vec::with_capacity(alloc, jobs)?;
    for index in 0..jobs {
        indices.push(index)?;
    }
    Ok(indices)
}
