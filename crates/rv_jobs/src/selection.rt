//! A selection of jobs, as indices.

ghost use Rattle.std.specs.Prelude.{◌≡◌, ◌<◌, IfOk, length};
ghost use Rattle.std.specs.List.{All};
ghost use Rattle.std.specs.List.Sorted.{IsStrictlyIncreasing};
ghost use Rattle.rv_jobs.specs.Selection.{selected_indices};

use std::alloc::{AllocError, Global};

/// Returns the indices of the selected jobs, in order, counted from 0. `selection` says for each job whether it is selected.
pub fn selected_indices(alloc: Global, selection: &[bool]) -> Result<Vec<usize>, AllocError>
    ensures value { IfOk result (λ indices. indices.items ≡ selected_indices selection.now (length selection.now)) }
    ensures within { IfOk result (λ indices. All (λ index. index < length selection.now) indices.items) }
    ensures increasing { IfOk result (λ indices. IsStrictlyIncreasing indices.items) }
{
    let mut indices = Vec::new(alloc);
    for index in 0..selection.len() {
        if selection[index] {
            indices.push(index)?;
        }
    }
    Ok(indices)
}
