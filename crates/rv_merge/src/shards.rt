//! The jobs of a shard.

ghost use Rattle.std.specs.Prelude.{◌≡◌, ◌<◌, ◌≤◌, IfOk, length};
ghost use Rattle.rv_rows.specs.Selection.{selected_indices};
ghost use Rattle.rv_merge.specs.Shards.{shard_selection, shard_indices};

use std::alloc::{AllocError, Global};

/// Returns for each job, in list order, whether the shard with this number has it: if its index, counted from 0, leaves the remainder
/// `number - 1` when divided by the number of shards.
pub fn shard_selection(
    alloc: Global,
    job_count: usize,
    number: u32,
    shards: u32,
) -> Result<Vec<bool>, AllocError>
    requires low { 0 < number }
    requires high { number ≤ shards }
    ensures selection { IfOk result (λ selection. selection.items ≡ shard_selection shards number job_count) }
    ensures length { IfOk result (λ selection. length selection.items ≡ job_count) }
    ensures indices { IfOk result
        (λ selection. selected_indices selection.items job_count ≡ shard_indices shards number job_count) }
{
    let mut selection = Vec::new(alloc);
    for index in 0..job_count {
        selection.push(index % shards as usize == number as usize - 1)?;
    }
    Ok(selection)
}
