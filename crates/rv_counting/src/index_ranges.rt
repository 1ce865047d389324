//! The pieces of a batch whose jobs are counted together.

ghost use Rattle.std.specs.Prelude.{◌≡◌, ◌+◌, ◌<◌, ◌≤◌, IfOk, length};
ghost use Rattle.rv_fleet.specs.JobIndices.{AreJobIndices};
ghost use Rattle.rv_counting.specs.BatchRanges.{AreIndexRanges, IsIndexRange};

use rv_trace::Plan;
use std::alloc::{AllocError, Global};

/// A range of consecutive positions in a batch, from `begin` up to, but not including, `end`.
#[derive(Clone, Copy)]
pub struct IndexRange {
    pub begin: usize,
    pub end: usize,
}

/// The maximum number of jobs in a piece.
const MAX_JOBS_IN_RANGE: usize = 64;

/// The number of pieces for each worker, if there are enough jobs. With several pieces each, workers finish at about the same time.
const RANGES_PER_WORKER: usize = 8;

/// Divides the jobs into pieces of consecutive jobs that name one image. A piece has at most 64 jobs, and fewer if that is needed to keep
/// all workers busy.
pub fn ranges_of_images(
    alloc: Global,
    plan: &Plan,
    indices: &[usize],
    workers: u32,
) -> Result<Vec<IndexRange>, AllocError>
    requires within { AreJobIndices plan.now indices.now }
    requires workers { 0 < workers }
    ensures { IfOk result (λ ranges. AreIndexRanges plan.now indices.now ranges.items) }
{
    let max_jobs = (indices.len() / (workers as usize * RANGES_PER_WORKER)).clamp(
        1,
        MAX_JOBS_IN_RANGE,
    );
    let mut ranges = Vec::new(alloc);
    let mut from = 0;
    while from < indices.len() {
        let to = range_end(plan, indices, from, max_jobs);
        ranges.push(IndexRange {
            begin: from,
            end: to,
        })?;
        from = to;
    }
    Ok(ranges)
}

// Returns the end of the longest piece that begins at `from` and has at most `max_jobs` jobs.
fn range_end(plan: &Plan, indices: &[usize], from: usize, max_jobs: usize) -> usize
    requires within { AreJobIndices plan.now indices.now }
    requires some { from < length indices.now }
    ensures { IsIndexRange plan.now indices.now from (record { begin = from; end = result }) }
{
    let image = plan.job(indices[from]).image.as_str();
    let mut to = from + 1;
    while to < indices.len()
        && to - from < max_jobs
        && plan.job(indices[to]).image.as_str() == image
    {
        to += 1;
    }
    to
}
