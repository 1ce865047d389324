//! The rows of chosen jobs.

ghost use Rattle.std.specs.Prelude.{◌≡◌, ◌<◌, ◌≤◌, length};
ghost use Rattle.std.specs.List.{All};
ghost use Rattle.std.specs.List.Sorted.{IsStrictlyIncreasing};
ghost use Rattle.rv_files.specs.Limits.{max_jobs};

use rv_rows::Rows;

/// The rows of chosen jobs, with the jobs' indices in the list, in rising order.
#[derive(Drop)]
pub(crate) struct ChosenRows<'a> {
    /// The number of jobs in the list.
    pub(crate) jobs: usize,
    pub(crate) indices: &'a [usize],
    pub(crate) rows: Rows,
    ghost at_most_max: { jobs ≤ max_jobs },
    ghost within: { All (λ index. index < jobs) indices.now },
    ghost rising: { IsStrictlyIncreasing indices.now },
    ghost same_length: { length rows ≡ length indices.now },
}
