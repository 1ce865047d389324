//! A law of plans, with no code to run.

ghost use Rattle.std.specs.Prelude.{ℕ, ◌≡◌, ◌<◌, List, length, slice_index_or};
ghost use Rattle.rv_jobs.specs.declared.path_results.PathResult.{PathResult};
ghost use Rattle.rv_lists.specs.declared.job.Job.{Job as AJob};
ghost use Rattle.rv_jobs.specs.Plans.{HasResults, paths_of, paths_used};

/// Proves that if there is a result for exactly the paths that `paths_used` returns for some jobs, then every path of these jobs has a
/// result. So if a plan was gathered for a job, no path of the job counts as unreadable without having been read.
pub fn used_paths_have_results()
    ensures { (jobs : List AJob) (results : List PathResult) → paths_of results ≡ paths_used jobs
        → (i : ℕ) (d : AJob) → i < length jobs → HasResults results (slice_index_or jobs i d) }
{}
