//! Laws of the rows of plans, with no code to run.

ghost use Rattle.std.specs.Prelude.{ℕ, ◌≡◌, List, IsTrue, Some, slice_get};
ghost use Rattle.std.specs.List.{All};
ghost use Rattle.rv_jobs.specs.declared.path_results.PathResult.{PathResult};
ghost use Rattle.rv_jobs.specs.declared_job.Job.{Job};
ghost use Rattle.rv_jobs.specs.Jobs.{AreValidJobs};
ghost use Rattle.rv_jobs.specs.Plans.{PlanView, jobs_needed_for};
ghost use Rattle.rv_report.specs.declared.row.Row.{Row};
ghost use Rattle.rv_rows.specs.Narrower.{is_end_independent_of_isa, widened_plan};
ghost use Rattle.rv_rows.specs.Rows.{rows_at, rows_of};
ghost use Rattle.rv_rows.specs.SameResults.{HaveSameResults, plan_of_jobs};

/// Proves that a smaller instruction set only adds faults and refusals. Take a plan, and the plan in which one job has RV32IMC instead of
/// its own instruction set. If the job's row in the first plan is not a refusal and not a fault `illegal` or `fetch-misaligned`, then the
/// second plan has the same row.
pub fn narrower_sets_only_refuse()
    ensures { (plan : PlanView) (index : ℕ) (row : Row) → AreValidJobs plan.jobs
        → slice_get (rows_of plan) index ≡ Some row
        → IsTrue (is_end_independent_of_isa row.ending) → slice_get (rows_of (widened_plan index plan)) index
        ≡ Some row }
{}

/// Proves that two plans with the same jobs have the same rows at some indices, if they have the same result for each path that these rows
/// need. So a plan gathered only for these indices has the same rows there as one gathered for all jobs.
pub fn parts_have_the_rows_of_the_whole()
    ensures { (jobs : List Job) (results other_results : List PathResult) (indices : List ℕ)
        → All (HaveSameResults results other_results) (jobs_needed_for jobs indices)
        → rows_at (plan_of_jobs jobs results) indices ≡ rows_at (plan_of_jobs jobs other_results) indices }
{}
