//! A law from a list's text to the report that its shards are merged into, with no code to run.

ghost use Rattle.std.specs.Prelude.{◌≡◌, ℕ, List, Ok};
ghost use Rattle.rv_rows.specs.declared_answers.PathResult.{PathResult};
ghost use Rattle.rv_rows.specs.declared_job.Job.{Job};
ghost use Rattle.rv_rows.specs.JobList.{job_list_of};
ghost use Rattle.rv_merge.specs.Parts.{AreParts, Run};
ghost use Rattle.rv_merge.specs.Shards.{AreShardTexts, IsRunOf};
ghost use Rattle.rv_rows.specs.Rows.{rows_of};
ghost use Rattle.rv_rows.specs.SameResults.{plan_of_jobs};

use crate::list_rows_law::rows_form_a_list;
use crate::parts_law::shards_give_the_parts_of_the_whole;
use rv_rows::Row;

/// Proves that the shards of a list merge into its whole report. Suppose a list runs in shards, and each machine reads, at the paths that
/// its jobs need, what a single machine would read there. Then the texts of their reports are the parts of the rows that the single machine
/// computes with `run_fleet`, for every number of workers and every chunk size, and [`merge_parts`](crate::merge::merge_parts) returns
/// these rows.
pub fn shards_give_the_whole(rows: &[Row])
    ensures { (bytes : List ℕ) (list : List Job) (results : List PathResult) (run : Run)
        (texts : List (List ℕ))
        → job_list_of bytes ≡ Ok list → rows.now ≡ rows_of (plan_of_jobs list results)
        → IsRunOf list run → AreShardTexts list results run texts → AreParts rows.now texts }
{
    rows_form_a_list(rows);
    shards_give_the_parts_of_the_whole();
}
