//! A law of parts, with no code to run.

ghost use Rattle.std.specs.Prelude.{ℕ, List};
ghost use Rattle.rv_rows.specs.declared_answers.PathResult.{PathResult};
ghost use Rattle.rv_rows.specs.declared_job.Job.{Job};
ghost use Rattle.rv_rows.specs.Rows.{rows_of};
ghost use Rattle.rv_rows.specs.SameResults.{plan_of_jobs};
ghost use Rattle.rv_merge.specs.Parts.{AreValidRows, AreParts, Run};
ghost use Rattle.rv_merge.specs.Shards.{AreShardTexts, IsRunOf};

use rv_rows::parts_have_the_rows_of_the_whole;

/// Proves that the texts of a list's shards are the parts of the rows that a single machine computes, if each machine reads, at the paths
/// that its jobs need, what the single machine reads there. So [`merge_parts`](crate::merge_parts) returns these rows.
pub fn shards_give_the_parts_of_the_whole()
    ensures { (list : List Job) (results : List PathResult) (run : Run) (texts : List (List ℕ))
        → AreValidRows (rows_of (plan_of_jobs list results)) → IsRunOf list run
        → AreShardTexts list results run texts → AreParts (rows_of (plan_of_jobs list results)) texts }
{
    parts_have_the_rows_of_the_whole();
}
