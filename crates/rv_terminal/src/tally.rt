//! Counting rows.

ghost use Rattle.std.specs.Prelude.{◌++◌, ◌+◌, ◌∷◌, ◌^◌, ◌<◌, [], List, length};
ghost use Rattle.rv_terminal.specs.Tallies.{IsTallyOf};
ghost use Rattle.rv_expect.specs.Judgement.{JudgeView, judge_view};
ghost use Rattle.rv_rows.specs.declared_row.Row.{Row as ARow};

use crate::tally_value::Tally;
use rv_expect::Judge;
use rv_rows::Row;

impl Tally {
    /// Creates an empty tally.
    pub(crate) fn new() -> Tally
        ensures { (judging : JudgeView) → IsTallyOf judging [] result }
    {
        Tally { done: 0, failed: 0 }
    }

    /// Counts a row, as a failure if the judge says so.
    pub(crate) fn count_row(&mut self, judge: &Judge<'_>, row: &Row)
        ensures { (rows : List ARow) → length rows + 1 < 2 ^ 64 → IsTallyOf (judge_view judge.now) rows self.old
            → IsTallyOf (judge_view judge.now) (rows ++ row.now ∷ []) self.new }
    {
        self.done = self.done.saturating_add(1);
        if judge.fails(row) {
            self.failed = self.failed.saturating_add(1);
        }
    }
}
