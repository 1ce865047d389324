//! The two kinds of rows that count as failures.

ghost use Rattle.std.specs.Prelude.{◌≡◌};
ghost use Rattle.rv_expect.specs.Judgement.{judge_view};
ghost use Rattle.rv_expect.specs.FailureOrError.{is_error, is_failure};

use crate::judgement::Judge;
use rv_rows::{Row, did_run};

/// Whether a row counts as a failure and its job ran.
pub fn is_failure(judge: &Judge<'_>, row: &Row) -> bool
    ensures { result ≡ is_failure (judge_view judge.now) row.now }
{
    judge.fails(row) && did_run(row.ending)
}

/// Whether a row counts as a failure and its job was refused.
pub fn is_error(judge: &Judge<'_>, row: &Row) -> bool
    ensures { result ≡ is_error (judge_view judge.now) row.now }
{
    judge.fails(row) && !did_run(row.ending)
}
