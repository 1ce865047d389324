//! Which rows are failures, and the exit status that follows.

ghost use Rattle.std.specs.Prelude.{◌≡◌, ◌≤◌};
ghost use Rattle.rv_expect.specs.Judgement.{judge_view};
ghost use Rattle.rvtest_app.specs.Commands.{failure_rule, passing_status, report_judging};
ghost use Rattle.rvtest_app.specs.RunOutput.{rows_status};

use rv_command::{DONE, SOME_FAIL};
use rv_expect::{Judge, Rule};
use rv_rows::Row;

/// Returns the rule that decides which rows are failures: lenient with `--lenient`, and otherwise strict.
pub(crate) fn failure_rule(is_lenient: bool) -> Rule
    ensures { result ≡ failure_rule is_lenient }
{
    if is_lenient {
        Rule::Lenient
    } else {
        Rule::Strict
    }
}

/// Returns the judge for the rows of a report, with or without `--lenient`. No job counts as a known failure.
pub(crate) fn report_judge<'a>(is_lenient: bool) -> Judge<'a>
    ensures { judge_view result ≡ report_judging is_lenient }
{
    Judge::with_rule(failure_rule(is_lenient))
}

/// Returns the exit status of a command for one job: [`DONE`] if the job passed, and otherwise [`SOME_FAIL`].
pub(crate) fn passing_status(passed: bool) -> u8
    ensures value { result ≡ passing_status passed }
    ensures status_bound { result ≤ 1 }
{
    if passed { DONE } else { SOME_FAIL }
}

/// Returns the exit status for these rows: [`SOME_FAIL`] if one of them is a failure, and otherwise [`DONE`].
pub(crate) fn rows_status(judge: &Judge<'_>, rows: &[Row]) -> u8
    ensures value { result ≡ rows_status (judge_view judge.now) rows.now }
    ensures status_bound { result ≤ 1 }
{
    if judge.any_counts_as_failure(rows) {
        SOME_FAIL
    } else {
        DONE
    }
}
