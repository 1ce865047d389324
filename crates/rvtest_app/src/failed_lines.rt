//! The result lines of failed rows, as far as a report contains them.

ghost use Rattle.std.specs.Prelude.{◌≡◌, ◌++◌, OnOk};
ghost use Rattle.rv_expect.specs.Judgement.{judge_view};
ghost use Rattle.rvtest_app.specs.ReportSummary.{failed_line};

use rv_expect::Judge;
use rv_job_text::{EndDetail, push_result_line};
use rv_rows::{Row, RowReporter};
use std::alloc::{AllocError, Global};

/// Reports the result line of each row that is a failure, and nothing for other rows. The line has no symbol and no reason, as a report
/// does not contain them.
#[derive(Clone, Copy)]
pub struct FailedLines<'a> {
    pub judge: Judge<'a>,
}

impl<'a> RowReporter for FailedLines<'a> {
    ghost use Rattle.rv_expect.specs.Judgement.{judge_view};
    ghost use Rattle.rvtest_app.specs.ReportSummary.{failed_line};

    ghost line = { λ reporter _ row. failed_line (judge_view reporter.judge) row };

    // Appends the result line of a row that is a failure; nothing for any other row.
    fn push_row_text(
        &self,
        alloc: Global,
        _index: usize,
        row: &Row,
        text: &mut Vec<u8>,
    ) -> Result<(), AllocError> {
        push_failed_line(alloc, text, &self.judge, row)
    }
}

/// Appends the result line of a row that is a failure, without symbol and reason; nothing for any other row.
pub(crate) fn push_failed_line(
    alloc: Global,
    text: &mut Vec<u8>,
    judge: &Judge<'_>,
    row: &Row,
) -> Result<(), AllocError>
    ensures { OnOk result (text.new.items ≡ text.old.items ++ failed_line (judge_view judge.now) row.now) }
{
    let judgement = judge.judgement(row);
    if !judgement.is_failing() {
        return Ok(());
    }
    let detail = EndDetail {
        symbol: None,
        reason: None,
    };
    push_result_line(alloc, text, judgement, row, &detail)
}
