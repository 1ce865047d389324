//! The summary of a report.

ghost use Rattle.std.specs.Prelude.{◌≡◌, ◌++◌, ◌<◌, ◌^◌, OnOk, length};
ghost use Rattle.std.specs.List.{flat_map};
ghost use Rattle.rv_expect.specs.Judgement.{judge_view};
ghost use Rattle.rvtest_app.specs.ReportSummary.{failed_line, most_steps_text, summary_text, steps_line};

use crate::failed_lines::push_failed_line;
use crate::rows_with_most_steps::rows_with_most_steps;
use rv_expect::Judge;
use rv_job_text::{Span, push_spans, push_text, push_totals_line};
use rv_rows::Row;
use std::alloc::{AllocError, Global};

/// Appends what `show` prints about the rows of a report: a result line for each failure, the line of totals, and the rows with the most
/// steps.
#[tactic(auto, unfolding(crate::specs::ReportSummary::summary_text))]
pub fn push_summary(
    alloc: Global,
    text: &mut Vec<u8>,
    judge: &Judge<'_>,
    rows: &[Row],
) -> Result<(), AllocError>
    requires { length rows.now < 2 ^ 32 }
    ensures { OnOk result (text.new.items ≡ text.old.items ++ summary_text (judge_view judge.now) rows.now) }
{
    push_failed_lines(alloc, text, judge, rows)?;
    push_totals_line(text, judge, rows)?;
    push_most_steps(alloc, text, rows)
}

// Appends the result lines of the rows that are failures.
fn push_failed_lines(
    alloc: Global,
    text: &mut Vec<u8>,
    judge: &Judge<'_>,
    rows: &[Row],
) -> Result<(), AllocError>
    ensures { OnOk result
        (text.new.items ≡ text.old.items ++ flat_map (failed_line (judge_view judge.now)) rows.now) }
{
    for row in rows {
        push_failed_line(alloc, text, judge, row)?;
    }
    Ok(())
}

// Appends a heading and a line for each of the rows with the most steps.
fn push_most_steps(alloc: Global, text: &mut Vec<u8>, rows: &[Row]) -> Result<(), AllocError>
    ensures { OnOk result (text.new.items ≡ text.old.items ++ most_steps_text rows.now) }
{
    let most = rows_with_most_steps(alloc, rows)?;
    push_text(text, "most steps:\n")?;
    push_steps_lines(text, most.as_slice())
}

// Appends a line with the steps and the name of each row.
#[tactic(auto, unfolding(crate::specs::ReportSummary::steps_line))]
fn push_steps_lines(text: &mut Vec<u8>, rows: &[&Row]) -> Result<(), AllocError>
    ensures { OnOk result (text.new.items
        ≡ text.old.items ++ flat_map (λ row. steps_line row.now) rows.now) }
{
    for row in rows {
        let steps = row.steps;
        push_spans(
            text,
            &[
                Span::Text("  "),
                Span::Number(u64::from(steps)),
                Span::Text(" "),
                Span::Text(row.name.as_str()),
                Span::Text("\n"),
            ],
        )?;
    }
    Ok(())
}
