//! The text of a saved report.

ghost use Rattle.std.specs.Prelude.{◌≡◌, ◌++◌, ◌≤◌, ◌<◌, ◌^◌, true, IfOk, OnOk, string_bytes, length};
ghost use Rattle.rv_report.specs.Saved.{HasDistinctJobs, are_increasing, numbered_rows_text, extent_line, saved_text};
ghost use Rattle.rv_base.specs.Limits.{max_jobs};

use crate::report::{push_done_line, push_row};
use crate::row::Row;
use crate::saved::{Extent, SavedReport, Shard};
use std::alloc::{AllocError, Global};

/// Returns the text of a report.
#[tactic(auto, unfolding(crate::specs::Saved::saved_text))]
pub(crate) fn saved_text(alloc: Global, report: &SavedReport) -> Result<String, AllocError>
    requires { HasDistinctJobs report.now }
    ensures { IfOk result (λ text. string_bytes text ≡ saved_text report.now) }
{
    let rows = report.rows.as_slice();
    let mut text = String::new(alloc);
    push_numbered_rows(alloc, &mut text, report.numbers.as_slice(), rows)?;
    push_extent_line(&mut text, &report.extent, rows.len())?;
    Ok(text)
}

// Appends the text of rows, given the numbers of their jobs.
fn push_numbered_rows(
    alloc: Global,
    text: &mut String,
    numbers: &[u32],
    rows: &[Row],
) -> Result<(), AllocError>
    requires one_number_each { length numbers.now ≡ length rows.now }
    requires increasing { are_increasing 0 max_jobs numbers.now ≡ true }
    ensures { OnOk result (string_bytes text.new
        ≡ string_bytes text.old ++ numbered_rows_text numbers.now rows.now) }
{
    for (at, row) in rows.iter().enumerate() {
        push_row(alloc, text, numbers[at] as usize - 1, row)?;
    }
    Ok(())
}

/// Appends the last line of a report with this many rows: `done ROWS`, or `part ROWS of JOBS ..` if it does not have all jobs.
#[tactic(auto, unfolding(crate::specs::Saved::extent_line))]
pub fn push_extent_line(text: &mut String, extent: &Extent, count: usize) -> Result<(), AllocError>
    ensures { OnOk result (string_bytes text.new
        ≡ string_bytes text.old ++ extent_line extent.now count) }
{
    match extent {
        Extent::Whole => push_done_line(text, count),
        Extent::Selection(jobs) => write!(text, "part {count} of {jobs}\n"),
        Extent::Shard(shard) => push_shard_line(text, shard, count),
    }
}

// Appends the last line of the report of a shard with this many rows.
#[tactic(auto, unfolding(crate::specs::Saved::extent_line))]
fn push_shard_line(text: &mut String, shard: &Shard, count: usize) -> Result<(), AllocError>
    ensures { OnOk result (string_bytes text.new
        ≡ string_bytes text.old ++ extent_line (Extent.Shard shard.now) count) }
{
    let jobs = shard.jobs;
    let number = shard.number;
    let shards = shard.shards;
    let stamp = shard.stamp.as_str();
    writeln!(
        text,
        "part {count} of {jobs} shard {number}/{shards} stamp {stamp}"
    )
}
