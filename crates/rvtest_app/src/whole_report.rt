//! The report that a run with `--into` updates, which must be of the whole list.

ghost use Rattle.std.specs.Prelude.{◌≡◌, ◌≤◌, IfErr, IfOk, IfSome, None, length};
ghost use Rattle.rv_files.specs.Limits.{max_jobs};
ghost use Rattle.rv_rows.specs.Saved.{row_names};
ghost use Rattle.rvtest_app.specs.IntoReports.{IsWholeReport, IsWholeReportAt, job_names};
ghost use Rattle.rvtest_app.specs.IntoStops.{IsFirstNameMismatch, IsNotWholeReportStop, IsNotWholeBecause, row_count_message};
ghost use Rattle.rvtest_app.specs.IntoStops.{jobs_of_partial_report, name_mismatch_message, not_whole_message, partial_report_message};

use rv_command::{Stop, read_report_file};
use rv_files::Inputs;
use rv_job_text::{Span, text_of_spans};
use rv_rows::{Extent, Job, Row, Rows, SavedReport};
use std::alloc::{AllocError, Global};

/// Why a report is not a report of all jobs of a list.
#[derive(Clone, Copy)]
pub(crate) enum NotWholeReason<'a> {
    /// It is a partial report: it has this number of rows, of a list with this number of jobs.
    Partial(usize, u32),
    /// It has this number of rows (first), but the list has another number of jobs (second).
    RowCount(usize, usize),
    /// A row has a different name than the job of the list at the same index.
    Name(NameMismatch<'a>),
}

/// The number of a job, counted from 1, and its names in the report and in the list.
#[derive(Clone, Copy)]
pub(crate) struct NameMismatch<'a> {
    pub(crate) number: usize,
    pub(crate) in_report: &'a str,
    pub(crate) listed: &'a str,
}

const EXPECTED_WHOLE_REPORT: &str = ": --into expects a report of the whole list\n";

/// Returns the rows of the report at `path`, which must have one row for each job of the list at `list_path`, in list order.
pub(crate) fn read_whole_report<D: Inputs>(
    inputs: &D,
    alloc: Global,
    path: &str,
    list_path: &str,
    jobs: &[Job],
) -> Result<Rows, Stop>
    ensures whole { IfOk result (IsWholeReportAt (D.contents inputs.now) path.now jobs.now) }
    ensures same_length { IfOk result (λ rows. length rows ≡ length jobs.now) }
    ensures stopped { IfErr result (IsNotWholeReportStop (D.contents inputs.now) path.now list_path.now jobs.now) }
{
    let report = read_report_file(inputs, alloc, path)?;
    match not_whole_reason(&report, jobs) {
        None => Ok(report.rows),
        Some(reason) => Err(Stop::rejection(not_whole_message(alloc, path, list_path, reason))),
    }
}

// Returns why a report is not a report of all jobs of a list; `None` if it is one.
fn not_whole_reason<'a>(report: &'a SavedReport, jobs: &'a [Job]) -> Option<NotWholeReason<'a>>
    requires at_most_max { length report.now.rows ≤ max_jobs }
    ensures whole { result ≡ None → IsWholeReport jobs.now report.now }
    ensures other { IfSome result (IsNotWholeBecause jobs.now report.now) }
{
    let rows = report.rows.as_slice();
    if let Some(count) = jobs_of_partial_report(&report.extent) {
        return Some(NotWholeReason::Partial(rows.len(), count));
    }
    if rows.len() != jobs.len() {
        return Some(NotWholeReason::RowCount(rows.len(), jobs.len()));
    }
    match first_name_mismatch(rows, jobs) {
        Some(name) => Some(NotWholeReason::Name(name)),
        None => None,
    }
}

// Returns the number of jobs in the list of a partial report; `None` for a whole report.
fn jobs_of_partial_report(extent: &Extent) -> Option<u32>
    ensures { result ≡ jobs_of_partial_report extent.now }
{
    match extent {
        Extent::Whole => None,
        Extent::Selection(jobs) => Some(*jobs),
        Extent::Shard(shard) => Some(shard.jobs),
    }
}

// Returns the names and the number of the first job whose name in the report differs from its name in the list; `None` if all names agree.
fn first_name_mismatch<'a>(rows: &'a [Row], jobs: &'a [Job]) -> Option<NameMismatch<'a>>
    requires { length rows.now ≡ length jobs.now }
    ensures same { result ≡ None → row_names rows.now ≡ job_names jobs.now }
    ensures first { IfSome result (IsFirstNameMismatch (row_names rows.now) (job_names jobs.now)) }
{
    for index in 0..rows.len() {
        let (in_report, listed) = (rows[index].name.as_str(), jobs[index].name.as_str());
        if in_report != listed {
            return Some(NameMismatch {
                number: index + 1,
                in_report,
                listed,
            });
        }
    }
    None
}

// Returns the message that the report at `path` is not a report of all jobs of the list at `list_path`, with the reason.
fn not_whole_message<'a>(
    alloc: Global,
    path: &'a str,
    list_path: &'a str,
    reason: NotWholeReason<'a>,
) -> Result<Vec<u8>, AllocError>
    ensures { IfOk result (λ text. text.items ≡ not_whole_message path.now list_path.now reason.entry) }
{
    match reason {
        NotWholeReason::Partial(rows, jobs) => partial_report_message(alloc, path, rows, jobs),
        NotWholeReason::RowCount(rows, jobs) => row_count_message(
            alloc, path, list_path, rows, jobs,
        ),
        NotWholeReason::Name(name) => name_mismatch_message(alloc, path, list_path, name),
    }
}

// Returns the message that the report at the path is a partial one, with `rows` rows of a list with `jobs` jobs.
fn partial_report_message<'a>(
    alloc: Global,
    path: &'a str,
    rows: usize,
    jobs: u32,
) -> Result<Vec<u8>, AllocError>
    ensures { IfOk result (λ text. text.items ≡ partial_report_message path.now rows jobs) }
{
    text_of_spans(
        alloc,
        &[
            Span::Text("rvtest: "),
            Span::Printable(path.as_bytes()),
            Span::Text(": a partial report ("),
            Span::Number(rows as u64),
            Span::Text(" of "),
            Span::Count(u64::from(jobs), "job"),
            Span::Text(")"),
            Span::Text(EXPECTED_WHOLE_REPORT),
        ],
    )
}

// Returns the message that the report at `path` has `rows` rows, but the list at `list_path` has `jobs` jobs.
fn row_count_message<'a>(
    alloc: Global,
    path: &'a str,
    list_path: &'a str,
    rows: usize,
    jobs: usize,
) -> Result<Vec<u8>, AllocError>
    ensures { IfOk result (λ text. text.items ≡ row_count_message path.now list_path.now rows jobs) }
{
    text_of_spans(
        alloc,
        &[
            Span::Text("rvtest: "),
            Span::Printable(path.as_bytes()),
            Span::Text(": has "),
            Span::Count(rows as u64, "row"),
            Span::Text(", but "),
            Span::Printable(list_path.as_bytes()),
            Span::Text(" has "),
            Span::Count(jobs as u64, "job"),
            Span::Text(EXPECTED_WHOLE_REPORT),
        ],
    )
}

// Returns the message that the job with this number has different names in the report at `path` and in the list at `list_path`.
fn name_mismatch_message<'a>(
    alloc: Global,
    path: &'a str,
    list_path: &'a str,
    name: NameMismatch<'a>,
) -> Result<Vec<u8>, AllocError>
    ensures { IfOk result (λ text. text.items
        ≡ name_mismatch_message path.now list_path.now name.entry.number name.entry.in_report.now name.entry.listed.now) }
{
    text_of_spans(
        alloc,
        &[
            Span::Text("rvtest: "),
            Span::Printable(path.as_bytes()),
            Span::Text(": job "),
            Span::Number(name.number as u64),
            Span::Text(" is \""),
            Span::Text(name.in_report),
            Span::Text("\", but \""),
            Span::Text(name.listed),
            Span::Text("\" in "),
            Span::Printable(list_path.as_bytes()),
            Span::Text(EXPECTED_WHOLE_REPORT),
        ],
    )
}
