//! The texts of reports: of a whole list, of chosen jobs, or of a whole list after an update by chosen jobs.

ghost use Rattle.std.specs.Prelude.{◌≡◌, IfErr, OnErr, OnOk, length};
ghost use Rattle.std.specs.Option.{ForSome};
ghost use Rattle.std.specs.Io.KnownBytes.{Appends};
ghost use Rattle.rv_files.specs.Counts.{HasIncreased};
ghost use Rattle.rv_files.specs.Sinks.{AppendsPrefix};
ghost use Rattle.rv_rows.specs.Report.{report_text};
ghost use Rattle.rvtest_app.specs.IntoReports.{merged_rows, run_report_rest, run_report_text};
ghost use Rattle.rvtest_app.specs.ReportTexts.{report_rest_of, report_rows, report_text_of};

use crate::chosen_rows::ChosenRows;
use crate::into_report::{IntoRows, ReportContext};
use crate::rows_report::{write_chosen_report, write_last_line};
use rv_files::Sink;
use rv_rows::{Report, Row, Rows, Shard, WriteError, write_report};
use std::alloc::Global;

/// The contents of a report that is to be written.
#[derive(Drop)]
pub(crate) enum ReportText<'a> {
    /// All rows of a list.
    Whole(Rows),
    /// The rows of chosen jobs, or of the jobs of a shard. If the report goes to a file, they are written as soon as their jobs finish.
    Chosen(ChosenRows<'a>, Option<Shard>),
    /// The rows of chosen jobs, and the rows of the old report that they update.
    Into(IntoRows<'a>),
}

impl<'a> ReportText<'a> {
    /// Returns the rows of the run, without those of an old report.
    pub(crate) fn rows(&self) -> &[Row]
        ensures { result.now ≡ report_rows self.now }
    {
        match self {
            ReportText::Whole(rows) => rows.as_slice(),
            ReportText::Chosen(chosen, _) => chosen.rows.as_slice(),
            ReportText::Into(into) => into.chosen.rows.as_slice(),
        }
    }

    /// Writes the report from its first line to its last. After an error, a prefix of it has been written.
    pub(crate) fn write<W: Sink>(self, alloc: Global, out: &mut W) -> Result<(), WriteError>
        ensures written { OnOk result
            (Appends (W.accepted out.old) (W.accepted out.new) (report_text_of self.entry)) }
        ensures no_failed_writes { OnOk result (W.failure_count out.new ≡ W.failure_count out.old) }
        ensures prefix_written { OnErr result
            (AppendsPrefix (W.accepted out.old) (W.accepted out.new) (report_text_of self.entry)) }
        ensures failures_increased { IfErr result (λ error. error ≡ WriteError.Failed
            → HasIncreased (W.failure_count out.old) (W.failure_count out.new)) }
    {
        match self {
            ReportText::Whole(rows) => write_report(alloc, &Report { rows }, out),
            ReportText::Chosen(chosen, shard) => write_chosen_report(alloc, chosen, shard, out),
            ReportText::Into(into) => write_whole_report(alloc, into, out),
        }
    }

    /// Writes the rest of the report to a file: only the last line if it is a report of chosen jobs, whose rows the file received while the
    /// jobs ran; otherwise the whole report. After an error, a prefix of the rest has been written.
    pub(crate) fn write_rest<W: Sink>(self, alloc: Global, out: &mut W) -> Result<(), WriteError>
        ensures written { OnOk result
            (Appends (W.accepted out.old) (W.accepted out.new) (report_rest_of self.entry)) }
        ensures no_failed_writes { OnOk result (W.failure_count out.new ≡ W.failure_count out.old) }
        ensures prefix_written { OnErr result
            (AppendsPrefix (W.accepted out.old) (W.accepted out.new) (report_rest_of self.entry)) }
        ensures failures_increased { IfErr result (λ error. error ≡ WriteError.Failed
            → HasIncreased (W.failure_count out.old) (W.failure_count out.new)) }
    {
        match self {
            ReportText::Whole(rows) => write_report(alloc, &Report { rows }, out),
            ReportText::Chosen(chosen, shard) => write_last_line(alloc, chosen, shard, out),
            ReportText::Into(into) => write_whole_report(alloc, into, out),
        }
    }
}

// Writes the old report with the rows of the chosen jobs replaced. After an error, a prefix of it has been written.
fn write_whole_report<W: Sink>(
    alloc: Global,
    into: IntoRows<'_>,
    out: &mut W,
) -> Result<(), WriteError>
    ensures written { OnOk result (Appends (W.accepted out.old) (W.accepted out.new)
        (report_text (merged_rows into.entry.chosen.indices.now into.entry.chosen.rows into.entry.old))) }
    ensures no_failed_writes { OnOk result (W.failure_count out.new ≡ W.failure_count out.old) }
    ensures prefix_written { OnErr result (AppendsPrefix (W.accepted out.old) (W.accepted out.new)
        (report_text (merged_rows into.entry.chosen.indices.now into.entry.chosen.rows into.entry.old))) }
    ensures failures_increased { IfErr result (λ error. error ≡ WriteError.Failed
        → HasIncreased (W.failure_count out.old) (W.failure_count out.new)) }
{
    let rows = into.into_whole_rows();
    write_report(alloc, &Report { rows }, out)
}

/// Returns the report to write: the old report updated with these rows if there is one, and otherwise a report of these rows alone.
pub(crate) fn report_with_context(chosen: ChosenRows<'_>, context: ReportContext) -> ReportText<'_>
    requires { ForSome context.old (λ rows. length rows ≡ chosen.jobs) }
    ensures text { report_text_of result
        ≡ run_report_text context.old chosen.entry.jobs chosen.entry.indices.now context.shard chosen.entry.rows }
    ensures rest { report_rest_of result
        ≡ run_report_rest context.old chosen.entry.jobs chosen.entry.indices.now context.shard chosen.entry.rows }
    ensures rows { report_rows result ≡ chosen.entry.rows }
{
    let ReportContext { shard, old } = context;
    match old {
        Some(old) => ReportText::Into(IntoRows { chosen, old }),
        None => ReportText::Chosen(chosen, shard),
    }
}
