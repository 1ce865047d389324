//! The command `show`.

ghost use Rattle.std.specs.Prelude.{◌≡◌, ◌≤◌, ◌<◌, ◌^◌, None, IfErr, IfOk, IfSome, OnErr, OnOk, Some, length};
ghost use Rattle.rv_expect.specs.Judgement.{judge_view};
ghost use Rattle.rv_command.specs.Texts.{optional_text};
ghost use Rattle.rv_rows.specs.Report.{report_text};
ghost use Rattle.rvtest_app.specs.CommandStops.{IsShowStop};
ghost use Rattle.rvtest_app.specs.OutputWrites.{IsOutputWritten};
ghost use Rattle.rvtest_app.specs.WriteStops.{IsOutputStop};
ghost use Rattle.rvtest_app.specs.Commands.{report_judging};
ghost use Rattle.rvtest_app.specs.RunOutput.{rows_status};
ghost use Rattle.rvtest_app.specs.ReportSummary.{summary_text};
ghost use Rattle.rvtest_app.specs.Outlets.{AreFilesPartlyCommitted, file_at};
ghost use Rattle.rvtest_app.specs.Overwrites.{HoldsIfCommitted, IsShowFileNotAnInput, IsShowOverwriteStop};
ghost use Rattle.rvtest_app.specs.Shows.{IsShowWritten, IsAbortedShowAt, shown_junit};
ghost use Rattle.rvtest_app.specs.CommandOutputs.{outputs_of};

use crate::destinations::Destinations;
use crate::junit_class::suite_name;
use crate::outlets::{abandon_outlets, open_outlets};
use crate::output_writes::write_shown;
use crate::overwrites::{identified_files, inputs_of_args, reject_option_overwrite};
use crate::report_summary::push_summary;
use crate::rules::{report_judge, rows_status};
use crate::whole_files::write_whole_files;
use rv_command::{RequestedReport, Stop, read_requested_report, truncation_note, write_message};
use rv_expect::Judge;
use rv_files::{Inputs, Outputs, Sink};
use rv_junit::Suite;
use rv_rows::{Row, SavedReport};
use rvtest_cli::ShowArgs;
use std::alloc::{AllocError, Global};

// A report that was read, with its summary and the exit status.
#[derive(Drop)]
struct SummarizedReport {
    report: SavedReport,
    summary: Vec<u8>,
    status: u8,
}

/// Shows the failures in a report, the totals, and the rows with the most steps. The status is 1 if a job failed, and otherwise 0.
pub(crate) fn show_report<D: Inputs, F: Outputs + Drop, O: Sink + Drop, E: Sink + Drop>(
    inputs: &D,
    alloc: Global,
    args: ShowArgs<'_>,
    destinations: &mut Destinations<F, O, E>,
) -> Result<u8, Stop>
    ensures status_bound { IfOk result (λ status. status ≤ 1) }
    ensures shown { IfOk result (λ status. IsShowWritten (D.contents inputs.now) args.entry status
        (outputs_of F.committed O.accepted E.accepted E.failure_count destinations.old) (outputs_of F.committed O.accepted E.accepted E.failure_count destinations.new)) }
    ensures committed_after_error { OnErr result (IsAbortedShowAt (D.contents inputs.now) args.entry
        (F.committed destinations.old.files) (F.committed destinations.new.files)) }
    ensures stopped { IfErr result (IsShowStop (D.contents inputs.now) args.entry) }
    // The input report is not overwritten.
    ensures inputs_preserved { HoldsIfCommitted (IsShowFileNotAnInput args.entry) (F.committed destinations.old.files) (F.committed destinations.new.files) }
{
    reject_show_overwrite(&destinations.files, alloc, &args)?;
    let requested = RequestedReport {
        path: args.report,
        partial: args.partial,
    };
    let partial_report = read_requested_report(inputs, alloc, requested)?;
    let note = truncation_note(alloc, args.report, &partial_report)?;
    let summarized = summarize_report(alloc, args, partial_report.report)?;
    write_message(&mut destinations.errors, note.as_slice());
    let status = summarized.status;
    write_summarized_report(alloc, args, summarized, destinations)?;
    Ok(status)
}

// Returns an error if writing the JUnit file would overwrite the report.
fn reject_show_overwrite<F: Outputs>(
    files: &F,
    alloc: Global,
    args: &ShowArgs<'_>,
) -> Result<(), Stop>
    ensures inputs_preserved { OnOk result (IfSome (F.committed files.now) (λ _. IsShowFileNotAnInput args.now)) }
    ensures stopped { IfErr result (IsShowOverwriteStop args.now) }
{
    let inputs = identified_files(
        files,
        alloc,
        inputs_of_args(alloc, &[args.report], "the report")?,
    )?;
    reject_option_overwrite(files, alloc, "--junit", args.junit, &inputs)
}

// Returns the report together with its summary and the exit status.
fn summarize_report(
    alloc: Global,
    args: ShowArgs<'_>,
    report: SavedReport,
) -> Result<SummarizedReport, AllocError>
    requires { length report.rows < 2 ^ 32 }
    ensures report { IfOk result (λ summarized. summarized.report ≡ report) }
    ensures summary { IfOk result (λ summarized. summarized.summary.items
        ≡ summary_text (report_judging args.entry.lenient) report.rows) }
    ensures exit_status { IfOk result (λ summarized. summarized.status
        ≡ rows_status (report_judging args.entry.lenient) report.rows) }
    ensures status_bound { IfOk result (λ summarized. summarized.status ≤ 1) }
{
    let judge = report_judge(args.lenient);
    let summary = summary_text(alloc, &judge, report.rows.as_slice())?;
    let status = rows_status(&judge, report.rows.as_slice());
    Ok(SummarizedReport {
        report,
        summary,
        status,
    })
}

// Writes the summary and, if requested, the JUnit XML.
fn write_summarized_report<F: Outputs + Drop, O: Sink + Drop, E: Sink + Drop>(
    alloc: Global,
    args: ShowArgs<'_>,
    summarized: SummarizedReport,
    destinations: &mut Destinations<F, O, E>,
) -> Result<(), Stop>
    ensures written { OnOk result (IsOutputWritten None (optional_text args.entry.junit) summarized.summary.items
        (report_text summarized.report.rows)
        (shown_junit args.entry summarized.report.rows)
        (outputs_of F.committed O.accepted E.accepted E.failure_count destinations.old) (outputs_of F.committed O.accepted E.accepted E.failure_count destinations.new)) }
    ensures committed_after_error { OnErr result (AreFilesPartlyCommitted (F.committed destinations.old.files) (F.committed destinations.new.files)
        (Some (file_at (optional_text args.entry.junit) (shown_junit args.entry summarized.report.rows)))) }
    ensures stopped { IfErr result (IsOutputStop None (optional_text args.entry.junit)) }
{
    let SummarizedReport {
        report,
        summary,
        ..
    } = summarized;
    let outlets = open_outlets(&mut destinations.files, alloc, None, args.junit)?;
    let suite = Suite {
        name: suite_name(args.suite, args.report).as_bytes(),
        judge: report_judge(args.lenient),
    };
    match write_shown(destinations, summary.as_slice(), outlets.use_stdout()) {
        Ok(()) => write_whole_files(alloc, destinations, outlets, suite, report.rows),
        Err(stop) => {
            abandon_outlets(&mut destinations.files, outlets);
            Err(stop)
        }
    }
}

// Returns what `show` prints about the rows of a report: the failures, the totals, and the rows with the most steps.
fn summary_text(alloc: Global, judge: &Judge<'_>, rows: &[Row]) -> Result<Vec<u8>, AllocError>
    requires { length rows.now < 2 ^ 32 }
    ensures { IfOk result (λ text. text.items ≡ summary_text (judge_view judge.now) rows.now) }
{
    let mut text = Vec::new(alloc);
    push_summary(alloc, &mut text, judge, rows)?;
    Ok(text)
}
