//! The command `diff`.

ghost use Rattle.std.specs.Prelude.{◌≡◌, ◌⊎◌, ◌≤◌, ◌<◌, ◌^◌, ◌++◌, IfErr, IfOk, MatchResult, length};
ghost use Rattle.rv_command.specs.Messages.{truncation_note};
ghost use Rattle.rvtest_app.specs.Commands.{diff_status};
ghost use Rattle.rvtest_app.specs.Reports.{IsDiffAt, IsDiffOf, IsDiffOfReports, IsDiffWritten, compared_rows, is_partial_of_whole, uncompared_row_count};
ghost use Rattle.rvtest_app.specs.Reports.{requested_comparison};
ghost use Rattle.rvtest_app.specs.CommandOutputs.{outputs_of};
ghost use Rattle.rvtest_app.specs.CommandStops.{IsDiffAtStop};
ghost use Rattle.rvtest_app.specs.ReportedStops.{IsDiffStop};
ghost use Rattle.rv_command.specs.declared.stop.Stop.TheVariants.{OutOfMemory, WriteFailed};
ghost use Rattle.rv_diff.specs.Diff.{diff_text, difference_counts};

use crate::command_result::CommandResult;
use crate::destinations::Destinations;
use rv_command::{
    DONE, RequestedReport, SOME_FAIL, Stop, parse_requested_report, read_result_file,
    truncation_note, write_message, write_results,
};
use rv_diff::{CompareMode, ComparedReports, DifferenceCounts, push_diff, rows_in_both};
use rv_files::{Inputs, Outputs, Sink};
use rv_rows::{Extent, PartialReport, Row, SavedReport};
use rvtest_cli::DiffArgs;
use std::alloc::{AllocError, Global};

// The differences between two reports with the exit status, and the notes about truncated reports.
#[derive(Drop)]
struct NotedDiff {
    output: CommandResult,
    notes: Vec<u8>,
}

/// Writes the notes about truncated reports to standard error, and the differences between two reports to standard output. The status is 1
/// if a job differs, and otherwise 0.
pub(crate) fn diff_reports<D: Inputs, F: Outputs + Drop, O: Sink + Drop, E: Sink + Drop>(
    inputs: &D,
    alloc: Global,
    args: DiffArgs<'_>,
    destinations: &mut Destinations<F, O, E>,
) -> Result<u8, Stop>
    ensures written { IfOk result (λ status. IsDiffWritten (D.contents inputs.now) args.entry status
        (outputs_of F.committed O.accepted E.accepted E.failure_count destinations.old) (outputs_of F.committed O.accepted E.accepted E.failure_count destinations.new)) }
    ensures status_bound { IfOk result (λ status. status ≤ 1) }
    ensures stopped { IfErr result (λ stop. (stop ≡ WriteFailed)
        ⊎ IsDiffAtStop (D.contents inputs.now) args.entry stop) }
{
    let NotedDiff { output, notes } = diff_of_files(inputs, alloc, args)?;
    write_message(&mut destinations.errors, notes.as_slice());
    write_results(&mut destinations.out, output.text.as_slice())?;
    Ok(output.status)
}

// Returns the differences between the reports at the two paths in the arguments, with the notes about truncated reports.
fn diff_of_files<D: Inputs>(
    inputs: &D,
    alloc: Global,
    args: DiffArgs<'_>,
) -> Result<NotedDiff, Stop>
    ensures diff { IfOk result (λ noted. IsDiffAt (D.contents inputs.now) args.entry
        noted.output.text.items noted.notes.items noted.output.status) }
    ensures status_bound { IfOk result (λ noted. noted.output.status ≤ 1) }
    ensures stopped { IfErr result (IsDiffAtStop (D.contents inputs.now) args.entry) }
{
    let old = read_result_file(inputs, alloc, args.old)?;
    let new = read_result_file(inputs, alloc, args.new);
    diff_report_texts(alloc, args, old.as_slice(), new)
}

// Returns the differences between two reports, given the text of the old one and the result of reading the new one. If both have an error,
// the error of the old report is returned.
fn diff_report_texts(
    alloc: Global,
    args: DiffArgs<'_>,
    old: &[u8],
    new: Result<Vec<u8>, Stop>,
) -> Result<NotedDiff, Stop>
    ensures diff { IfOk result (λ noted. MatchResult new (λ new. IsDiffOf args.entry old.now new.items
        noted.output.text.items noted.notes.items noted.output.status) (λ stop. ⊥)) }
    ensures stopped { IfErr result (IsDiffStop args.entry old.now new) }
    ensures status_bound { IfOk result (λ noted. noted.output.status ≤ 1) }
{
    let old = parse_requested_report(alloc, requested_report(args.old, args), old)?;
    let new_text = new?;
    let new = parse_requested_report(alloc, requested_report(args.new, args), new_text.as_slice())?;
    diff_read_reports(alloc, args, old, new)
}

// Returns a request for the report at `path`. With `--partial`, the report can be truncated.
fn requested_report<'a>(path: &'a str, args: DiffArgs<'_>) -> RequestedReport<'a>
    ensures path { result.path.now ≡ path.entry.now }
    ensures partial { result.partial ≡ args.entry.partial }
{
    RequestedReport {
        path,
        partial: args.partial,
    }
}

// Returns the differences between two reports, with a note for each truncated one.
fn diff_read_reports(
    alloc: Global,
    args: DiffArgs<'_>,
    old: PartialReport,
    new: PartialReport,
) -> Result<NotedDiff, Stop>
    requires old { length old.report.rows < 2 ^ 32 }
    requires new { length new.report.rows < 2 ^ 32 }
    ensures diff { IfOk result (λ noted. IsDiffOfReports (requested_comparison args.entry.steps args.entry.slower)
        old.report new.report noted.output.text.items noted.output.status) }
    ensures notes { IfOk result (λ noted. noted.notes.items
        ≡ truncation_note args.entry.old.now old ++ truncation_note args.entry.new.now new) }
    ensures status_bound { IfOk result (λ noted. noted.output.status ≤ 1) }
    ensures memory { IfErr result (λ stop. stop ≡ OutOfMemory) }
{
    let mut notes = truncation_note(alloc, args.old, &old)?;
    notes.extend_from_slice(truncation_note(alloc, args.new, &new)?.as_slice())?;
    let compare = requested_comparison(args.steps, args.slower);
    let output = diff_saved_reports(alloc, compare, old.report, new.report)?;
    Ok(NotedDiff { output, notes })
}

// Returns the differences between the compared rows of two reports, and the exit status.
fn diff_saved_reports(
    alloc: Global,
    compare: CompareMode,
    old: SavedReport,
    new: SavedReport,
) -> Result<CommandResult, Stop>
    requires old { length old.rows < 2 ^ 32 }
    requires new { length new.rows < 2 ^ 32 }
    ensures status_bound { IfOk result (λ output. output.status ≤ 1) }
    ensures text { IfOk result (λ output. output.text.items
        ≡ diff_text compare (compared_rows new old) (compared_rows old new) (uncompared_row_count old new)) }
    ensures exit_status { IfOk result (λ output. output.status
        ≡ diff_status (difference_counts compare (compared_rows new old) (compared_rows old new))) }
    ensures memory { IfErr result (λ stop. stop ≡ OutOfMemory) }
{
    let all = old.rows.as_slice().len() + new.rows.as_slice().len();
    let (old, new) = compared_rows(alloc, old, new)?;
    let compared = ComparedReports {
        old: old.as_slice(),
        new: new.as_slice(),
        not_compared: all - old.len() - new.len(),
    };
    diff_rows(alloc, compare, compared)
}

// Returns the rows of the two reports that are compared: if one report is of a whole list and the other only of chosen jobs, the rows of
// the jobs that both have; otherwise all rows.
fn compared_rows(
    alloc: Global,
    old: SavedReport,
    new: SavedReport,
) -> Result<(Vec<Row>, Vec<Row>), AllocError>
    ensures old { IfOk result (λ rows. rows.0.items ≡ compared_rows new old) }
    ensures new { IfOk result (λ rows. rows.1.items ≡ compared_rows old new) }
{
    let (is_old_part, is_new_part) = (
        is_partial_of_whole(&old.extent, &new.extent),
        is_partial_of_whole(&new.extent, &old.extent),
    );
    let (old, new) = (old.rows.into_vec(), new.rows.into_vec());
    if is_new_part {
        let old = rows_in_both(alloc, old, new.as_slice())?;
        return Ok((old, new));
    }
    if is_old_part {
        let new = rows_in_both(alloc, new, old.as_slice())?;
        return Ok((old, new));
    }
    Ok((old, new))
}

// Whether `part` is the extent of a report of chosen jobs, and `other` that of a report of a whole list.
fn is_partial_of_whole(part: &Extent, other: &Extent) -> bool
    ensures { result ≡ is_partial_of_whole part.now other.now }
{
    match (part, other) {
        (Extent::Selection(_), Extent::Whole) => true,
        _ => false,
    }
}

// Returns what to compare: with `--steps` the outcomes, steps, and addresses and values of faults; else with `--slower` the outcomes, and
// whether the steps grew by more than this percentage; else the outcomes.
fn requested_comparison(steps: bool, slower: Option<u32>) -> CompareMode
    ensures { result ≡ requested_comparison steps slower }
{
    match (steps, slower) {
        (true, _) => CompareMode::Steps,
        (false, Some(percent)) => CompareMode::Slower(percent),
        (false, None) => CompareMode::Outcomes,
    }
}

// Returns the differences between the rows, with the exit status.
fn diff_rows(
    alloc: Global,
    compare: CompareMode,
    compared: ComparedReports<'_>,
) -> Result<CommandResult, Stop>
    requires old { length compared.old.now < 2 ^ 32 }
    requires new { length compared.new.now < 2 ^ 32 }
    ensures status_bound { IfOk result (λ output. output.status ≤ 1) }
    ensures text { IfOk result (λ output. output.text.items
        ≡ diff_text compare compared.entry.old.now compared.entry.new.now compared.entry.not_compared) }
    ensures exit_status { IfOk result (λ output. output.status
        ≡ diff_status (difference_counts compare compared.entry.old.now compared.entry.new.now)) }
    ensures memory { IfErr result (λ stop. stop ≡ OutOfMemory) }
{
    let mut text = Vec::new(alloc);
    let counts = push_diff(alloc, &mut text, compare, compared)?;
    Ok(CommandResult {
        text,
        status: diff_status(counts),
    })
}

// Returns the exit status of `diff`: 0 if no job differs, and otherwise 1.
fn diff_status(counts: DifferenceCounts) -> u8
    ensures value { result ≡ diff_status counts }
    ensures status_bound { result ≤ 1 }
{
    if counts.has_differences() {
        SOME_FAIL
    } else {
        DONE
    }
}
