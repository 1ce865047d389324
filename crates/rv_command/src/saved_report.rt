//! Reading complete reports.

ghost use Rattle.std.specs.Prelude.{◌≡◌, ◌≤◌, IfErr, IfOk, length};
ghost use Rattle.rv_files.specs.Limits.{max_jobs};
ghost use Rattle.rv_command.specs.Stops.{IsLineStop, IsReportFaultStop, IsReportReadStop};
ghost use Rattle.rv_command.specs.Texts.{IsReportAt, IsReportText};

use crate::files::read_result_file;
use crate::invalid_line::{ResultKind, invalid_line_message};
use crate::messages::path_message;
use crate::stop::Stop;
use rv_files::Inputs;
use rv_rows::{ReadError, SavedReport, read_report};
use std::alloc::Global;

/// Reads a report: of a whole list, of a shard, or of chosen jobs.
pub fn read_report_file<D: Inputs>(
    inputs: &D,
    alloc: Global,
    path: &str,
) -> Result<SavedReport, Stop>
    ensures read { IfOk result (IsReportAt (D.contents inputs.now) path.now) }
    ensures at_most_max { IfOk result (λ report. length report.rows ≤ max_jobs) }
    ensures stopped { IfErr result (IsReportReadStop (D.contents inputs.now) path.now) }
{
    let text = read_result_file(inputs, alloc, path)?;
    parse_report(alloc, path, text.as_slice())
}

/// Parses the text of a report that was read from the path.
pub fn parse_report(alloc: Global, path: &str, text: &[u8]) -> Result<SavedReport, Stop>
    ensures report { IfOk result (IsReportText text.now) }
    ensures at_most_max { IfOk result (λ report. length report.rows ≤ max_jobs) }
    ensures stopped { IfErr result (IsReportFaultStop path.now text.now) }
{
    match read_report(alloc, text) {
        Ok(report) => Ok(report),
        Err(ReadError::OutOfMemory) => Err(Stop::OutOfMemory),
        Err(ReadError::Truncated) => {
            let message = path_message(alloc, path, "the report is truncated");
            Err(Stop::rejection(message))
        }
        Err(ReadError::Line(line)) => Err(report_line_stop(alloc, path, text, line)),
    }
}

/// Returns the stop that reports the invalid line of a report with this number, or that the file is a job list.
pub(crate) fn report_line_stop(alloc: Global, path: &str, text: &[u8], line: usize) -> Stop
    ensures { IsLineStop path.now text.now line result }
{
    let message = invalid_line_message(alloc, ResultKind::Report, path, text, line);
    Stop::rejection(message)
}
