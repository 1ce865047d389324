//! Reading the job list that is named in the arguments.

ghost use Rattle.std.specs.Prelude.{◌≡◌, ◌≤◌, [], Err, IfErr, IfOk, Ok, length};
ghost use Rattle.rv_files.specs.Limits.{max_file_size};
ghost use Rattle.rv_command.specs.Stops.{IsListFaultStop, IsListUnreadStop};
ghost use Rattle.rv_command.specs.Texts.{IsTextAt};
ghost use Rattle.rv_list_errors.specs.FaultHeads.{fault_head};
ghost use Rattle.rv_list_errors.specs.Lines.{AppendsFaultLines, AppendsLines};
ghost use Rattle.rv_list_errors.specs.LocatedFaults.{IsFaultMessage, AppendsLinesOfEach};
ghost use Rattle.rv_rows.specs.JobList.{job_list_of};

use crate::files::read_file_up_to;
use crate::messages::path_message;
use crate::stop::Stop;
use rv_files::Inputs;
use rv_files::limits::MAX_FILE_SIZE;
use rv_list_errors::{push_all_faults, push_faults};
use rv_rows::{JobError, JobList, What, read_jobs};
use std::alloc::{AllocError, Global};

/// Reads a job list or a file of known failures. It is an error if the file has more than 16,777,216 bytes.
pub fn read_list_text<D: Inputs>(inputs: &D, alloc: Global, path: &str) -> Result<Vec<u8>, Stop>
    ensures read { IfOk result (λ text. IsTextAt (D.contents inputs.now) path.now text.items) }
    ensures at_most_max { IfOk result (λ text. length text.items ≤ max_file_size) }
    ensures stopped { IfErr result (IsListUnreadStop (D.contents inputs.now) path.now) }
{
    match read_file_up_to(inputs, alloc, path, MAX_FILE_SIZE)? {
        Some(text) => Ok(text),
        None => {
            let reason = "the file is larger than 16777216 bytes";
            Err(Stop::system_failure(path_message(alloc, path, reason)))
        }
    }
}

/// Parses the text of a list. The error reports the first mistake in the text.
pub fn parse_list(alloc: Global, path: &str, text: &[u8]) -> Result<JobList, Stop>
    ensures jobs { IfOk result (λ jobs. job_list_of text.now ≡ Ok jobs) }
    ensures stopped { IfErr result (IsListFaultStop path.now text.now) }
{
    match read_jobs(alloc, text) {
        Ok(jobs) => Ok(jobs),
        Err(error) => Err(list_fault_stop(alloc, path, text, error)),
    }
}

// Returns the stop for an invalid list: out of memory, or the line that reports the error.
fn list_fault_stop(alloc: Global, path: &str, text: &[u8], error: JobError) -> Stop
    requires { (error.what ≡ What.OutOfMemory → ⊥) → job_list_of text.now ≡ Err error }
    ensures { IsListFaultStop path.now text.now result }
{
    match error.what {
        What::OutOfMemory => Stop::OutOfMemory,
        _ => Stop::rejection(list_faults_text(alloc, path, text, &[error])),
    }
}

/// Returns the lines that report these errors of a list, one for each, in order. `path` and `text` are those of the list.
pub fn list_faults_text(
    alloc: Global,
    path: &str,
    text: &[u8],
    faults: &[JobError],
) -> Result<Vec<u8>, AllocError>
    ensures lines { IfOk result (λ lines. AppendsLines (length faults.now) [] lines.items) }
    ensures heads { IfOk result
        (λ lines. AppendsFaultLines (fault_head path.now text.now) faults.now [] lines.items) }
{
    let mut lines = Vec::new(alloc);
    push_faults(alloc, &mut lines, path, text, faults)?;
    Ok(lines)
}

/// Returns the lines that report all errors of a list. `faults` has only the first error of each job; the jobs are searched for the others.
pub fn all_faults_text(
    alloc: Global,
    path: &str,
    text: &[u8],
    faults: &[JobError],
) -> Result<Vec<u8>, AllocError>
    ensures { IfOk result
        (λ lines. AppendsLinesOfEach (IsFaultMessage path.now text.now) faults.now [] lines.items) }
{
    let mut lines = Vec::new(alloc);
    push_all_faults(alloc, &mut lines, path, text, faults)?;
    Ok(lines)
}
