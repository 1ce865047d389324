//! Finding a job by name in the text of a list.

ghost use Rattle.std.specs.Prelude.{◌≡◌, ◌<◌, IfErr, IfOk, IfSome, Ok, length, position};
ghost use Rattle.std.specs.Str.{bytes_eq};
ghost use Rattle.rv_rows.specs.JobList.{job_list_of};
ghost use Rattle.rvtest_app.specs.CommandStops.{IsNoJobStop};
ghost use Rattle.rvtest_app.specs.Reports.{IsFirstJobNamed};

use rv_choice::unknown_name_stop;
use rv_command::{Stop, parse_list};
use rv_rows::{Job, JobList};
use std::alloc::Global;

/// The jobs of a list, and the index of the named one.
#[derive(Drop)]
pub(crate) struct NamedJob {
    pub(crate) jobs: JobList,
    pub(crate) index: usize,
}

/// Parses the text of a list, and returns its jobs and the index of the first job with this name. It is an error if no job has this name.
/// `list_path` is the path of the list.
pub(crate) fn find_named_job(
    alloc: Global,
    list_path: &str,
    name: &str,
    text: &[u8],
) -> Result<NamedJob, Stop>
    ensures listed { IfOk result (λ named. job_list_of text.now ≡ Ok named.jobs) }
    ensures first { IfOk result (λ named. IsFirstJobNamed named.jobs name.now named.index) }
    ensures within { IfOk result (λ named. named.index < length named.jobs) }
    ensures stopped { IfErr result (IsNoJobStop list_path.now text.now name.now) }
{
    let jobs = parse_list(alloc, list_path, text)?;
    match named_job_index(jobs.as_slice(), name) {
        Some(index) => Ok(NamedJob { jobs, index }),
        None => Err(unknown_name_stop(alloc, list_path, jobs.as_slice(), name)),
    }
}

// Returns the index of the first job with this name; `None` if there is none.
fn named_job_index(jobs: &[Job], name: &str) -> Option<usize>
    ensures within { IfSome result (λ index. index < length jobs.now) }
    ensures named { result ≡ position (λ job. bytes_eq job.name name.now) jobs.now }
{
    jobs.iter().position(|job| job.name.as_str() == name)
}
