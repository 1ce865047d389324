//! Parsing job lists: from bytes to jobs, or the first error.

ghost use Rattle.std.specs.Prelude.{◌≡◌, ◌≤◌, [], MatchResult, IfOk, Some, Ok, Err, length};
ghost use Rattle.std.specs.Prelude.{vec_len, option_map};
ghost use Rattle.toml.specs.View.{view, table_view, array_view, items_view};
ghost use Rattle.rv_lists.specs.declared.error.What.TheVariants.{OutOfMemory};
ghost use Rattle.rv_base.specs.Limits.{max_jobs};
ghost use Rattle.rv_lists.specs.Parsing.{MatchesJobsUnlessOutOfMemory};
ghost use Rattle.rv_lists.specs.JobList.{has_no_jobs, has_too_many_jobs, job_elements, jobs_of_elements, jobs_of_document};
ghost use Rattle.rv_lists.specs.JobList.{job_list_of};

use crate::earlier_jobs::EarlierJobs;
use crate::error::{JobError, What};
use crate::job::JobList;
use crate::job_keys::job_from_element;
use crate::keys::{has_unknown_list_key, value_at_key};
use rv_base::limits::MAX_JOBS;
use std::alloc::Global;
use toml::value::Array;
use toml::{Table, Value};

/// Parses bytes as a job list, or returns the first error: an error of the whole list, with job 0, or else the error of the first bad job
/// in list order.
#[tactic(auto, unfolding(crate::specs::JobList::job_list_of))]
pub fn read_jobs(alloc: Global, bytes: &[u8]) -> Result<JobList, JobError>
    ensures { MatchesJobsUnlessOutOfMemory result (job_list_of bytes.now) }
{
    match toml::table_from_slice(alloc, bytes) {
        Ok(table) => jobs_of_table(alloc, &table),
        Err(error) => {
            if error.is_memory() {
                // Out of memory: `toml` reports that its own allocation failed.
                return Err(list_error(What::OutOfMemory));
            }
            Err(list_error(What::NotToml))
        }
    }
}

/// Returns this error as an error of the whole list, with job 0.
pub(crate) fn list_error(kind: What) -> JobError
    ensures { result ≡ record { job = 0; what = kind } }
{
    JobError { job: 0, what: kind }
}

// Returns the jobs of a list that is a TOML document, or the first error.
#[tactic(auto, unfolding(crate::specs::JobList::jobs_of_document))]
fn jobs_of_table(alloc: Global, table: &Table) -> Result<JobList, JobError>
    ensures { MatchesJobsUnlessOutOfMemory result (jobs_of_document (Some (table_view table.now))) }
{
    match job_elements(table) {
        Ok(elements) => jobs_of_elements(alloc, elements.as_slice()),
        Err(what) => Err(list_error(what)),
    }
}

/// Returns the elements of `job`, or the first error of the whole list.
#[tactic(auto, unfolding(crate::specs::JobList::job_elements))]
pub(crate) fn job_elements(table: &Table) -> Result<&Array, What>
    ensures value { MatchResult result (λ a. job_elements (table_view table.now)
        ≡ Ok (array_view a.now))
        (λ e. job_elements (table_view table.now) ≡ Err e) }
    ensures at_most_max { IfOk result (λ a. vec_len a.now ≤ max_jobs) }
{
    let value = value_at_key(table, "job");
    if has_no_jobs(value) {
        return Err(What::NoJobs);
    }
    if has_too_many_jobs(value) {
        return Err(What::TooMany);
    }
    if has_unknown_list_key(table) {
        return Err(What::UnknownKey);
    }
    match value {
        Some(value) => match value.as_array() {
            Some(elements) => Ok(elements),
            None => Err(What::WrongType),
        },
        None => Err(What::WrongType),
    }
}

// Whether `job` is missing or an empty array.
fn has_no_jobs(value: Option<&Value>) -> bool
    ensures { result ≡ has_no_jobs (option_map (λ v. view v.now) value.entry) }
{
    match value {
        Some(value) => match value.as_array() {
            Some(elements) => elements.is_empty(),
            None => false,
        },
        None => true,
    }
}

// Whether `job` is an array of more than 4,096 elements.
fn has_too_many_jobs(value: Option<&Value>) -> bool
    ensures { result ≡ has_too_many_jobs (option_map (λ v. view v.now) value.entry) }
{
    match value {
        Some(value) => match value.as_array() {
            Some(elements) => MAX_JOBS < elements.len(),
            None => false,
        },
        None => false,
    }
}

// Returns the jobs of the elements of `job`, or the error of the first bad job, with its number.
fn jobs_of_elements(alloc: Global, elements: &[Value]) -> Result<JobList, JobError>
    requires { length elements.now ≤ max_jobs }
    ensures { MatchesJobsUnlessOutOfMemory result (jobs_of_elements 1 [] (items_view elements.now)) }
{
    let mut jobs = EarlierJobs::new(alloc);
    for (at, element) in elements.iter().enumerate() {
        let number = at as u32 + 1;
        let job = match job_from_element(alloc, &jobs, element) {
            Ok(job) => job,
            Err(what) => return Err(JobError { job: number, what }),
        };
        jobs = match jobs.append_job(alloc, job) {
            Ok(jobs) => jobs,
            Err(_) => {
                return Err(JobError {
                    job: number,
                    // Out of memory: `append_job` fails for no other reason.
                    what: What::OutOfMemory,
                });
            }
        };
    }
    Ok(jobs.into_job_list())
}
