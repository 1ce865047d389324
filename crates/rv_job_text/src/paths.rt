//! The paths of the files that a job's run is compared with.

ghost use Rattle.std.specs.Prelude.{◌≡◌, option_map};
ghost use Rattle.rv_rows.specs.Jobs.{console_path};

use rv_rows::Job;

/// Returns the path of the file with the expected signature, or `None` if the job names none.
pub fn reference_path(job: &Job) -> Option<&str>
    ensures { option_map (λ path. path.now) result ≡ job.now.expect_signature }
{
    match &job.expect_signature {
        Some(path) => Some(path.as_str()),
        None => None,
    }
}

/// Returns the path of the file with the expected console, or `None` if the job names none.
pub fn console_path(job: &Job) -> Option<&str>
    ensures { option_map (λ path. path.now) result ≡ console_path job.now.expect_console }
{
    match &job.expect_console {
        Some(expected) => expected.path(),
        None => None,
    }
}
