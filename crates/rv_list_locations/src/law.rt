//! The law on the lines of jobs, with no code to run.

ghost use Rattle.std.specs.Prelude.{ℕ, List};
ghost use Rattle.std.specs.List.{All};
ghost use Rattle.rv_list_locations.specs.JobStarts.{IsLineOfJob};
ghost use Rattle.rv_list_locations.specs.JobLocations.{job_lines};

/// Proves that on each line that [`job_line_numbers`](crate::job_line_numbers) returns, a header `[[job]]` or an element of an array `job`
/// begins.
pub fn job_lines_are_of_headers_and_elements()
    ensures { (list : List ℕ) → All (IsLineOfJob list) (job_lines list) }
{}
