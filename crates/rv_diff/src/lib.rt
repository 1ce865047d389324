//! The differences between two reports, job by job.
//!
//! [`push_diff`] appends a line for each job that only one report has and for each field in which the two rows of a job differ, and returns
//! how many jobs are gone, added and changed ([`DifferenceCounts`]). [`CompareMode`] selects what is compared. The text is exactly as
//! defined in `specs/`. Two laws state that there is a line if and only if rows differ: [`rows_agree_iff_no_line`] and
//! [`jobs_differ_iff_some_line`].
#![tactic(auto)]

mod change;
mod diff;
mod differences;
mod law;
mod rows_by_name;
mod signature_line;

pub use change::CompareMode;
pub use diff::{ComparedReports, DifferenceCounts, push_diff, rows_in_both};
pub use law::{jobs_differ_iff_some_line, rows_agree_iff_no_line};
