//! Plans: the files that a store holds at the paths of a job list.
//!
//! [`gather`] reads the paths of a list from a [`Store`], each distinct one once, and returns a [`Plan`]: the jobs, and one result
//! ([`Kept`]) for each path. [`gather_jobs`] reads only the paths that are needed for the rows of some jobs. The lists are those of
//! `rv_lists`, which this crate re-exports.
#![tactic(auto)]

mod kept;
mod law;
mod path_reading;
mod path_results;
mod plan;
mod selection;

pub use kept::Kept;
pub use law::used_paths_have_results;
pub use path_results::PathResult;
pub use plan::{Plan, gather, gather_jobs};
pub use selection::selected_indices;

// Re-exports from lower crates: the types in this interface, and what its callers need with them.
pub use rv_lists::{
    Bytes, ExpectedConsole, ExpectedEnd, Job, JobError, JobList, ReadError, Store, Symbols, Text,
    What, limits, read_faults, read_jobs,
};
