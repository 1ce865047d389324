//! The verdicts on jobs before anything is accepted.

/// The verdict on a job that was run, with its golden files and the list as they are now.
#[derive(Clone, Copy, Debug, PartialEq, Eq)]
pub enum CurrentVerdict {
    /// It passes.
    Passes,
    /// It fails, but has the result of its `same_as` job, if it has one.
    Fails,
    /// Its result differs from the result of its `same_as` job.
    Differs,
}

/// Whether a job is chosen, and the current verdict on it.
#[derive(Clone, Copy, Debug, PartialEq, Eq)]
pub struct Candidate {
    pub is_chosen: bool,
    pub verdict: CurrentVerdict,
}
