//! How many rows of a run are done, and how many of them failed.

ghost use Rattle.std.specs.Prelude.{◌≤◌};

/// The number of rows, and how many of them are failures.
#[derive(Clone, Copy)]
pub(crate) struct Tally {
    pub(crate) done: u64,
    pub(crate) failed: u64,
    // This holds whenever a thread acquires the lock of a progress.
    ghost within: { failed ≤ done },
}
