//! Fleets: threads that draw the chunks of a plan and compute their rows.
//!
//! [`run_fleet`] runs a plan in threads. Each thread calls [`work`] with its own pass, which computes the chunks that the pass draws. The
//! report equals that of [`run_one`] for every number of workers and of jobs in a chunk. [`run_batch`] runs a [`Batch`] with the run engine
//! and returns its rows. The rows and the shared counter of the crates below are re-exported.
#![tactic(auto)]

mod all_indices;
mod batch;
mod batch_rows;
mod collect;
mod fleet;
mod gate;
mod piece;
mod pieces;
mod threads;
mod worker;
mod worker_promise;

pub use batch::Batch;
pub use batch_rows::run_batch;
pub use fleet::{FleetError, run_fleet};
pub use gate::{FreeGate, Gate};
pub use piece::Piece;
pub use worker::work;

// Re-exports from lower crates: the types in this interface, and what its callers need with them.
pub use rv_engine::{
    Both, Claims, Crew, Flow, Listener, Observer, Pass, RunError, SplitError, Work, WorkerState,
    run_jobs,
};
pub use rv_rows::{
    JobError, JobList, Kept, LoadableImage, Outcome, Plan, RecentOutcomes, Refusal, Report, Row,
    RowEnd, RowReporter, Rows, SignatureRange, Sink, SinkFailed, SpareBus, Verdict, What, Words,
    WriteError, flat_row, gather, gather_jobs, narrower_sets_only_refuse,
    parts_have_the_rows_of_the_whole, put_all, read_jobs, row_at, row_at_with_recent,
    row_from_with_recent, run_one, selected_indices, write_report,
};
