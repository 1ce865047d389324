//! The worker threads of a run.

ghost use Rattle.std.specs.Prelude.{◌≡◌};
ghost use Rattle.rvtest_app.specs.Crews.{AreRequestedWorkers, IsRunErrorStop, requested_group, stop_of_run_error};

use rv_command::Stop;
use rv_files::limits::{MAX_GROUP, MAX_WORKERS};
use rv_stream::{Crew, RunError};
use rvtest_cli::RunArgs;
use std::alloc::Global;
use std::thread::{self, Threads};

/// Returns a crew with the requested number of worker threads, each of which takes the requested number of jobs at a time. Both numbers are
/// clamped to their ranges.
pub(crate) fn requested_crew<'r, R: Threads>(
    rt: &'r R,
    alloc: Global,
    args: &RunArgs<'_>,
) -> Crew<'r, R>
    ensures workers { AreRequestedWorkers args.now.workers result.workers }
    ensures group { result.group ≡ requested_group args.now.group }
{
    let group = args.group.clamp(1, MAX_GROUP);
    Crew::new(rt, alloc, requested_workers(rt, args), group)
}

// Returns the number of threads: the requested number, or by default the number of processors (1 if it is unknown), but at least 1 and at
// most 64.
fn requested_workers<R: Threads>(rt: &R, args: &RunArgs<'_>) -> u32
    ensures { AreRequestedWorkers args.now.workers result }
{
    match args.workers {
        Some(workers) => workers.clamp(1, MAX_WORKERS),
        None => match thread::available_parallelism(rt) {
            Ok(count) => count.get().clamp(1, MAX_WORKERS as usize) as u32,
            Err(_) => 1,
        },
    }
}

/// Returns the stop for an error of the run engine.
pub(crate) fn stop_of_run_error(error: RunError) -> Stop
    ensures value { result ≡ stop_of_run_error error }
    ensures reasons { IsRunErrorStop result }
{
    match error {
        RunError::NoWorker => Stop::NoWorker,
        RunError::OutOfMemory => Stop::OutOfMemory,
    }
}
