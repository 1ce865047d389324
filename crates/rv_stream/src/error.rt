//! Why not all texts were written.

ghost use Rattle.std.specs.Prelude.{◌≡◌};
ghost use Rattle.rv_stream.specs.Errors.{stream_error_of_run, stream_error_of_write};
ghost use Rattle.rv_stream.specs.declared.error.StreamError.TheVariants.{OutOfMemory};

use rv_counting::{RunError, WriteError};
use std::alloc::AllocError;
use thiserror::Error;

/// Why not all texts of the rows were written.
#[derive(Clone, Copy, Debug, Error)]
pub enum StreamError {
    /// An allocation failed.
    #[error("out of memory")]
    OutOfMemory,
    /// A write to the sink failed.
    #[error("write failed")]
    Failed,
    /// A thread could not be started.
    #[error("no worker")]
    NoWorker,
    /// The observer stopped the run before the last row.
    #[error("observer stopped")]
    ObserverStopped,
}

impl From<AllocError> for StreamError {
    ghost from_gives = { λ _ error. error ≡ OutOfMemory };

    // Returns `OutOfMemory`.
    fn from(_: AllocError) -> StreamError {
        StreamError::OutOfMemory
    }
}

impl From<WriteError> for StreamError {
    ghost from_gives = { λ error given. given ≡ stream_error_of_write error };

    // Returns the stream's error for a failed write to its sink.
    fn from(error: WriteError) -> StreamError {
        match error {
            WriteError::OutOfMemory => StreamError::OutOfMemory,
            WriteError::Failed => StreamError::Failed,
        }
    }
}

impl From<RunError> for StreamError {
    ghost from_gives = { λ error given. given ≡ stream_error_of_run error };

    // Returns the stream's error for a failed run of its jobs.
    fn from(error: RunError) -> StreamError {
        match error {
            RunError::OutOfMemory => StreamError::OutOfMemory,
            RunError::NoWorker => StreamError::NoWorker,
        }
    }
}
