//! Why the program failed.

ghost use Rattle.std.specs.Prelude.{◌≡◌};

use rv_files::InputError;
use rv_fleet::{FleetError, JobError, WriteError};
use std::alloc::AllocError;
use thiserror::Error;

/// Why the report of a flat image was not written, or not completely.
#[derive(Clone, Copy, Debug, Error, PartialEq, Eq)]
pub enum RunError {
    /// An allocation failed.
    #[error("out of memory")]
    OutOfMemory,
    /// A read of the input failed or was interrupted.
    #[error("read failed")]
    ReadFailed,
    /// A write to the sink failed.
    #[error("write failed")]
    WriteFailed,
}

/// Why the program made no report, or did not write all of it.
#[derive(Clone, Copy, Debug, Error, PartialEq, Eq)]
pub enum Failure {
    /// An allocation failed.
    #[error("out of memory")]
    OutOfMemory,
    /// A thread could not be started.
    #[error("no worker")]
    NoWorker,
    /// The job list cannot be read, for example because there is no such file.
    #[error("list unreadable")]
    ListUnreadable,
    /// The job list has more than 16,777,216 bytes.
    #[error("list too long")]
    ListTooLong,
    /// A read of the input failed.
    #[error("read failed")]
    ReadFailed,
    /// A write to the sink failed.
    #[error("write failed")]
    WriteFailed,
}

/// Why there is no job list.
#[derive(Clone, Copy, Debug, PartialEq, Eq)]
pub enum ListError {
    /// The list is invalid.
    Invalid(JobError),
    /// The list was not read, or memory ran out.
    Failed(Failure),
}

impl From<AllocError> for RunError {
    ghost use Rattle.rvfleet_app.specs.declared.error.RunError.TheVariants.{OutOfMemory};

    ghost from_gives = { λ _ run. run ≡ OutOfMemory };

    // Returns `OutOfMemory`.
    fn from(_: AllocError) -> RunError {
        RunError::OutOfMemory
    }
}

impl From<InputError> for RunError {
    ghost use Rattle.rvfleet_app.specs.Failures.{input_read_failure};

    ghost from_gives = { λ error run. run ≡ input_read_failure error };

    // Returns the run's error for a failed read of its input.
    fn from(error: InputError) -> RunError {
        match error {
            InputError::OutOfMemory => RunError::OutOfMemory,
            InputError::Failed(_) => RunError::ReadFailed,
        }
    }
}

impl From<WriteError> for RunError {
    ghost use Rattle.rvfleet_app.specs.Failures.{write_failure};

    ghost from_gives = { λ error run. run ≡ write_failure error };

    // Returns the run's error for a failed write of its report.
    fn from(error: WriteError) -> RunError {
        match error {
            WriteError::OutOfMemory => RunError::OutOfMemory,
            WriteError::Failed => RunError::WriteFailed,
        }
    }
}

impl From<AllocError> for Failure {
    ghost use Rattle.rvfleet_app.specs.declared.error.Failure.TheVariants.{OutOfMemory};

    ghost from_gives = { λ _ failure. failure ≡ OutOfMemory };

    // Returns `OutOfMemory`.
    fn from(_: AllocError) -> Failure {
        Failure::OutOfMemory
    }
}

impl From<FleetError> for Failure {
    ghost use Rattle.rvfleet_app.specs.Failures.{fleet_failure};

    ghost from_gives = { λ error failure. failure ≡ fleet_failure error };

    // Returns the program's failure for an error in computing a report.
    fn from(error: FleetError) -> Failure {
        match error {
            FleetError::OutOfMemory => Failure::OutOfMemory,
            FleetError::NoWorker => Failure::NoWorker,
        }
    }
}

impl From<RunError> for Failure {
    ghost use Rattle.rvfleet_app.specs.Failures.{run_failure};

    ghost from_gives = { λ error failure. failure ≡ run_failure error };

    // Returns the program's failure for an error in running a flat image.
    fn from(error: RunError) -> Failure {
        match error {
            RunError::OutOfMemory => Failure::OutOfMemory,
            RunError::ReadFailed => Failure::ReadFailed,
            RunError::WriteFailed => Failure::WriteFailed,
        }
    }
}

impl From<WriteError> for Failure {
    ghost use Rattle.rvfleet_app.specs.Failures.{send_failure};

    ghost from_gives = { λ error failure. failure ≡ send_failure error };

    // Returns the program's failure for a failed write of a report.
    fn from(error: WriteError) -> Failure {
        match error {
            WriteError::OutOfMemory => Failure::OutOfMemory,
            WriteError::Failed => Failure::WriteFailed,
        }
    }
}
