//! Why a file could not be written.

ghost use Rattle.std.specs.Prelude.{◌≡◌};

use std::alloc::AllocError;
use std::io::{self, ErrorKind};

/// Why a file could not be written.
#[derive(Clone, Copy, Debug, PartialEq, Eq)]
pub enum FileError {
    /// An allocation failed.
    OutOfMemory,
    /// The system failed to open the file, to sync it to disk or to move it to its path, for this reason.
    Failed(ErrorKind),
    /// Another file that is not yet placed has the same final or temporary path.
    SameFile,
}

impl From<AllocError> for FileError {
    ghost use Rattle.rv_files.specs.declared.file_error.FileError.TheVariants.{OutOfMemory};

    ghost from_gives = { λ _ error. error ≡ OutOfMemory };

    // Returns the error for a failed allocation: out of memory.
    fn from(_: AllocError) -> FileError {
        FileError::OutOfMemory
    }
}

impl From<io::Error> for FileError {
    ghost use Rattle.std.specs.IoError.{error_kind};
    ghost use Rattle.rv_files.specs.FileErrors.{file_error};

    ghost from_gives = { λ refused error. error ≡ file_error (error_kind refused) };

    // Converts an error of the system: to `OutOfMemory` if memory ran out, and otherwise to a failure with its reason.
    fn from(error: io::Error) -> FileError {
        match error.kind() {
            ErrorKind::OutOfMemory => FileError::OutOfMemory,
            reason => FileError::Failed(reason),
        }
    }
}
