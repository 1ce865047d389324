//! Reading whole files.

ghost use Rattle.std.specs.Prelude.{◌≡◌, ◌≤◌, ◌<◌, ◌+◌, ◌^◌, IfErr, IfNone, IfOk, IfSome, length};
ghost use Rattle.rv_command.specs.Stops.{IsFileErrorStop, IsTooLongAt, IsResultUnreadStop, IsSystemStop, IsUnreadStop, max_result_bytes};
ghost use Rattle.rv_command.specs.Texts.{IsTextAt};

use crate::messages::path_message;
use crate::stop::Stop;
use rv_files::{FileError, InputError, Inputs, io_error_text, read_whole_up_to};
use std::alloc::Global;
use std::io::ErrorKind;

/// Reads the file at the path. Returns `None` if it has more than `max_bytes` bytes.
pub(crate) fn read_file_up_to<D: Inputs>(
    inputs: &D,
    alloc: Global,
    path: &str,
    max_bytes: usize,
) -> Result<Option<Vec<u8>>, Stop>
    requires { max_bytes + 1 < 2 ^ 64 }
    ensures contents { IfOk result
        (λ contents. IfSome contents (λ bytes. IsTextAt (D.contents inputs.now) path.now bytes.items)) }
    ensures at_most_max { IfOk result (λ contents. IfSome contents (λ bytes. length bytes.items ≤ max_bytes)) }
    ensures too_long { IfOk result (λ contents. IfNone contents (IsTooLongAt (D.contents inputs.now) path.now max_bytes)) }
    ensures stopped { IfErr result (IsUnreadStop (D.contents inputs.now) path.now) }
{
    match read_whole_up_to(inputs, alloc, path, max_bytes) {
        Ok(contents) => Ok(contents),
        Err(InputError::OutOfMemory) => Err(Stop::OutOfMemory),
        Err(InputError::Failed(reason)) => Err(io_error_stop(alloc, path, reason)),
    }
}

/// The maximum number of bytes in a report or a table of counts.
const MAX_RESULT_BYTES: usize = 0x4000_0000;

/// Reads a report or a table of counts. It is an error if the file has more than 1,073,741,824 bytes.
pub fn read_result_file<D: Inputs>(inputs: &D, alloc: Global, path: &str) -> Result<Vec<u8>, Stop>
    ensures read { IfOk result (λ bytes. IsTextAt (D.contents inputs.now) path.now bytes.items) }
    ensures at_most_max { IfOk result (λ bytes. length bytes.items ≤ max_result_bytes) }
    ensures stopped { IfErr result (IsResultUnreadStop (D.contents inputs.now) path.now) }
{
    match read_file_up_to(inputs, alloc, path, MAX_RESULT_BYTES)? {
        Some(bytes) => Ok(bytes),
        None => {
            let reason = "the file is larger than 1073741824 bytes";
            Err(Stop::system_failure(path_message(alloc, path, reason)))
        }
    }
}

// A limit that no file in memory can reach.
const UNLIMITED: usize = usize::MAX - 1;

/// Reads a file that this command has written, of any size.
pub fn read_file<D: Inputs>(inputs: &D, alloc: Global, path: &str) -> Result<Vec<u8>, Stop>
    ensures read { IfOk result (λ bytes. IsTextAt (D.contents inputs.now) path.now bytes.items) }
    ensures stopped { IfErr result (IsUnreadStop (D.contents inputs.now) path.now) }
{
    match read_file_up_to(inputs, alloc, path, UNLIMITED)? {
        Some(bytes) => Ok(bytes),
        // The file has more bytes than there are addresses.
        None => Err(Stop::OutOfMemory),
    }
}

/// Returns the stop for an error in opening or writing the file at the path. If another output of the command is the same file, the
/// arguments are rejected.
pub fn file_error_stop(alloc: Global, path: &str, error: FileError) -> Stop
    ensures { IsFileErrorStop path.now error result }
{
    match error {
        FileError::OutOfMemory => Stop::OutOfMemory,
        FileError::SameFile => {
            let reason = "another output of this command is the same file";
            Stop::rejection(path_message(alloc, path, reason))
        }
        FileError::Failed(reason) => io_error_stop(alloc, path, reason),
    }
}

// Returns the stop that reports why the system could not read or write the file at the path.
fn io_error_stop(alloc: Global, path: &str, reason: ErrorKind) -> Stop
    ensures { IsSystemStop path.now reason result }
{
    Stop::system_failure(path_message(alloc, path, io_error_text(reason)))
}
