//! The text shown for a system error.

ghost use Rattle.std.specs.Prelude.{◌≡◌};
ghost use Rattle.rv_files.specs.IoErrors.{io_error_text, write_error_text};

use std::io::ErrorKind;

/// Returns the message for a failed open, read or write: `out of memory` if memory ran out, `cannot be read` for an error that is not
/// listed, and otherwise the message of `strerror`.
#[tactic(auto, unfolding(crate::specs::IoErrors::io_error_text))]
pub fn io_error_text(kind: ErrorKind) -> &'static str
    ensures { result.now ≡ io_error_text kind }
{
    match kind {
        ErrorKind::NotFound => "No such file or directory",
        ErrorKind::IsADirectory => "Is a directory",
        ErrorKind::PermissionDenied => "Permission denied",
        ErrorKind::NotADirectory => "Not a directory",
        ErrorKind::FilesystemLoop => "Too many levels of symbolic links",
        ErrorKind::ReadOnlyFilesystem => "Read-only file system",
        ErrorKind::StorageFull => "No space left on device",
        ErrorKind::QuotaExceeded => "Disk quota exceeded",
        ErrorKind::FileTooLarge => "File too large",
        ErrorKind::CrossesDevices => "Invalid cross-device link",
        ErrorKind::InvalidFilename => "File name too long",
        ErrorKind::InvalidInput => "Invalid argument",
        ErrorKind::StaleNetworkFileHandle => "Stale file handle",
        ErrorKind::ResourceBusy => "Device or resource busy",
        ErrorKind::WouldBlock => "Resource temporarily unavailable",
        ErrorKind::Interrupted => "Interrupted system call",
        ErrorKind::TimedOut => "Connection timed out",
        ErrorKind::Unsupported => "Operation not supported",
        ErrorKind::OutOfMemory => "out of memory",
        _ => "cannot be read",
    }
}

/// Returns the message for a failed write: `out of memory` if memory ran out, `write failed` for an error that is not listed, and otherwise
/// the message of `strerror`.
#[tactic(auto, unfolding(crate::specs::IoErrors::write_error_text))]
pub fn write_error_text(kind: ErrorKind) -> &'static str
    ensures { result.now ≡ write_error_text kind }
{
    match kind {
        ErrorKind::StorageFull => "No space left on device",
        ErrorKind::QuotaExceeded => "Disk quota exceeded",
        ErrorKind::FileTooLarge => "File too large",
        ErrorKind::ReadOnlyFilesystem => "Read-only file system",
        ErrorKind::PermissionDenied => "Permission denied",
        ErrorKind::StaleNetworkFileHandle => "Stale file handle",
        ErrorKind::TimedOut => "Connection timed out",
        ErrorKind::OutOfMemory => "out of memory",
        _ => "write failed",
    }
}
