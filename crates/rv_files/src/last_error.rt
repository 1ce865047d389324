//! Why a write failed.

use std::io::ErrorKind;

/// A sink that reports why its last failed write failed.
pub trait LastError {
    /// Returns the kind of error of the last failed write, or [`ErrorKind::Other`] if no write has failed.
    fn last_error(&self) -> ErrorKind;
}
