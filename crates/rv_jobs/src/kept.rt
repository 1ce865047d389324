//! The result of reading a path.

ghost use Rattle.std.specs.Prelude.{◌≡◌, IfOk};
ghost use Rattle.rv_jobs.specs.Kept.{AgreesWithContents, faults_after_read};

use rv_lists::{Bytes, ReadError, Store};
use std::alloc::{AllocError, Global};

/// The result of reading a path.
#[derive(Debug, Drop)]
pub enum Kept {
    /// The bytes of the file, at most 16,777,216.
    Content(Bytes),
    /// The file does not exist, or reading it failed.
    Unreadable,
    /// The file is longer than 16,777,216 bytes.
    TooLong,
}

/// Reads the file at a path: returns its contents, `TooLong` or `Unreadable`.
pub(crate) fn read_path<S: Store>(
    alloc: Global,
    store: &mut S,
    path: &str,
) -> Result<Kept, AllocError>
    ensures contents_unchanged { S.contents store.new ≡ S.contents store.old }
    ensures agrees { IfOk result (AgreesWithContents (S.contents store.old) path.now) }
    ensures faults_counted { IfOk result (λ kept. S.fault_count store.new
        ≡ faults_after_read kept (S.fault_count store.old)) }
{
    match store.read(alloc, path) {
        Ok(bytes) => Ok(Kept::Content(Bytes::new(bytes))),
        Err(ReadError::Unreadable) => Ok(Kept::Unreadable),
        Err(ReadError::TooLong) => Ok(Kept::TooLong),
        Err(ReadError::OutOfMemory) => Err(AllocError),
    }
}
