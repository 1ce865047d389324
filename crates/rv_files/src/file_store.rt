//! The system's files as a store.

ghost use Rattle.std.specs.Prelude.{◌≡◌, ◌≤◌, ◌<◌, None, IfErr, IfOk, IfSome, MatchResult, length};
ghost use Rattle.rv_base.specs.Files.{faults_after};
ghost use Rattle.rv_base.specs.Limits.{max_file_size};
ghost use Rattle.rv_base.specs.Counts.{one_more};

use crate::input::{InputError, read_at_most};
use rv_base::limits::MAX_FILE_SIZE;
use rv_base::{ReadError, Store};
use std::alloc::{AllocError, Global};
use std::fs;
use std::io::{ErrorKind, Read};
use std::rt::Files;

/// Why a file could not be read whole.
#[derive(Clone, Copy, Debug, PartialEq, Eq)]
pub enum ReadWholeError {
    /// The file could not be opened, or a read failed, for this reason.
    Failed(ErrorKind),
    /// There are more than 16,777,216 bytes.
    TooLong,
    /// An allocation failed.
    OutOfMemory,
}

impl From<InputError> for ReadWholeError {
    ghost use Rattle.rv_files.specs.Input.{read_whole_error};

    ghost from_gives = { λ input error. error ≡ read_whole_error input };

    // Returns why a file could not be read whole, given why a limited read of it failed.
    fn from(error: InputError) -> ReadWholeError {
        match error {
            InputError::OutOfMemory => ReadWholeError::OutOfMemory,
            InputError::Failed(reason) => ReadWholeError::Failed(reason),
        }
    }
}

impl From<AllocError> for ReadWholeError {
    ghost use Rattle.rv_files.specs.declared.file_store.ReadWholeError.TheVariants.{OutOfMemory};

    ghost from_gives = { λ _ error. error ≡ OutOfMemory };

    // Returns the error for a failed allocation: out of memory.
    fn from(_: AllocError) -> ReadWholeError {
        ReadWholeError::OutOfMemory
    }
}

impl From<ReadWholeError> for ReadError {
    ghost use Rattle.rv_files.specs.Input.{store_error};

    ghost from_gives = { λ whole error. error ≡ store_error whole };

    // Returns the error of a store, given why a file could not be read whole.
    fn from(error: ReadWholeError) -> ReadError {
        match error {
            ReadWholeError::Failed(_) => ReadError::Unreadable,
            ReadWholeError::TooLong => ReadError::TooLong,
            ReadWholeError::OutOfMemory => ReadError::OutOfMemory,
        }
    }
}

/// A store over the system's files: reading a path opens the file at exactly that path and reads it with [`read_whole`]. It reveals no
/// contents, since no contract can know what is on a disk.
#[derive(Drop)]
pub struct FileStore<'a, R: Files> {
    files: &'a R,
    faults: u64,
}

impl<'a, R: Files> FileStore<'a, R> {
    /// Returns a store that reads these files, and has not counted any unreadable file.
    pub fn new(files: &'a R) -> FileStore<'a, R> {
        FileStore { files, faults: 0 }
    }

    // Reads the file at a path, or returns why it cannot be read; counts it if it is unreadable.
    fn read_counting_faults(&mut self, alloc: Global, path: &str) -> Result<Vec<u8>, ReadError>
        ensures opened { IfOk result (λ bytes. (file : R.File)
            × IfSome (R.File.remaining file) (λ remaining. bytes.items ≡ remaining)) }
        ensures within { IfOk result (λ bytes. length bytes.items ≤ max_file_size) }
        ensures too_long { IfErr result (λ error. error ≡ ReadError.TooLong → (file : R.File)
            × IfSome (R.File.remaining file) (λ remaining. max_file_size < length remaining)) }
        ensures faults_counted { MatchResult result (λ _. self.new.faults ≡ self.old.faults)
            (λ error. self.new.faults ≡ faults_after error self.old.faults) }
    {
        match read_file(self.files, alloc, path) {
            Err(ReadWholeError::Failed(_)) => Err(self.count_fault()),
            answer => Ok(answer?),
        }
    }

    // Counts an unreadable file, and returns the error for it.
    fn count_fault(&mut self) -> ReadError
        ensures one_more_fault { self.new.faults ≡ one_more self.old.faults }
        ensures value { result ≡ ReadError.Unreadable }
    {
        self.faults = self.faults.saturating_add(1);
        ReadError::Unreadable
    }
}

impl<'a, R: Files> Store for FileStore<'a, R> {
    ghost contents = { λ _. None };

    ghost fault_count = { λ store. store.faults };

    // Reads the file at a path, and counts it if it is unreadable.
    fn read(&mut self, alloc: Global, path: &str) -> Result<Vec<u8>, ReadError> {
        self.read_counting_faults(alloc, path)
    }

    // Returns the number of unreadable files.
    fn faults(&self) -> u64 {
        self.faults
    }
}

/// Returns the contents of the file at exactly this path, or an error if it cannot be opened or read or has more than 16,777,216 bytes.
pub(crate) fn read_file<R: Files>(
    files: &R,
    alloc: Global,
    path: &str,
) -> Result<Vec<u8>, ReadWholeError>
    ensures opened { IfOk result (λ bytes. (file : R.File)
        × IfSome (R.File.remaining file) (λ remaining. bytes.items ≡ remaining)) }
    ensures within { IfOk result (λ bytes. length bytes.items ≤ max_file_size) }
    ensures too_long { IfErr result (λ error. error ≡ ReadWholeError.TooLong → (file : R.File)
        × IfSome (R.File.remaining file) (λ remaining. max_file_size < length remaining)) }
{
    match fs::open(files, path) {
        Ok(mut file) => read_whole(alloc, &mut file),
        Err(error) => Err(ReadWholeError::Failed(error.kind())),
    }
}

/// Returns the remaining bytes of a reader, or an error if there are more than 16,777,216. At most one byte more than that is read.
pub fn read_whole<R: Read>(alloc: Global, file: &mut R) -> Result<Vec<u8>, ReadWholeError>
    ensures contents { IfOk result (λ bytes. IfSome (R.remaining file.old)
        (λ remaining. bytes.items ≡ remaining)) }
    ensures within { IfOk result (λ bytes. length bytes.items ≤ max_file_size) }
    ensures too_long { IfErr result
        (λ error. error ≡ ReadWholeError.TooLong → IfSome (R.remaining file.old)
        (λ remaining. max_file_size < length remaining)) }
{
    let bytes = read_at_most(alloc, file, MAX_FILE_SIZE + 1)?;
    if bytes.len() > MAX_FILE_SIZE {
        return Err(ReadWholeError::TooLong);
    }
    Ok(bytes)
}
