//! Sources of files.

ghost use Rattle.std.specs.Prelude.{◌≡◌, ◌≤◌, ◌<◌, ℕ, Option, Some, MatchResult, IfErr, IfOk, IfSome};
ghost use Rattle.std.specs.Prelude.{IsSomeAnd, length};
ghost use Rattle.rv_base.specs.Files.{FileContents, faults_after};
ghost use Rattle.rv_base.specs.Limits.{max_file_size};

use std::alloc::Global;

/// Why a file could not be read.
#[derive(Clone, Copy, Debug, PartialEq, Eq)]
pub enum ReadError {
    /// The file does not exist, or reading it failed.
    Unreadable,
    /// The file is longer than 16,777,216 bytes.
    TooLong,
    /// An allocation failed.
    OutOfMemory,
}

/// A source of files by path, which counts how often a file was unreadable.
pub trait Store {
    // The contents of each path, if the store reveals them. Reading does not change them.
    ghost contents: { Self → Option FileContents };

    // The number of unreadable files so far, saturating at `u64::MAX`.
    ghost fault_count: { Self → ℕ };

    /// Reads the file at a path. A file of more than 16,777,216 bytes is the error `TooLong`.
    fn read(&mut self, alloc: Global, path: &str) -> Result<Vec<u8>, ReadError>
        ensures same { contents self.new ≡ contents self.old }
        ensures within { IfOk result (λ bytes. length bytes.items ≤ max_file_size) }
        ensures known { IfOk result (λ bytes. IfSome (contents self.old)
            (λ files. files path.now ≡ Some bytes.items)) }
        ensures long { IfErr result (λ error. error ≡ ReadError.TooLong → IfSome (contents self.old)
            (λ files. IsSomeAnd (files path.now) (λ bytes. max_file_size < length bytes))) }
        ensures counted { MatchResult result (λ _. fault_count self.new ≡ fault_count self.old)
            (λ error. fault_count self.new ≡ faults_after error (fault_count self.old)) };

    /// Returns how many reads found a file unreadable.
    fn faults(&self) -> u64
        ensures { result ≡ fault_count self.now };
}
