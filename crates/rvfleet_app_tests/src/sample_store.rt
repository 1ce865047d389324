//! A store of sample files.

ghost use Rattle.std.specs.Prelude.{None};

use crate::forms::part;
use crate::testing::number;
use rvfleet_app::{ReadError, Store};
use samples::{CHECKSUM, SampleError, UPPER, file_bytes, numbers, sample_file};
use std::alloc::Global;

/// A store that makes each file of a case when it is read. A line of the case's files, such as `image = one 51`, describes the file at a
/// path. Without such a line, the list is at `jobs`, and any other path describes its own file: `bytes` and numbers, `upper` or `checksum`
/// for the example firmware, or the words of an image. What follows a `#` is ignored. There is no file at `missing`, and the file at `long`
/// is too long.
#[derive(Drop)]
pub(crate) struct SampleStore<'a> {
    case: &'a str,
    /// The paths that were read, each followed by a semicolon.
    pub(crate) log: String,
    reads: usize,
    pub(crate) faults: u64,
}

impl<'a> SampleStore<'a> {
    /// Creates the store for the files of a case.
    pub(crate) fn new(alloc: Global, case: &'a str) -> SampleStore<'a> {
        SampleStore {
            case,
            log: String::new(alloc),
            reads: 0,
            faults: 0,
        }
    }

    // Returns the bytes of the file at a path, or an error if this read fails.
    fn bytes(&self, alloc: Global, path: &str) -> Result<Vec<u8>, SampleError> {
        let faults = part(self.case, 5);
        if self.reads == number(faults, "no_memory=") {
            return Err(SampleError::OutOfMemory);
        }
        if self.reads == number(faults, "no_file=") {
            return Err(SampleError::NoSample);
        }
        match sample_at(part(self.case, 4), path) {
            "jobs" => Ok(part(self.case, 3).as_bytes().to_vec(alloc)?),
            sample => bytes_of(alloc, sample),
        }
    }
}

// Returns the description of the file at a path: the description on its line or, if it has no line, the path itself up to a `#`.
fn sample_at<'a>(files: &'a str, path: &'a str) -> &'a str {
    for line in files.lines() {
        let (at, sample) = line.split_once(" = ").unwrap_or(("", ""));
        if at == path {
            return sample;
        }
    }
    path.split('#').next().unwrap_or("")
}

// Returns the bytes of the file that this text describes.
fn bytes_of(alloc: Global, sample: &str) -> Result<Vec<u8>, SampleError> {
    let (kind, text) = sample.split_once(' ').unwrap_or((sample, ""));
    match kind {
        "long" => Ok(vec![in alloc; 0x30; 16_777_217]?),
        "bytes" => numbers(alloc, text),
        "upper" => file_bytes(alloc, UPPER),
        "checksum" => file_bytes(alloc, CHECKSUM),
        _ => sample_file(alloc, sample),
    }
}

impl<'a> Store for SampleStore<'a> {
    ghost contents = { λ _. None };

    ghost fault_count = { λ store. store.faults };

    // Records the path, and returns the bytes of the file, or an error.
    fn read(&mut self, alloc: Global, path: &str) -> Result<Vec<u8>, ReadError> {
        self.reads = self.reads.saturating_add(1);
        if self.log.push_str(path).is_err() || self.log.push_str(";").is_err() {
            return Err(ReadError::OutOfMemory);
        }
        match self.bytes(alloc, path) {
            Ok(bytes) if bytes.len() <= 16_777_216 => Ok(bytes),
            Ok(_) => Err(ReadError::TooLong),
            Err(SampleError::OutOfMemory) => Err(ReadError::OutOfMemory),
            Err(_) => {
                self.faults = self.faults.saturating_add(1);
                Err(ReadError::Unreadable)
            }
        }
    }

    // Returns how many reads failed.
    fn faults(&self) -> u64 {
        self.faults
    }
}
