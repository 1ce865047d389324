//! The files that a command reads: a list, a report, the files of jobs.

ghost use Rattle.std.specs.Prelude.{◌≡◌, ◌≢◌, ◌≤◌, ◌<◌, ◌+◌, ◌^◌, None, Option, Some, length, take};
ghost use Rattle.std.specs.Prelude.{IfErr, IfNone, IfOk, IfSome, IsSomeAnd};
ghost use Rattle.rv_base.specs.Files.{FileContents};

use crate::input::{InputError, read_at_most};
use std::alloc::Global;
use std::fs;
use std::rt::Files;

/// A source that reads files by path.
pub trait Inputs {
    // The contents of each path, if known. Reading does not change them.
    ghost contents: { Self → Option FileContents };

    /// Returns the first `limit` bytes of the file at a path, or all of them if there are fewer; or an error if the file cannot be read.
    fn read_up_to(&self, alloc: Global, path: &str, limit: usize) -> Result<Vec<u8>, InputError>
        ensures within { IfOk result (λ bytes. length bytes.items ≤ limit) }
        ensures known { IfOk result (λ bytes. IfSome (contents self.now)
            (λ files. IsSomeAnd (files path.now) (λ whole. bytes.items ≡ take limit whole))) }
        ensures missing { IfErr result (λ error. error ≢ InputError.OutOfMemory → IfSome (contents self.now)
            (λ files. files path.now ≡ None)) };
}

/// The system's files as inputs. They reveal no contents, since no contract can know what is on a disk.
#[derive(Drop)]
pub struct SystemInputs<'a, R: Files> {
    files: &'a R,
}

impl<'a, R: Files> SystemInputs<'a, R> {
    /// Returns the system's files as inputs.
    pub fn new(files: &'a R) -> SystemInputs<'a, R>
        ensures { result.files ≡ files.entry }
    {
        SystemInputs { files }
    }
}

impl<'a, R: Files> Inputs for SystemInputs<'a, R> {
    ghost contents = { λ _. None };

    // Returns the first `limit` bytes of the file at a path, or all of them if there are fewer.
    fn read_up_to(&self, alloc: Global, path: &str, limit: usize) -> Result<Vec<u8>, InputError>
        ensures within { IfOk result (λ bytes. length bytes.items ≤ limit) }

        // The bytes are those of some file of the system.
        ensures opened { IfOk result (λ bytes. (file : R.File)
            × IfSome (R.File.remaining file) (λ remaining. bytes.items ≡ take limit remaining)) }
    {
        match fs::open(self.files, path) {
            Ok(mut file) => read_at_most(alloc, &mut file, limit),
            Err(error) => Err(InputError::Failed(error.kind())),
        }
    }
}

/// Returns all bytes of the file at a path, `None` if there are more than `limit`, or an error if the file cannot be read.
pub fn read_whole_up_to<D: Inputs>(
    inputs: &D,
    alloc: Global,
    path: &str,
    limit: usize,
) -> Result<Option<Vec<u8>>, InputError>
    requires { limit + 1 < 2 ^ 64 }
    ensures within { IfOk result (λ read. IfSome read (λ bytes. length bytes.items ≤ limit)) }
    ensures contents { IfOk result (λ read. IfSome read (λ bytes. IfSome (D.contents inputs.now)
        (λ files. files path.now ≡ Some bytes.items))) }
    ensures too_long { IfOk result (λ read. IfNone read (IfSome (D.contents inputs.now)
        (λ files. IsSomeAnd (files path.now) (λ bytes. limit < length bytes)))) }
    ensures missing { IfErr result (λ error. error ≢ InputError.OutOfMemory → IfSome (D.contents inputs.now)
        (λ files. files path.now ≡ None)) }
{
    let bytes = inputs.read_up_to(alloc, path, limit + 1)?;
    if bytes.len() > limit {
        return Ok(None);
    }
    Ok(Some(bytes))
}
