//! The temporary path of a file, at which it is written, and its final path.

ghost use Rattle.std.specs.Prelude.{◌≡◌, ◌≢◌, ◌↔◌, ◌++◌, IfErr, IfOk, IsTrue, codes};
ghost use Rattle.std.specs.Fs.{IsFile, file_type};
ghost use Rattle.std.specs.Path.{path_buf_bytes};

use crate::file_error::FileError;
use crate::file_identity::file_identity;
use rv_base::Text;
use std::alloc::{AllocError, Global};
use std::fs::Metadata;
use std::io::{self, ErrorKind};
use std::path::{Path, PathBuf};
use std::rt::Files;

/// The temporary path of a file, at which it is written, and its final path.
#[derive(Drop)]
pub(crate) struct FilePaths {
    pub(crate) temporary: PathBuf,
    pub(crate) destination: PathBuf,
}

impl FilePaths {
    /// Returns the identities of two files: the file at the final path and the file at the temporary path.
    pub(crate) fn identities<R: Files>(
        &self,
        files: &R,
        alloc: Global,
    ) -> Result<Vec<Text>, AllocError> {
        let mut identities = Vec::with_capacity(alloc, 2)?;
        for path in [&self.destination, &self.temporary] {
            identities.push(file_identity(files, alloc, path.as_str())?)?;
        }
        Ok(identities)
    }
}

/// Returns the temporary and the final path of a file to be placed at `path`, or `None` if something other than a regular file is there,
/// which is then written directly.
pub(crate) fn temporary_and_final_path<R: Files>(
    files: &R,
    alloc: Global,
    path: &str,
) -> Result<Option<FilePaths>, FileError>
    ensures { IfErr result (λ error. error ≢ FileError.SameFile) }
{
    if !is_replaceable(files, path)? {
        return Ok(None);
    }
    let destination = follow_links(files, alloc, path)?;
    let temporary = with_new_suffix(alloc, destination.as_str())?;
    Ok(Some(FilePaths {
        temporary,
        destination,
    }))
}

// Whether a file may be placed at a path: a regular file is there, or nothing. A link is followed.
fn is_replaceable<R: Files>(files: &R, path: &str) -> io::Result<bool> {
    match files.metadata(path) {
        Ok(metadata) => Ok(may_be_replaced(&metadata)),
        Err(error) if error.kind() == ErrorKind::NotFound && !path.is_empty() => Ok(true),
        Err(error) => Err(error),
    }
}

// Whether another file may replace the file with this metadata: only if it is a regular file.
fn may_be_replaced(metadata: &Metadata) -> bool
    ensures { IsTrue result ↔ IsFile (file_type metadata.now) }
{
    metadata.is_file()
}

// The maximum number of links followed in a chain, as on Linux.
const MAX_LINKS: u32 = 40;

/// Returns the path at the end of the chain of symbolic links that begins at a path, or the path itself if it is not a link. A chain of
/// more than 40 links is an error.
pub(crate) fn follow_links<R: Files>(
    files: &R,
    alloc: Global,
    path: &str,
) -> Result<PathBuf, FileError>
    ensures { IfErr result (λ error. error ≢ FileError.SameFile) }
{
    let mut place = PathBuf::from_str(alloc, path)?;
    for _ in 0..=MAX_LINKS {
        if !is_link(files, place.as_str()) {
            return Ok(place);
        }
        let target = files.read_link(alloc, place.as_str())?;
        place = Path::new(place.as_str()).with_file_name(alloc, target.as_str())?;
    }
    Err(FileError::Failed(ErrorKind::FilesystemLoop))
}

// Whether there is a symbolic link at a path.
fn is_link<R: Files>(files: &R, path: &str) -> bool {
    match files.symlink_metadata(path) {
        Ok(metadata) => metadata.is_symlink(),
        Err(_) => false,
    }
}

/// Returns the directory of a path, or `.` if the path names none.
pub(crate) fn directory_of(path: &str) -> Path<'_> {
    match Path::new(path).parent() {
        Some(parent) if !parent.as_str().is_empty() => parent,
        _ => Path::new("."),
    }
}

/// Returns the path with `.new` appended.
pub(crate) fn with_new_suffix(alloc: Global, path: &str) -> Result<PathBuf, AllocError>
    ensures { IfOk result (λ new_path. path_buf_bytes new_path ≡ path.now ++ codes ".new") }
{
    let mut text = String::from_str(alloc, path)?;
    text.push_str(".new")?;
    PathBuf::from_str(alloc, text.as_str())
}

/// Whether the system resolves two paths to equal paths.
pub(crate) fn is_same_file<R: Files>(
    files: &R,
    alloc: Global,
    path: &str,
    other: &str,
) -> io::Result<bool> {
    let place = real_path(files, alloc, path)?;
    let other = real_path(files, alloc, other)?;
    Ok(place.as_str() == other.as_str())
}

// Returns the path as resolved by the system, or the path unchanged if nothing is there or the system cannot resolve it.
fn real_path<R: Files>(files: &R, alloc: Global, path: &str) -> io::Result<PathBuf> {
    match files.canonicalize(alloc, path) {
        Err(error) if matches!(error.kind(), ErrorKind::NotFound | ErrorKind::Unsupported) => {
            Ok(PathBuf::from_str(alloc, path)?)
        }
        answer => answer,
    }
}
