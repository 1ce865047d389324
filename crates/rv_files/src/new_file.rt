//! The temporary file that receives the bytes of a file until it is placed.

use crate::file_lock::FileLock;
use crate::sink_paths::{FilePaths, directory_of};
use std::fs::{self, Metadata, OpenFile, OpenOptions};
use std::io::{self, ErrorKind};
use std::os::unix::fs::MetadataExt;
use std::rt::Files;

/// Creates a locked file at the temporary path, with the mode of the file at the final path, if there is one. A temporary file that an
/// earlier run left is replaced; one that another process has locked is an error, and so is a read-only file at the final path.
pub(crate) fn create_new_file<R: Files>(files: &R, paths: &FilePaths) -> io::Result<R::File>
where
    R::File: FileLock,
{
    let replaced = replaceable_file(files, paths.destination.as_str())?;
    let file = create_locked_file(files, paths.temporary.as_str())?;
    if let Some(replaced) = replaced {
        copy_attributes(files, paths.temporary.as_str(), &file, &replaced)?;
    }
    Ok(file)
}

// Returns the metadata of the file at a path, or `None` if the system returns none. A read-only file is an error.
fn replaceable_file<R: Files>(files: &R, path: &str) -> io::Result<Option<Metadata>> {
    match files.metadata(path) {
        Ok(metadata) if metadata.permissions().readonly() => Err(io::Error::from(
            ErrorKind::PermissionDenied,
        )),
        Ok(metadata) => Ok(Some(metadata)),
        Err(_) => Ok(None),
    }
}

// Creates and locks a file at a path, after removing one that an earlier run left there. Of two processes that do this at once, only one
// succeeds: each locks what it removes and what it creates.
fn create_locked_file<R: Files>(files: &R, path: &str) -> io::Result<R::File>
where
    R::File: FileLock,
{
    let _left = lock_leftover_file(files, path)?;
    match files.remove_file(path) {
        Ok(()) => {}
        Err(error) if error.kind() == ErrorKind::NotFound => {}
        Err(error) => return Err(error),
    }
    let created = OpenOptions::new()
        .write(true)
        .create_new(true)
        .open(files, path);
    match created {
        Ok(file) if file.try_to_lock() => Ok(file),
        Err(error) if error.kind() != ErrorKind::AlreadyExists => Err(error),
        _ => Err(io::Error::from(ErrorKind::ResourceBusy)),
    }
}

// Locks the file that an earlier run left at a path, and returns it, or returns `None` if no regular file is there. If another process has
// locked it, this is an error.
fn lock_leftover_file<R: Files>(files: &R, path: &str) -> io::Result<Option<R::File>>
where
    R::File: FileLock,
{
    match files.symlink_metadata(path) {
        Ok(found) if found.is_file() => {}
        _ => return Ok(None),
    }
    let file = fs::open(files, path)?;
    if file.try_to_lock() && is_still_at(files, &file, path) {
        return Ok(Some(file));
    }
    Err(io::Error::from(ErrorKind::ResourceBusy))
}

// Whether the file at a path is this open file.
fn is_still_at<R: Files>(files: &R, file: &R::File, path: &str) -> bool {
    match (file.metadata(), files.symlink_metadata(path)) {
        (Ok(open), Ok(found)) => open.dev() == found.dev() && open.ino() == found.ino(),
        _ => false,
    }
}

// Gives a new file the mode of the file with the metadata `old`, and its owner and group if the system allows it.
fn copy_attributes<R: Files>(
    files: &R,
    path: &str,
    file: &R::File,
    old: &Metadata,
) -> io::Result<()> {
    let new = file.metadata()?;
    if new.uid() != old.uid() || new.gid() != old.gid() {
        let _ = files.chown(path, Some(old.uid()), Some(old.gid()));
    }
    file.set_permissions(old.permissions())
}

/// Syncs the directory of a path to disk. Failures are ignored.
pub(crate) fn sync_directory<R: Files>(files: &R, path: &str) {
    if let Ok(directory) = fs::open(files, directory_of(path).as_str()) {
        let _ = directory.sync_all();
    }
}

/// Returns an error if the file cannot be placed at its final path: its directory does not exist, or a read-only file is there. This is
/// checked before the file is created.
pub(crate) fn check_destination<R: Files>(files: &R, paths: &FilePaths) -> io::Result<()> {
    replaceable_file(files, paths.destination.as_str())?;
    files.metadata(directory_of(paths.destination.as_str()).as_str())?;
    Ok(())
}
