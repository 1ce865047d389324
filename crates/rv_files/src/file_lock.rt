//! A lock on an open file, released when the process that holds it ends.

use std::fs::{File, TryLockError};

/// An open file that one process at a time can lock.
pub trait FileLock {
    /// Locks the file until it is closed, and returns whether it is now locked: false if another process holds the lock. On a file system
    /// without locks, returns true.
    fn try_to_lock(&self) -> bool;
}

impl FileLock for File {
    // Locks the file until it is closed, and returns whether no other process holds the lock.
    fn try_to_lock(&self) -> bool {
        !matches!(self.try_lock(), Err(TryLockError::WouldBlock))
    }
}
