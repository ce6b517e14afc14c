//! The lock of an open file.

use std::fs::File;

/// A file that one opening of it can hold for itself.
pub trait LockFile {
    /// Takes the file's exclusive lock, without waiting, and says whether it did. The lock is that of
    /// flock(2): it belongs to this opening of the file, by whatever path, and goes when the handle
    /// does or the process ends. It is refused where any other opening of the file holds a lock, of
    /// another process or of this one, and where the file system has no locks.
    fn try_lock_exclusive(&self) -> bool;
}

impl LockFile for File {
    fn try_lock_exclusive(&self) -> bool {
        self.try_lock().is_ok()
    }
}
