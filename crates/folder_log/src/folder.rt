//! How programs that use one folder keep apart: the folder's lock, and which file is in it.
use std::fs::{File, Metadata, TryLockError};
use std::io::ErrorKind;
use std::os::unix::fs::MetadataExt;
use std::rt::Files;
use std::{fs, io};

/// An open file or folder that can be locked. A lock is tried and never waited for. It fails with
/// WouldBlock if another opening holds a lock that excludes it, and with another error if there
/// are no such locks.
pub trait Lockable {
    /// Takes the lock alone, until the file is closed.
    fn try_lock(&self) -> Result<(), TryLockError>;

    /// Takes a lock that others may share, until the file is closed.
    fn try_lock_shared(&self) -> Result<(), TryLockError>;
}

impl Lockable for File {
    fn try_lock(&self) -> Result<(), TryLockError> {
        File::try_lock(self)
    }

    fn try_lock_shared(&self) -> Result<(), TryLockError> {
        File::try_lock_shared(self)
    }
}

/// Opens a folder and takes its lock without waiting, until the returned value is dropped. Fails
/// if another program holds the lock, or if the folder cannot be opened. If the file system has no
/// such locks, it only opens the folder.
pub fn lock_folder<R: Files>(rt: &R, path: &str) -> io::Result<R::File>
where
    R::File: Lockable,
{
    let folder = fs::open(rt, path)?;
    match folder.try_lock() {
        Err(TryLockError::WouldBlock) => Err(io::Error::from(ErrorKind::WouldBlock)),
        _ => Ok(folder),
    }
}

/// Which file was looked at: its device and its number there, its length in bytes, and when it was
/// last changed, in seconds and nanoseconds.
#[derive(Clone, Copy, PartialEq, Eq)]
pub struct Stamp {
    device: u64,
    number: u64,
    length: u64,
    seconds: i64,
    nanoseconds: i64,
}

impl Stamp {
    /// The stamp of a file with this metadata.
    pub fn of(metadata: &Metadata) -> Stamp {
        Stamp {
            device: metadata.dev(),
            number: metadata.ino(),
            length: metadata.len(),
            seconds: metadata.ctime(),
            nanoseconds: metadata.ctime_nsec(),
        }
    }
}

/// Whether nothing of that name exists.
pub fn is_missing<T>(opened: &io::Result<T>) -> bool {
    match opened {
        Err(error) => error.kind() == ErrorKind::NotFound,
        Ok(_) => false,
    }
}

/// What a disk knows of the file under its name, from reading it.
#[derive(Drop)]
pub enum Known<F> {
    Nothing,
    NoFile,
    /// The file that was read. It is kept open, so that no other file gets its number.
    File { file: F, stamp: Stamp },
    /// The disk that wrote the file was still there, so it may have changed the file since.
    Growing,
}

/// Whether the disk that wrote the file is still there.
pub fn has_writer<F: Lockable>(file: &F) -> bool {
    match file.try_lock_shared() {
        Err(TryLockError::WouldBlock) => true,
        _ => false,
    }
}

/// Returns the stamp of the file under a name now, if there is one.
pub fn stamp_at<R: Files>(rt: &R, path: &str) -> io::Result<Option<Stamp>> {
    let found = fs::metadata(rt, path);
    if is_missing(&found) {
        return Ok(None);
    }
    Ok(Some(Stamp::of(&found?)))
}
