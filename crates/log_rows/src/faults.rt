use folder_log::Lockable;
use std::alloc::Allocator;
use std::cell::Cell;
use std::fs::{Metadata, OpenFile, OpenOptions, TryLockError};
use std::io;
use std::io::{Read, Seek, SeekFrom, Write};
use std::rt::Files;

/// A fault of the calls of a file system.
#[derive(Clone, Copy, PartialEq, Eq)]
pub enum Fault {
    Nothing,
    /// No file is opened.
    Open,
    /// A file fails after its first byte.
    Read,
    /// One byte is read or written at a time.
    Short,
    /// No byte is written.
    Full,
    /// Nothing is flushed.
    Flush,
    /// No file is synced.
    Sync,
    /// No folder is synced.
    FolderSync,
    /// No file is renamed.
    Rename,
    /// Another program has each lock.
    Locked,
    /// Locks are not supported.
    NoLocks,
    /// No path can be looked at.
    Look,
}

/// A file system that fails as its fault says at the time of a call. It also fails each call that a
/// disk does not make.
#[derive(Drop)]
pub struct Faulty<'r, R> {
    rt: &'r R,
    fault: &'r Cell<Fault>,
}

/// An open file or folder of a faulty file system.
#[derive(Drop)]
pub struct FaultyFile<'r, F> {
    file: F,
    fault: &'r Cell<Fault>,
    is_folder: bool,
    reads: u64,
}

impl<'r, R> Faulty<'r, R> {
    /// A runtime whose calls fail as `fault` says.
    pub fn new(rt: &'r R, fault: &'r Cell<Fault>) -> Faulty<'r, R> {
        Faulty { rt, fault }
    }
}

fn failed() -> io::Error {
    io::Error::from(io::ErrorKind::PermissionDenied)
}

impl<'r, F: Read + Drop> Read for FaultyFile<'r, F> {
    fn read(&mut self, buffer: &mut [u8]) -> io::Result<usize> {
        let fault = self.fault.get();
        self.reads = self.reads.saturating_add(1);
        if fault == Fault::Read && self.reads > 1 {
            return Err(failed());
        }
        if fault == Fault::Read || fault == Fault::Short {
            let most = buffer.len().min(1);
            return self.file.read(&mut buffer[..most]);
        }
        self.file.read(buffer)
    }
}

impl<'r, F: Write + Drop> Write for FaultyFile<'r, F> {
    fn write(&mut self, piece: &[u8]) -> io::Result<usize> {
        match self.fault.get() {
            Fault::Full => Ok(0),
            Fault::Short => self.file.write(&piece[..piece.len().min(1)]),
            _ => self.file.write(piece),
        }
    }

    fn flush(&mut self) -> io::Result<()> {
        match self.fault.get() {
            Fault::Flush => Err(failed()),
            _ => self.file.flush(),
        }
    }
}

impl<'r, F: Seek + Drop> Seek for FaultyFile<'r, F> {
    fn seek(&mut self, to: SeekFrom) -> io::Result<u64> {
        self.file.seek(to)
    }
}

impl<'r, F: OpenFile + Drop> OpenFile for FaultyFile<'r, F> {
    fn metadata(&self) -> io::Result<Metadata> {
        self.file.metadata()
    }

    fn set_len(&self, _size: u64) -> io::Result<()> {
        Err(failed())
    }

    /// Works only for a folder, whose names a disk syncs with it.
    fn sync_all(&self) -> io::Result<()> {
        if !self.is_folder || self.fault.get() == Fault::FolderSync {
            return Err(failed());
        }
        self.file.sync_all()
    }

    /// Works only for a file, whose bytes and length a disk syncs with it.
    fn sync_data(&self) -> io::Result<()> {
        if self.is_folder || self.fault.get() == Fault::Sync {
            return Err(failed());
        }
        self.file.sync_data()
    }
}

impl<'r, F: Lockable + Drop> Lockable for FaultyFile<'r, F> {
    fn try_lock(&self) -> Result<(), TryLockError> {
        match self.fault.get() {
            Fault::Locked => Err(TryLockError::WouldBlock),
            Fault::NoLocks => Err(TryLockError::Error(failed())),
            _ => self.file.try_lock(),
        }
    }

    fn try_lock_shared(&self) -> Result<(), TryLockError> {
        match self.fault.get() {
            Fault::Locked => Err(TryLockError::WouldBlock),
            Fault::NoLocks => Err(TryLockError::Error(failed())),
            _ => self.file.try_lock_shared(),
        }
    }
}

impl<'r, R: Files> Files for Faulty<'r, R> {
    type File = FaultyFile<'r, R::File>;

    type Dir = R::Dir;

    fn open_file(&self, how: &OpenOptions, path: &str) -> io::Result<FaultyFile<'r, R::File>> {
        if self.fault.get() == Fault::Open {
            return Err(failed());
        }
        let file = self.rt.open_file(how, path)?;
        Ok(FaultyFile {
            file,
            fault: self.fault,
            is_folder: !path.ends_with(".img") && !path.ends_with(".tmp"),
            reads: 0,
        })
    }

    fn open_dir(&self, _path: &str) -> io::Result<R::Dir> {
        Err(failed())
    }

    fn metadata(&self, path: &str) -> io::Result<Metadata> {
        if self.fault.get() == Fault::Look {
            return Err(failed());
        }
        self.rt.metadata(path)
    }

    fn symlink_metadata(&self, _path: &str) -> io::Result<Metadata> {
        Err(failed())
    }

    fn copy(&self, _from: &str, _to: &str) -> io::Result<u64> {
        Err(failed())
    }

    fn rename(&self, from: &str, to: &str) -> io::Result<()> {
        if self.fault.get() == Fault::Rename {
            return Err(failed());
        }
        self.rt.rename(from, to)
    }

    fn remove_file(&self, _path: &str) -> io::Result<()> {
        Err(failed())
    }

    fn create_dir(&self, _path: &str) -> io::Result<()> {
        Err(failed())
    }

    fn remove_dir(&self, _path: &str) -> io::Result<()> {
        Err(failed())
    }

    fn remove_dir_all<B: Allocator>(&self, _alloc: B, _path: &str) -> io::Result<()> {
        Err(failed())
    }
}
