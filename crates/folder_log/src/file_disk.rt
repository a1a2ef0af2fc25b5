ghost use Rattle.std.specs.Prelude.{◌≡◌, ℕ, ◌≤◌, None, IfOk, OnOk, OnErr, vec_len};
ghost use Rattle.devices.specs.Devices.{Rose};
ghost use Rattle.devices.specs.Calls.{one_more};
ghost use Rattle.devices.specs.Logged.{most_file};
ghost use Rattle.folder_log.specs.Disk.{file_length};
ghost use Rattle.folder_log.specs.inner.Disk.{untold};

use crate::disk::{DiskFault, LogDisk};
use crate::folder::{Known, Lockable, Stamp, has_writer, is_missing, lock_folder, stamp_at};
use devices::Failed;
use devices::kept::MOST_FILE;
use s3_types::Bytes;
use std::alloc::{AllocError, Global};
use std::fs::{OpenFile, OpenOptions};
use std::io::{Read, Seek, SeekFrom, Write};
use std::marker::Model;
use std::rt::Files;
use std::{fs, io};

/// The file `store.img` of a folder as a disk. It shows nothing of its bytes. From its first swap
/// until it is dropped it holds the folder's lock, and every other disk's swap there fails.
#[derive(Drop)]
pub struct FileDisk<R: Files> {
    rt: R,
    folder: String,
    /// The path of `store.img`.
    image: String,
    /// The path of `store.tmp`. A swap writes this file and then renames it.
    fresh: String,
    /// The file, once this disk has written it.
    file: Option<R::File>,
    /// The file as it was read last, until a swap.
    known: Known<R::File>,
    /// The open folder with its lock, once it was taken.
    lock: Option<R::File>,
    /// Whether the folder's entry for the file is on the disk.
    is_named: bool,
    calls: u64,
    faults: u64,
    alloc: Global,
}

impl<R: Files> Model for FileDisk<R> {
    ghost use Rattle.folder_log.specs.Disk.{Counts};

    ghost Value = { Counts };

    ghost view = { λ d. record { calls = d.calls; faults = d.faults } };
}

/// Reads a file of this length to its end, in memory for its bytes.
fn read_whole<F: Read>(alloc: Global, file: &mut F, length: u64) -> Result<Vec<u8>, DiskFault>
    ensures { IfOk result (λ all. vec_len all ≤ most_file) }
{
    if length > MOST_FILE {
        return Err(DiskFault::TooLarge);
    }
    let Ok(mut all) = Vec::with_capacity(alloc, length as usize) else {
        return Err(DiskFault::NoMemory);
    };
    let mut chunk = [0u8; 65536];
    for _ in 0..u64::MAX {
        let Ok(n) = file.read(&mut chunk) else {
            return Err(DiskFault::Failed);
        };
        if n == 0 {
            return Ok(all);
        }
        if (all.len() + n) as u64 > MOST_FILE {
            return Err(DiskFault::TooLarge);
        }
        let Ok(()) = all.extend_from_slice(&chunk[..n]) else {
            return Err(DiskFault::NoMemory);
        };
    }
    Err(DiskFault::Failed)
}

/// Writes a whole file in three pieces, and syncs its bytes and its length.
fn write_whole<R: Files>(
    rt: &R,
    path: &str,
    head: &[u8],
    body: &[u8],
    tail: &[u8],
) -> io::Result<R::File> {
    let mut file = fs::create(rt, path)?;
    file.write_all(head)?;
    file.write_all(body)?;
    file.write_all(tail)?;
    file.flush()?;
    file.sync_data()?;
    Ok(file)
}

/// Opens an existing file to write over its bytes.
fn open_to_write<R: Files>(rt: &R, path: &str) -> io::Result<R::File> {
    let mut options = OpenOptions::new();
    options.write(true);
    options.open(rt, path)
}

fn write_from<F: Write + Seek>(file: &mut F, place: u64, bytes: &[u8]) -> io::Result<()> {
    file.seek(SeekFrom::Start(place))?;
    file.write_all(bytes)?;
    file.flush()
}

/// Syncs a folder by its path, so that the names in it last.
fn sync_names<R: Files>(rt: &R, path: &str) -> io::Result<()> {
    let folder = fs::open(rt, path)?;
    folder.sync_all()
}

/// Syncs a file by its path, so that its bytes and its length last; its times need not.
fn sync_bytes<R: Files>(rt: &R, path: &str) -> io::Result<()> {
    let file = fs::open(rt, path)?;
    file.sync_data()
}

impl<R: Files + Drop> FileDisk<R>
where
    R::File: Lockable,
{
    /// The disk of the folder with this path. Touches nothing. It fails only if memory runs out.
    /// Of its calls only `read` takes memory, for the file's bytes.
    pub fn new(alloc: Global, rt: R, folder: String) -> Result<FileDisk<R>, AllocError>
        ensures { IfOk result (λ disk. disk ≡ record { calls = 0; faults = 0 }) }
    {
        let image = format!(in alloc; "{}/store.img", folder.as_str())?;
        let fresh = format!(in alloc; "{}/store.tmp", folder.as_str())?;
        Ok(FileDisk {
            rt,
            folder,
            image,
            fresh,
            file: None,
            known: Known::Nothing,
            lock: None,
            is_named: false,
            calls: 0,
            faults: 0,
            alloc,
        })
    }

    /// Reads the file. It takes the file's stamp before the bytes, so that the next check notices
    /// what is written meanwhile.
    fn read_file(&mut self) -> Result<Option<Bytes>, DiskFault>
        ensures read { IfOk result (λ read. file_length read ≤ most_file) }
        ensures same { self.new ≡ self.old }
    {
        let opened = fs::open(&self.rt, self.image.as_str());
        if is_missing(&opened) {
            self.known = Known::NoFile;
            return Ok(None);
        }
        let Ok(mut file) = opened else {
            return Err(DiskFault::Failed);
        };
        let grows = has_writer(&file);
        let Ok(metadata) = file.metadata() else {
            return Err(DiskFault::Failed);
        };
        let all = read_whole(self.alloc, &mut file, metadata.len())?;
        let stamp = Stamp::of(&metadata);
        self.known = if grows {
            Known::Growing
        } else {
            Known::File { file, stamp }
        };
        match Bytes::new(self.alloc, all) {
            Ok(bytes) => Ok(Some(bytes)),
            Err(_) => Err(DiskFault::NoMemory),
        }
    }

    /// Whether the file under the name is the one that this disk has written or, before that, has
    /// read.
    fn is_unchanged(&self) -> io::Result<bool> {
        let known = match (&self.file, &self.known) {
            (Some(file), _) => Some(Stamp::of(&file.metadata()?)),
            (None, Known::File { stamp, .. }) => Some(*stamp),
            (None, Known::NoFile) => None,
            (None, Known::Growing) => return Ok(false),
            (None, Known::Nothing) => return Ok(true),
        };
        Ok(stamp_at(&self.rt, self.image.as_str())? == known)
    }

    /// Takes the folder's lock, unless this disk has it, and then checks that nobody else has
    /// changed the file.
    fn take_folder(&mut self) -> io::Result<()>
        ensures { self.new ≡ self.old }
    {
        if self.lock.is_none() {
            self.lock = Some(lock_folder(&self.rt, self.folder.as_str())?);
        }
        if self.is_unchanged()? {
            return Ok(());
        }
        Err(io::Error::from(io::ErrorKind::Other))
    }

    /// Writes `store.tmp`, syncs it, renames it to `store.img` and syncs the folder. The file's
    /// own lock tells readers that this disk is still there.
    fn put(&mut self, head: &[u8], body: &[u8], tail: &[u8]) -> io::Result<()>
        ensures { self.new ≡ self.old }
    {
        let file = write_whole(&self.rt, self.fresh.as_str(), head, body, tail)?;
        let _ = file.try_lock();
        self.is_named = false;
        fs::rename(&self.rt, self.fresh.as_str(), self.image.as_str())?;
        self.file = Some(file);
        self.known = Known::Nothing;
        self.sync_folder()
    }

    /// Puts the file in its place, unless another disk uses the folder.
    fn take_and_put(&mut self, head: &[u8], body: &[u8], tail: &[u8]) -> io::Result<()>
        ensures { self.new ≡ self.old }
    {
        self.take_folder()?;
        self.put(head, body, tail)
    }

    /// Syncs the folder, if it exists, unless that was done since the file got its name.
    fn sync_folder(&mut self) -> io::Result<()>
        ensures { self.new ≡ self.old }
    {
        if self.is_named {
            return Ok(());
        }
        let synced = sync_names(&self.rt, self.folder.as_str());
        if is_missing(&synced) {
            return Ok(());
        }
        synced?;
        self.is_named = true;
        Ok(())
    }

    fn write_over(&mut self, place: u64, bytes: &[u8]) -> io::Result<()>
        ensures { self.new ≡ self.old }
    {
        let mut file = match self.file.take() {
            Some(file) => file,
            None => open_to_write(&self.rt, self.image.as_str())?,
        };
        let done = write_from(&mut file, place, bytes);
        self.file = Some(file);
        done
    }

    /// Syncs the file, if it exists.
    fn sync_file(&self) -> io::Result<()> {
        if let Some(file) = &self.file {
            return file.sync_data();
        }
        let synced = sync_bytes(&self.rt, self.image.as_str());
        if is_missing(&synced) {
            return Ok(());
        }
        synced
    }

    fn sync_both(&mut self) -> io::Result<()>
        ensures { self.new ≡ self.old }
    {
        self.sync_file()?;
        self.sync_folder()
    }

    /// Counts a call and, if it failed, its fault; returns what the call returns.
    fn counted(&mut self, done: io::Result<()>) -> Result<(), Failed>
        ensures counted { self.new.calls ≡ one_more self.old.calls }
        ensures calm { OnOk result (self.new.faults ≡ self.old.faults) }
        ensures failed { OnErr result (Rose self.old.faults self.new.faults) }
    {
        self.calls = self.calls.saturating_add(1);
        match done {
            Ok(()) => Ok(()),
            Err(_) => {
                self.faults = self.faults.saturating_add(1);
                Err(Failed)
            }
        }
    }
}

impl<R: Files + Drop> LogDisk for FileDisk<R>
where
    R::File: Lockable,
{
    ghost seen = { λ d. None };

    ghost may_leave = { λ d c. ⊥ };

    ghost moment = { λ d. 0 };

    ghost left_since = { λ d t c. ⊥ };

    ghost calls = { λ d. d.calls };

    ghost faults = { λ d. d.faults };

    ghost answers = { λ d e. Unit {0} };

    ghost fails = { λ d e. Unit {0} };

    ghost counts_now = { λ d t c le left. left };

    ghost only_now = { λ d c left. left };

    ghost shows = { λ d c is. untold c is };

    /// Returns None if the file does not exist.
    fn read(&mut self) -> Result<Option<Bytes>, DiskFault> {
        self.calls = self.calls.saturating_add(1);
        match self.read_file() {
            Err(DiskFault::Failed) => {
                self.faults = self.faults.saturating_add(1);
                Err(DiskFault::Failed)
            }
            other => other,
        }
    }

    /// Fails too, and writes nothing, if another disk holds the folder's lock, or has changed the
    /// file since this one read or wrote it.
    fn swap(&mut self, head: &[u8], body: &[u8], tail: &[u8]) -> Result<(), Failed> {
        let done = self.take_and_put(head, body, tail);
        self.counted(done)
    }

    fn write_at(&mut self, place: u64, bytes: &[u8]) -> Result<(), Failed> {
        let done = self.write_over(place, bytes);
        self.counted(done)
    }

    fn sync(&mut self) -> Result<(), Failed> {
        let done = self.sync_both();
        self.counted(done)
    }
}
