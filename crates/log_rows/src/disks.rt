use crate::faults::{Fault, Faulty};
use crate::rivals::show_rivals;
use crate::streams::show_streams;
use devices::Failed;
use folder_log::{DiskFault, FileDisk, LogDisk};
use s3_types::{Bytes, let_go};
use std::alloc::{AllocError, Global};
use std::cell::Cell;
use std::fs::File;
use std::io::Read;
use std::rt::Files;
use std::{fs, io};

pub const FOLDER: &str = "log-rows-folder";

pub const IMAGE: &str = "log-rows-folder/store.img";

/// The file that a swap writes first.
const FRESH: &str = "log-rows-folder/store.tmp";

/// Another name of the first file.
const OTHER: &str = "log-rows-folder/first.img";

/// The calls that are made without a folder.
const WITHOUT_FOLDER: [Call; 3] = [Call::Sync, Call::Read, Call::Swap];

/// The calls that are made without a file.
const WITHOUT_FILE: [Call; 3] = [Call::Sync, Call::Read, Call::Write];

const CALLS: [Call; 4] = [Call::Read, Call::Swap, Call::Write, Call::Sync];

const FAULTS: [(Fault, &str); 8] = [
    (Fault::Nothing, "nothing fails"),
    (Fault::Open, "no file is opened"),
    (Fault::Read, "a file is read up to its first byte"),
    (Fault::Short, "one byte is read or written at a time"),
    (Fault::Full, "no byte is written"),
    (Fault::Sync, "no file is synced"),
    (Fault::FolderSync, "no folder is synced"),
    (Fault::Rename, "no file is renamed"),
];

/// Two calls of one disk, each with its fault.
const PAIRS: [([(Call, Fault); 2], &str, &str); 6] = [
    (
        [
            (Call::Sync, Fault::Nothing),
            (Call::Swap, Fault::FolderSync),
        ],
        "sync and swap",
        "no folder is synced from the second on",
    ),
    (
        [(Call::Write, Fault::Nothing), (Call::Sync, Fault::Sync)],
        "write and sync",
        "no file is synced from the second on",
    ),
    (
        [
            (Call::Sync, Fault::FolderSync),
            (Call::Sync, Fault::FolderSync),
        ],
        "sync and sync",
        "no folder is synced",
    ),
    (
        [(Call::Read, Fault::Nothing), (Call::Swap, Fault::Locked)],
        "read and swap",
        "another program has the folder's lock",
    ),
    (
        [(Call::Read, Fault::Nothing), (Call::Swap, Fault::NoLocks)],
        "read and swap",
        "a folder has no lock",
    ),
    (
        [(Call::Read, Fault::Nothing), (Call::Swap, Fault::Look)],
        "read and swap",
        "no path is looked at",
    ),
];

/// A call of a disk.
#[derive(Clone, Copy)]
pub enum Call {
    /// The write of the first file.
    First,
    Read,
    Swap,
    Write,
    Sync,
}

/// The name of a call of a disk.
pub fn call_text(call: Call) -> &'static str {
    match call {
        Call::First => "first",
        Call::Read => "read",
        Call::Swap => "swap",
        Call::Write => "write",
        Call::Sync => "sync",
    }
}

/// The bytes as text; these rows use no other bytes.
pub fn text_of(bytes: &[u8]) -> &str {
    str::from_utf8(bytes).unwrap_or("no text")
}

fn put_read(line: &mut String, read: &Result<Option<Bytes>, DiskFault>) -> Result<(), AllocError> {
    line.push_str(match read {
        Ok(Some(bytes)) => text_of(bytes.as_slice()),
        Ok(None) => "no file",
        Err(DiskFault::Failed) => "failed",
        Err(_) => "another fault",
    })
}

fn put_done(line: &mut String, done: Result<(), Failed>) -> Result<(), AllocError> {
    line.push_str(if done.is_ok() { "done" } else { "failed" })
}

/// Writes the answer of a call.
pub fn put_answer<R: Files<File = File>>(
    line: &mut String,
    disk: &mut FileDisk<Faulty<'_, R>>,
    call: Call,
) -> Result<(), AllocError> {
    match call {
        Call::Read => {
            let read = disk.read();
            let put = put_read(line, &read);
            let_go(read);
            put
        }
        Call::First => put_done(line, disk.swap(b"fi", b"rs", b"t")),
        Call::Swap => put_done(line, disk.swap(b"ne", b"we", b"st")),
        Call::Write => put_done(line, disk.write_at(2, b"LOG")),
        Call::Sync => put_done(line, disk.sync()),
    }
}

/// Writes the answers of calls in a row, each made with its fault.
fn put_answers<R: Files<File = File>>(
    line: &mut String,
    disk: &mut FileDisk<Faulty<'_, R>>,
    fault: &Cell<Fault>,
    calls: &[(Call, Fault)],
) -> Result<(), AllocError> {
    for (call, wrong) in calls {
        if !line.is_empty() {
            line.push_str(", ")?;
        }
        fault.set(*wrong);
        put_answer(line, disk, *call)?;
    }
    Ok(())
}

/// Writes the answers of calls of a new disk of the folder.
fn put_calls<R: Files<File = File>>(
    rt: &R,
    alloc: Global,
    line: &mut String,
    calls: &[(Call, Fault)],
) -> Result<(), AllocError> {
    let folder = String::from_str(alloc, FOLDER)?;
    let fault = Cell::new(Fault::Nothing);
    let mut disk = FileDisk::new(alloc, Faulty::new(rt, &fault), folder)?;
    let put = put_answers(line, &mut disk, &fault, calls);
    let_go(disk);
    put
}

/// Writes a file `first` and gives it a second name, under which it stays. If it cannot be written,
/// there is no file to name.
pub fn begin<R: Files<File = File>>(rt: &R, alloc: Global) -> io::Result<()> {
    let mut line = String::new(alloc);
    put_calls(rt, alloc, &mut line, &[(Call::First, Fault::Nothing)])?;
    fs::hard_link(rt, IMAGE, OTHER)
}

/// Writes the bytes of a file of the folder, or `no file`.
fn put_file<R: Files<File = File>>(
    rt: &R,
    alloc: Global,
    line: &mut String,
    path: &str,
) -> io::Result<()> {
    if !fs::exists(rt, path)? {
        return Ok(line.push_str("no file")?);
    }
    let mut bytes = Vec::new(alloc);
    fs::open(rt, path)?.read_to_end(&mut bytes)?;
    Ok(line.push_str(text_of(&bytes))?)
}

/// Writes what is left: the file under its name, the first file under its other name, and whether
/// there is a `store.tmp`.
pub fn put_left<R: Files<File = File>>(rt: &R, alloc: Global, line: &mut String) -> io::Result<()> {
    line.push_str(", then ")?;
    put_file(rt, alloc, line, IMAGE)?;
    line.push_str(", the old file ")?;
    put_file(rt, alloc, line, OTHER)?;
    if fs::exists(rt, FRESH)? {
        line.push_str(", beside store.tmp")?;
    }
    fs::remove_file(rt, OTHER)
}

/// Writes the answers of calls with faults, and what they leave.
fn put_fault<R: Files<File = File>>(
    rt: &R,
    alloc: Global,
    line: &mut String,
    calls: &[(Call, Fault)],
) -> io::Result<()> {
    begin(rt, alloc)?;
    put_calls(rt, alloc, line, calls)?;
    put_left(rt, alloc, line)
}

fn show_fault<R: Print + Files<File = File>>(
    rt: &R,
    alloc: Global,
    calls: &[(Call, Fault)],
    name: &str,
    what: &str,
) -> io::Result<()> {
    let mut line = String::new(alloc);
    put_fault(rt, alloc, &mut line, calls)?;
    println!(rt; "{name} where {what}: {line}")
}

fn show_faults<R: Print + Files<File = File>>(rt: &R, alloc: Global, call: Call) -> io::Result<()> {
    for (fault, what) in &FAULTS {
        show_fault(rt, alloc, &[(call, *fault)], call_text(call), what)?;
    }
    Ok(())
}

fn show_calls<R: Print + Files<File = File>>(rt: &R, alloc: Global) -> io::Result<()> {
    for call in &CALLS {
        show_faults(rt, alloc, *call)?;
    }
    Ok(())
}

fn show_pairs<R: Print + Files<File = File>>(rt: &R, alloc: Global) -> io::Result<()> {
    for (calls, name, what) in &PAIRS {
        show_fault(rt, alloc, calls, name, what)?;
    }
    Ok(())
}

/// Shows the answer of a call without a file, or without a folder.
fn show_missing<R: Print + Files<File = File>>(
    rt: &R,
    alloc: Global,
    call: Call,
    what: &str,
) -> io::Result<()> {
    let mut line = String::new(alloc);
    put_calls(rt, alloc, &mut line, &[(call, Fault::Nothing)])?;
    println!(rt; "{} where there is no {what}: {line}", call_text(call))
}

fn show_all_missing<R: Print + Files<File = File>>(
    rt: &R,
    alloc: Global,
    calls: &[Call],
    what: &str,
) -> io::Result<()> {
    for call in calls {
        show_missing(rt, alloc, *call, what)?;
    }
    Ok(())
}

/// Shows the answers of calls of a folder's file, and of streams over it.
pub fn show_disks<R: Print + Files<File = File>>(rt: &R, alloc: Global) -> io::Result<()> {
    show_all_missing(rt, alloc, &WITHOUT_FOLDER, "folder")?;
    fs::create_dir(rt, FOLDER)?;
    show_all_missing(rt, alloc, &WITHOUT_FILE, "file")?;
    show_calls(rt, alloc)?;
    show_rivals(rt, alloc)?;
    show_pairs(rt, alloc)?;
    show_streams(rt, alloc)?;
    fs::remove_file(rt, IMAGE)?;
    fs::remove_dir(rt, FOLDER)
}
