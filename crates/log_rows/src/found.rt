use devices::CallList;
use devices::kept::{LoadFault, LoggedStore, Shelf};
use folder_log::{LogShelf, MemDisk};
use s3_types::{Bytes, let_go};
use std::alloc::Global;
use std::fmt;

/// Loads a shelf over a disk with this file.
pub fn load(alloc: Global, file: Option<Bytes>) -> Result<Option<LoggedStore>, LoadFault> {
    let disk = MemDisk::new(alloc, file, CallList::new(alloc), None);
    let mut shelf = LogShelf::new(alloc, disk);
    shelf.load()
}

/// What was loaded: its size or its fault.
#[derive(Clone, Copy, PartialEq, Eq)]
pub enum Found {
    Nothing,
    Store { base: usize, changes: usize },
    Fault(LoadFault),
}

/// What a file holds.
pub fn find(alloc: Global, file: Bytes) -> Found {
    match load(alloc, Some(file)) {
        Ok(None) => Found::Nothing,
        Ok(Some(held)) => {
            let (base, changes) = (held.base.as_slice().len(), held.changes.len());
            let_go(held);
            Found::Store { base, changes }
        }
        Err(fault) => Found::Fault(fault),
    }
}

/// The text of a fault of loading.
pub fn fault_text(fault: LoadFault) -> &'static str {
    match fault {
        LoadFault::Failed => "failed",
        LoadFault::TooLarge => "too large",
        LoadFault::BadLog(_) => "bad",
        LoadFault::NoMemory => "no memory",
    }
}

impl fmt::Display for Found {
    fn fmt<W: fmt::Write>(&self, f: &mut fmt::Formatter<W>) -> fmt::Result {
        match self {
            Found::Nothing => f.write_str("nothing"),
            Found::Store { base, changes } => write!(f, "base {base} changes {changes}"),
            Found::Fault(LoadFault::BadLog(place)) => write!(f, "bad at {place}"),
            Found::Fault(fault) => f.write_str(fault_text(*fault)),
        }
    }
}
