use crate::found::{fault_text, load};
use crate::play::Play;
use devices::kept::{LoadFault, LoggedStore};
use folder_log::{Choice, MemDisk};
use log_format::{can_write, is_changing, write_record};
use s3_types::{Request, let_go};
use std::alloc::{AllocError, Global};
use std::fmt;

/// What is held at the end of a run.
#[derive(Clone, Copy)]
pub enum Left {
    Nothing,
    /// The new base, and so many of the changes after it.
    Changes(usize),
    /// What was held before the run.
    Before,
    Another,
    Fault(LoadFault),
}

impl fmt::Display for Left {
    fn fmt<W: fmt::Write>(&self, f: &mut fmt::Formatter<W>) -> fmt::Result {
        match self {
            Left::Nothing => f.write_str("nothing"),
            Left::Changes(count) => write!(f, "{count}"),
            Left::Before => f.write_str("before"),
            Left::Another => f.write_str("another"),
            Left::Fault(fault) => f.write_str(fault_text(*fault)),
        }
    }
}

/// A base with its length, and the changes after it, each as a log has it.
pub fn written(alloc: Global, base: &[u8], changes: &[Request]) -> Result<Vec<u8>, AllocError> {
    let mut bytes = Vec::new(alloc);
    let mut record = Vec::new(alloc);
    bytes.extend_from_slice(&(base.len() as u64).to_be_bytes())?;
    bytes.extend_from_slice(base)?;
    for change in changes {
        if is_changing(change) && can_write(change) {
            write_record(&mut record, change)?;
            bytes.extend_from_slice(&record)?;
        }
    }
    Ok(bytes)
}

/// Which of the states that a crash may leave this is.
pub fn held_left(alloc: Global, play: Play<'_>, held: &LoggedStore) -> Result<Left, AllocError> {
    let bytes = written(alloc, held.base.as_slice(), held.changes.as_slice())?;
    if play.whole.starts_with(&bytes) {
        return Ok(Left::Changes(held.changes.len()));
    }
    if play.before == bytes.as_slice() {
        return Ok(Left::Before);
    }
    Ok(Left::Another)
}

fn loaded_left(
    alloc: Global,
    play: Play<'_>,
    loaded: &Result<Option<LoggedStore>, LoadFault>,
) -> Result<Left, AllocError> {
    match loaded {
        Ok(Some(held)) => held_left(alloc, play, held),
        Ok(None) => Ok(Left::Nothing),
        Err(fault) => Ok(Left::Fault(*fault)),
    }
}

/// What is loaded after a crash.
pub fn crash_left(
    alloc: Global,
    play: Play<'_>,
    disk: &MemDisk,
    choice: Choice,
) -> Result<Left, AllocError> {
    let loaded = load(alloc, disk.crash(choice)?);
    let left = loaded_left(alloc, play, &loaded);
    let_go(loaded);
    left
}
