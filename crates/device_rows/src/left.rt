use crate::known::Known;
use devices::CallList;
use devices::kept::ShelfStop;
use durable_store::{ShelfState, load};
use folder_log::{Choice, LogShelf, MemDisk};
use log_format::{LogFault, read_log};
use s3_types::{Bytes, let_go};
use std::alloc::{AllocError, Global};
use std::fmt;
use store_image::encode;

/// What a file holds.
#[derive(Clone, Copy, PartialEq, Eq)]
pub enum Left {
    Nothing,
    /// So many changes, and the store as it was after so many requests of the whole run.
    Moment { changes: usize, sent: usize },
    Another,
    NoStore,
}

impl fmt::Display for Left {
    fn fmt<W: fmt::Write>(&self, f: &mut fmt::Formatter<W>) -> fmt::Result {
        match self {
            Left::Nothing => f.write_str("nothing"),
            Left::Moment { changes, sent } => write!(f, "{changes} at {sent}"),
            Left::Another => f.write_str("another"),
            Left::NoStore => f.write_str("no store"),
        }
    }
}

fn image_held(
    alloc: Global,
    held: &Result<ShelfState, ShelfStop>,
) -> Result<Option<Bytes>, AllocError> {
    match held {
        Ok(ShelfState::Store(service)) => {
            let mut image = Vec::new(alloc);
            encode(alloc, service, &mut image)?;
            Ok(Some(Bytes::new(alloc, image)?))
        }
        _ => Ok(None),
    }
}

/// The image of the store that a file is loaded as, if it is one.
pub fn loaded_image(alloc: Global, file: &Bytes) -> Result<Option<Bytes>, AllocError> {
    let file = file.clone()?;
    let disk = MemDisk::new(alloc, Some(file), CallList::new(alloc), None);
    let mut shelf = LogShelf::new(alloc, disk);
    let held = load(alloc, &mut shelf);
    let_go(shelf);
    let image = image_held(alloc, &held);
    let_go(held);
    image
}

/// The number of changes in a file.
fn changes_in(alloc: Global, file: &Bytes) -> Result<usize, AllocError> {
    match read_log(alloc, file) {
        Ok(held) => {
            let count = held.changes.len();
            let_go(held);
            Ok(count)
        }
        Err(LogFault::Bad(_)) => Ok(0),
        Err(LogFault::NoMemory) => Err(AllocError),
    }
}

/// The number of requests after which a run's store first had this image.
fn moment_of(images: &[Bytes], image: &Bytes) -> Option<usize> {
    for (sent, known) in images.iter().enumerate() {
        if known.as_slice() == image.as_slice() {
            return Some(sent);
        }
    }
    None
}

fn left_in(alloc: Global, known: &Known, file: &Bytes) -> Result<Left, AllocError> {
    let Some(image) = loaded_image(alloc, file)? else {
        return Ok(Left::NoStore);
    };
    match moment_of(known.images.as_slice(), &image) {
        Some(sent) => Ok(Left::Moment {
            changes: changes_in(alloc, file)?,
            sent,
        }),
        None => Ok(Left::Another),
    }
}

/// What a crash leaves of a disk, given the fate of the ranges that were not synced.
pub fn crash_left(
    alloc: Global,
    known: &Known,
    disk: &MemDisk,
    choice: Choice,
) -> Result<Left, AllocError> {
    match disk.crash(choice)? {
        Some(file) => left_in(alloc, known, &file),
        None => Ok(Left::Nothing),
    }
}
