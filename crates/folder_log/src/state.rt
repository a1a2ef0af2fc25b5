//! The state of a disk in memory: what is on the disk, and what a read gives.
ghost use Rattle.std.specs.Prelude.{◌≡◌, List, [], ◌∷◌, ◌++◌, length, Some, IfOk, IsErrOf};
ghost use Rattle.folder_log.specs.Disk.{IsRead, IsTooLong, overwritten, file_after};
ghost use Rattle.folder_log.specs.Calls as laid;
ghost use Rattle.folder_log.specs.Calls.{filled};

use crate::disk::DiskFault;
use devices::kept::MOST_FILE;
use s3_types::{Bytes, Sequence};
use std::alloc::{AllocError, Global};

/// A call of a disk that succeeded and may have changed what a crash leaves.
#[derive(Drop)]
pub enum DiskCall {
    Swap(Bytes),
    Write { place: u64, bytes: Bytes },
    Sync,
}

/// A range of a file: its place in bytes from the start, and its length in bytes.
#[derive(Clone, Copy, PartialEq, Eq)]
pub struct Span {
    pub place: u64,
    pub length: usize,
}

/// The file that is on the disk, the file that a read gives, and the ranges that were written
/// since the last sync.
#[derive(Drop)]
pub struct State {
    pub synced: Option<Bytes>,
    pub now: Option<Bytes>,
    pub ranges: Sequence<Span>,
}

/// What a crash makes of the ranges that were not synced.
#[derive(Clone, Copy, PartialEq, Eq)]
pub enum Choice {
    /// They have their old bytes, and the file has its old end.
    Lost,
    /// They have the bytes that were written.
    Kept,
    /// They are filled with this byte.
    Torn(u8),
}

/// Returns a copy of the file that shares its bytes.
pub fn shared(file: &Option<Bytes>) -> Result<Option<Bytes>, AllocError>
    ensures { IfOk result (λ copy. copy ≡ file.now) }
{
    match file {
        Some(bytes) => Ok(Some(bytes.clone()?)),
        None => Ok(None),
    }
}

/// Returns the file that a read gives, or TooLarge.
pub fn read_of(file: &Option<Bytes>) -> Result<Option<Bytes>, DiskFault>
    ensures bytes { IfOk result (λ bytes. IsRead (Some file.now) bytes) }
    ensures large { IsErrOf result DiskFault.TooLarge → IsTooLong (Some file.now) }
    ensures sure { IsErrOf result DiskFault.Failed → ⊥ }
{
    let Some(bytes) = file else {
        return Ok(None);
    };
    if bytes.as_slice().len() as u64 > MOST_FILE {
        return Err(DiskFault::TooLarge);
    }
    match bytes.clone() {
        Ok(bytes) => Ok(Some(bytes)),
        Err(_) => Err(DiskFault::NoMemory),
    }
}

/// Returns the three pieces joined.
pub fn joined(alloc: Global, head: &[u8], body: &[u8], tail: &[u8]) -> Result<Bytes, AllocError>
    ensures { IfOk result (λ all. all ≡ head.now ++ (body.now ++ tail.now)) }
{
    let mut all = Vec::from_slice(alloc, head)?;
    all.extend_from_slice(body)?;
    all.extend_from_slice(tail)?;
    Bytes::new(alloc, all)
}

/// Returns the bytes with others written over them at a place, perhaps past their end.
fn with_bytes(alloc: Global, old: &[u8], place: usize, bytes: &[u8]) -> Result<Bytes, AllocError>
    ensures { IfOk result (λ next. next ≡ overwritten place bytes.now old.now) }
{
    let start = place.min(old.len());
    let end = place.saturating_add(bytes.len()).min(old.len());
    let mut next = Vec::from_slice(alloc, &old[..start])?;
    next.extend_from_slice(bytes)?;
    next.extend_from_slice(&old[end..])?;
    Bytes::new(alloc, next)
}

/// Returns the file with bytes written over it at a place, perhaps past its end.
fn written_file(
    alloc: Global,
    file: &Option<Bytes>,
    place: u64,
    bytes: &[u8],
) -> Result<Option<Bytes>, AllocError>
    ensures { IfOk result (λ next. next ≡ file_after place bytes.now file.now) }
{
    match file {
        Some(old) => Ok(Some(with_bytes(alloc, old.as_slice(), place as usize, bytes)?)),
        None => Ok(None),
    }
}

/// Returns the state in which all of the file is on the disk.
pub fn at_rest(alloc: Global, file: Option<Bytes>) -> Result<State, AllocError>
    ensures { IfOk result (λ state. state ≡ laid.at_rest file) }
{
    let synced = shared(&file)?;
    Ok(State {
        synced,
        now: file,
        ranges: Sequence::new(alloc),
    })
}

/// Returns the ranges with one more at the end.
fn with_range(alloc: Global, ranges: &[Span], range: Span) -> Result<Sequence<Span>, AllocError>
    ensures { IfOk result (λ all. all ≡ ranges.now ++ range ∷ []) }
{
    let mut all = Vec::from_slice(alloc, ranges)?;
    all.push(range)?;
    Ok(Sequence::from_vec(all))
}

/// Returns the state after a write at a place.
pub fn written(
    alloc: Global,
    synced: &Option<Bytes>,
    now: &Option<Bytes>,
    ranges: &[Span],
    place: u64,
    bytes: &[u8],
) -> Result<State, AllocError>
    ensures { IfOk result (λ state. state ≡ laid.wrote (record {
      synced = synced.now;
      now = now.now;
      ranges = ranges.now;
    }) place bytes.now) }
{
    let length = bytes.len();
    let ranges = with_range(alloc, ranges, Span { place, length })?;
    let synced = shared(synced)?;
    let now = written_file(alloc, now, place, bytes)?;
    Ok(State {
        synced,
        now,
        ranges,
    })
}

/// Returns the file with each of the ranges filled with a byte, one after another.
pub fn torn_file(
    alloc: Global,
    file: &Option<Bytes>,
    ranges: &[Span],
    byte: u8,
) -> Result<Option<Bytes>, AllocError>
    ensures { IfOk result (λ torn. torn ≡ filled byte ranges.now file.now) }
{
    let mut torn = shared(file)?;
    for range in ranges {
        let bytes = Vec::from_elem(alloc, byte, range.length)?;
        torn = written_file(alloc, &torn, range.place, &bytes)?;
    }
    Ok(torn)
}
