use crate::found::load;
use crate::left::{Left, crash_left, held_left, written};
use crate::play::{Came, Play, play_over};
use devices::CallList;
use devices::kept::{LoggedStore, MemShelf};
use folder_log::{Choice, LogShelf, MemDisk};
use s3_types::{Bytes, let_go};
use std::alloc::{AllocError, Global};
use std::io;

/// A list of one call, or of none.
pub fn calls_of(alloc: Global, call: Option<u64>) -> Result<CallList, AllocError> {
    let mut calls = CallList::new(alloc);
    if let Some(call) = call {
        calls.push(call)?;
    }
    Ok(calls)
}

/// A shelf over the disk as it is before the run. One call of the disk may fail, or the disk stops
/// after some calls.
fn shelf_of(
    alloc: Global,
    play: Play<'_>,
    fail: Option<u64>,
    stop: Option<u64>,
) -> Result<LogShelf<MemDisk>, AllocError> {
    let fail = calls_of(alloc, fail)?;
    let file = play.file.clone()?;
    Ok(LogShelf::new(alloc, MemDisk::new(alloc, file, fail, stop)))
}

/// Shows how far a run came, and what is loaded after a crash at its end.
fn show_came(
    rt: &impl Print,
    alloc: Global,
    play: Play<'_>,
    came: Came,
    disk: &MemDisk,
) -> io::Result<()> {
    let lost = crash_left(alloc, play, disk, Choice::Lost)?;
    let kept = crash_left(alloc, play, disk, Choice::Kept)?;
    let closed = crash_left(alloc, play, disk, Choice::Torn(0))?;
    let open = crash_left(alloc, play, disk, Choice::Torn(1))?;
    println!(rt; "{came}, lost {lost}, kept {kept}, torn to 0 {closed}, torn to 1 {open}")
}

fn show_play(
    rt: &impl Print,
    alloc: Global,
    play: Play<'_>,
    fail: Option<u64>,
    stop: Option<u64>,
) -> io::Result<()> {
    let mut shelf = shelf_of(alloc, play, fail, stop)?;
    let came = play_over(&mut shelf, play);
    let shown = show_came(rt, alloc, play, came, shelf.disk());
    let_go(shelf);
    shown
}

/// Runs once for each number of calls after which the disk stops.
fn show_stops(rt: &impl Print, alloc: Global, play: Play<'_>, calls: u64) -> io::Result<()> {
    for stop in 0..=calls {
        print!(rt; "stop {stop}: ")?;
        show_play(rt, alloc, play, None, Some(stop))?;
    }
    Ok(())
}

/// Runs once for each call that fails alone.
fn show_fails(rt: &impl Print, alloc: Global, play: Play<'_>, calls: u64) -> io::Result<()> {
    for call in 1..=calls {
        print!(rt; "fail {call}: ")?;
        show_play(rt, alloc, play, Some(call), None)?;
    }
    Ok(())
}

/// The number of calls of the whole run, and the file that they leave.
fn whole_play(alloc: Global, play: Play<'_>) -> Result<(u64, Option<Bytes>), AllocError> {
    let mut shelf = shelf_of(alloc, play, None, None)?;
    let _ = play_over(&mut shelf, play);
    let calls = shelf.disk().calls_made();
    let left = shelf.disk().crash(Choice::Lost);
    let_go(shelf);
    Ok((calls, left?))
}

fn show_whole(rt: &impl Print, alloc: Global, calls: u64, file: &Option<Bytes>) -> io::Result<()> {
    let Some(file) = file else {
        return println!(rt; "calls {calls}");
    };
    let digits = hex::encode(alloc, file.as_slice())?;
    println!(rt; "calls {calls}\nfile {digits}")
}

/// Runs over a disk on which nothing fails, then on which it stops, then of which one call fails.
pub fn show_plays(rt: &impl Print, alloc: Global, play: Play<'_>) -> io::Result<()> {
    let (calls, file) = whole_play(alloc, play)?;
    let shown = show_whole(rt, alloc, calls, &file);
    let_go(file);
    shown?;
    let calls = calls.min(100);
    show_stops(rt, alloc, play, calls)?;
    show_fails(rt, alloc, play, calls)
}

/// What the file holds, or nothing if the file is bad.
fn held_of(alloc: Global, file: &Option<Bytes>) -> Result<Option<LoggedStore>, AllocError> {
    match load(alloc, file.clone()?) {
        Ok(held) => Ok(held),
        Err(_) => Ok(None),
    }
}

/// What the file holds before a run, as bytes; none if it holds nothing.
pub fn written_before(alloc: Global, file: &Option<Bytes>) -> Result<Vec<u8>, AllocError> {
    match held_of(alloc, file)? {
        Some(held) => {
            let bytes = written(alloc, held.base.as_slice(), held.changes.as_slice());
            let_go(held);
            bytes
        }
        None => Ok(Vec::new(alloc)),
    }
}

/// A shelf in memory that holds what the file does. This call of it fails.
fn shelf_in_memory(alloc: Global, play: Play<'_>, call: u64) -> Result<MemShelf, AllocError> {
    let fail = calls_of(alloc, Some(call))?;
    let held = held_of(alloc, play.file)?;
    Ok(MemShelf::new(alloc, held, fail))
}

fn shelf_left(alloc: Global, play: Play<'_>, shelf: &MemShelf) -> Result<Left, AllocError> {
    match shelf.held() {
        Some(held) => held_left(alloc, play, held),
        None => Ok(Left::Nothing),
    }
}

/// How far the run comes over a shelf in memory of which this call fails, and what the shelf then
/// holds.
fn play_in_memory(alloc: Global, play: Play<'_>, call: u64) -> Result<(Came, Left), AllocError> {
    let mut shelf = shelf_in_memory(alloc, play, call)?;
    let came = play_over(&mut shelf, play);
    let left = shelf_left(alloc, play, &shelf);
    let_go(shelf);
    Ok((came, left?))
}

/// Runs over a shelf in memory of which no call fails, or one.
pub fn show_memories(rt: &impl Print, alloc: Global, play: Play<'_>) -> io::Result<()> {
    for call in 0..12u64 {
        let (came, left) = play_in_memory(alloc, play, call)?;
        println!(rt; "fail {call}: {came}, holds {left}")?;
    }
    Ok(())
}
