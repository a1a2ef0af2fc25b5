ghost use Rattle.std.specs.Prelude.{◌≡◌, ℕ, ◌≤◌, ◌<◌, ◌^◌, ◌+◌, ◌⊎◌, ◌∷◌, ◌++◌, List, Option, Some, None, is_some, length, IfOk, IfSome, OnOk, OnErr, IsErrOf, true};
ghost use Rattle.log_format.specs.Change.{is_changing};
ghost use Rattle.devices.specs.Devices.{Rose};
ghost use Rattle.devices.specs.Causes.{IfBadLog};
ghost use Rattle.devices.specs.Logged.{LeavesOnly, most_file, IsLoaded, IsTooLarge, IsBad};
ghost use Rattle.folder_log.specs.Disk.{File, IsWithin, Writes, IsTorn, Only, Settles};
ghost use Rattle.folder_log.specs.inner.Disk.{more, FewMore};
ghost use Rattle.folder_log.specs.inner.Kept.{IsClosed, IsLeftOf, IsPrepared, IsSure, Leaves};
ghost use Rattle.folder_log.specs.Kept.{stored_of, stored, TakesAppends};

use crate::disk::{DiskFault, LogDisk};
use devices::Failed;
use devices::kept::{LoadFault, LoggedStore, MOST_BASE, Shelf, ShelfStop};
use log_format::{LogFault, base_length, can_write, head_of, read_log, write_record};
use s3_types::{Bytes, Request};
use std::alloc::Global;

/// Writes bytes at a place and syncs them. A crash leaves the file as it was, or with any bytes in
/// the range.
fn write_synced<D: LogDisk>(disk: &mut D, place: u64, bytes: &[u8]) -> Result<(), Failed>
    requires within { IsWithin place (D.seen disk.old) }
    ensures written { OnOk result (Writes place bytes.now (D.seen disk.old) (D.seen disk.new)) }
    ensures durable { OnOk result (Settles (D.seen disk.new) (D.may_leave disk.new)) }
    ensures told { is_some (D.seen disk.new) ≡ is_some (D.seen disk.old) }
    ensures later { D.moment disk.old ≤ D.moment disk.new }
    ensures torn { (file : File) → Only file (D.may_leave disk.old)
        → LeavesOnly D.moment D.left_since disk.old disk.new (λ c. (c ≡ file)
        ⊎ IsTorn place (length bytes.now) file c) }
    ensures made { OnOk result (D.calls disk.new ≡ more 2 (D.calls disk.old)) }
    ensures few { OnErr result (FewMore 2 (D.calls disk.old) (D.calls disk.new)) }
    ensures failed { OnErr result (Rose (D.faults disk.old) (D.faults disk.new)) }
    ensures calm { OnOk result (D.faults disk.new ≡ D.faults disk.old) }
{
    disk.write_at(place, bytes)?;
    disk.sync()
}

/// Writes a record after the closed gate at this place and syncs it. Then it opens the gate and
/// syncs that. A crash leaves the bytes before the gate, and after them a closed gate, or any gate
/// and the whole record.
fn open_record<D: LogDisk>(disk: &mut D, gate: u64, written: &[u8]) -> Result<(), Failed>
    requires within { IsWithin (gate + 1) (D.seen disk.old) }
    requires fits { gate + 1 < 2 ^ 64 }
    ensures opened { (front : List ℕ) → IsClosed front gate (D.seen disk.old) (D.may_leave disk.old)
        → OnOk result (D.seen disk.new ≡ Some (Some (front ++ 1 ∷ written.now))) }
    ensures durable { OnOk result (Settles (D.seen disk.new) (D.may_leave disk.new)) }
    ensures told { is_some (D.seen disk.new) ≡ is_some (D.seen disk.old) }
    ensures later { D.moment disk.old ≤ D.moment disk.new }
    ensures crash { (front : List ℕ) → IsClosed front gate (D.seen disk.old) (D.may_leave disk.old)
        → LeavesOnly D.moment D.left_since disk.old disk.new (IsLeftOf front written.now) }
    ensures made { OnOk result (D.calls disk.new ≡ more 4 (D.calls disk.old)) }
    ensures few { OnErr result (FewMore 4 (D.calls disk.old) (D.calls disk.new)) }
    ensures failed { OnErr result (Rose (D.faults disk.old) (D.faults disk.new)) }
    ensures calm { OnOk result (D.faults disk.new ≡ D.faults disk.old) }
{
    write_synced(disk, gate + 1, written)?;
    write_synced(disk, gate, &[1])
}

/// Writes the record of a change with a closed gate after it into a buffer, and returns the place
/// of that gate. Returns None if the place is past 2^63, if the change has no record, or if memory
/// runs out.
fn prepared(buffer: &mut Vec<u8>, gate: u64, change: &Request) -> Option<u64>
    requires { is_changing change.now ≡ true }
    ensures { IfSome result (IsPrepared gate change.now buffer.new.items) }
{
    if !can_write(change) {
        return None;
    }
    let Ok(()) = write_record(buffer, change) else {
        return None;
    };
    let length = buffer.len() as u64;
    if gate > MOST_PLACE || length > MOST_PLACE - gate {
        return None;
    }
    Some(gate + length)
}

/// The greatest place in a file: no file on a machine has more than 2^63 bytes.
const MOST_PLACE: u64 = 1 << 63;

/// Returns what a file holds that was read.
fn loaded(alloc: Global, file: &Bytes) -> Result<Option<LoggedStore>, LoadFault>
    requires { length file.now ≤ most_file }
    ensures loaded { IfOk result (λ loaded. IsLoaded (Some (stored_of (Some file.now))) loaded) }
    ensures large { IsErrOf result LoadFault.TooLarge → IsTooLarge (Some (stored_of (Some file.now))) }
    ensures bad { IfBadLog result (λ place. IsBad (Some (stored_of (Some file.now))) place) }
    ensures sure { IsErrOf result LoadFault.Failed → ⊥ }
{
    if base_length(file.as_slice()) > MOST_BASE {
        return Err(LoadFault::TooLarge);
    }
    match read_log(alloc, file) {
        Ok(held) => Ok(Some(held)),
        Err(LogFault::Bad(place)) => Err(LoadFault::BadLog(place)),
        Err(LogFault::NoMemory) => Err(LoadFault::NoMemory),
    }
}

/// A shelf over a disk of one file, which is a log.
#[derive(Drop)]
pub struct LogShelf<D: LogDisk> {
    disk: D,
    /// How many calls were made of the shelf, at most 2^64 - 1.
    calls: u64,
    /// The place of the last gate, from a `replace` that returns Ok until a call fails.
    gate: Option<u64>,
    /// The record that was written last.
    buffer: Vec<u8>,
    alloc: Global,
    ghost sure: { IsSure (D.seen disk) (D.may_leave disk) gate },
}

impl<D: LogDisk + Drop> LogShelf<D> {
    ghost use Rattle.folder_log.specs.Parts.{disk_of, IsUnused};

    /// A shelf over this disk. Touches nothing. It takes no appends before a `replace`.
    pub fn new(alloc: Global, disk: D) -> LogShelf<D>
        ensures disk { disk_of result ≡ disk }
        ensures unused { IsUnused result }
    {
        LogShelf {
            disk,
            calls: 0,
            gate: None,
            buffer: Vec::new(alloc),
            alloc,
        }
    }

    /// Returns the disk. Takes no memory.
    pub fn disk(&self) -> &D
        ensures { result.now ≡ disk_of self.now }
    {
        &self.disk
    }
}

impl<D: LogDisk + Drop> Shelf for LogShelf<D> {
    ghost use Rattle.folder_log.specs.inner.Parts.{Answers, Fails};
    ghost use Rattle.folder_log.specs.Lengths.{has_base_length};
    ghost use Rattle.folder_log.specs.inner.Lengths.{is_within_log};

    ghost sight = { record {
      held = λ s. stored (D.seen s.disk);
      answers = λ call s t. Answers D.calls call s t;
      fails = λ call s t. Fails D.calls call s t;
      may_leave = λ s h. Leaves (D.may_leave s.disk) h;
      moment = λ s. D.moment s.disk;
      left_since = λ s t h. Leaves (D.left_since s.disk t) h;
    } };

    ghost faults = { λ s. D.faults s.disk };

    ghost takes_appends = { λ s. TakesAppends (D.seen s.disk) (D.may_leave s.disk) s.gate };

    ghost timed = { record {
      counts_now = λ s t h le left. (left.0, D.counts_now s.disk t left.0 le left.1, left.2);
      only_now = λ s h left. (left.0, D.only_now s.disk left.0 left.1, left.2);
    } };

    ghost measured = { record {
      base = λ s. has_base_length (D.seen s.disk);
      file = λ s takes. is_within_log (D.seen s.disk) (D.may_leave s.disk) s.gate takes;
    } };

    /// Syncs, and then reads the file once: O(bytes), in memory for the file, its base and its
    /// changes.
    fn load(&mut self) -> Result<Option<LoggedStore>, LoadFault> {
        self.calls = self.calls.saturating_add(1);
        match self.disk.sync() {
            Ok(()) => {}
            Err(_) => {
                self.gate = None;
                return Err(LoadFault::Failed);
            }
        }
        match self.disk.read() {
            Ok(Some(file)) => loaded(self.alloc, &file),
            Ok(None) => Ok(None),
            Err(DiskFault::Failed) => {
                self.gate = None;
                Err(LoadFault::Failed)
            }
            Err(DiskFault::TooLarge) => Err(LoadFault::TooLarge),
            Err(DiskFault::NoMemory) => Err(LoadFault::NoMemory),
        }
    }

    /// Swaps the file for a log of this base, with a closed gate at its end.
    fn replace(&mut self, bytes: &[u8]) -> Result<(), Failed> {
        self.calls = self.calls.saturating_add(1);
        self.gate = None;
        let head = head_of(bytes.len() as u64);
        self.disk.swap(&head, bytes, &[0])?;
        self.gate = Some(16 + bytes.len() as u64);
        Ok(())
    }

    /// Writes the record and two gates, however long the file is.
    fn append(&mut self, change: &Request) -> Result<(), ShelfStop> {
        self.calls = self.calls.saturating_add(1);
        let Some(gate) = self.gate else {
            unreachable!();
        };
        let Some(end) = prepared(&mut self.buffer, gate, change) else {
            return Err(ShelfStop::NoMemory);
        };
        self.gate = None;
        match open_record(&mut self.disk, gate, self.buffer.as_slice()) {
            Ok(()) => {
                self.gate = Some(end);
                Ok(())
            }
            Err(_) => Err(ShelfStop::Failed),
        }
    }
}
