ghost use Rattle.std.specs.Prelude.{◌≡◌, ℕ, List, [], ◌∷◌, ◌++◌, length, Some, IfOk, OnOk, OnErr};
ghost use Rattle.devices.specs.Calls as told;
ghost use Rattle.folder_log.specs.Disk.{IsWithin};
ghost use Rattle.folder_log.specs.Calls.{IsImage, LeftSince, left_by, state_in};
ghost use Rattle.folder_log.specs.inner.Calls.{recorded};
ghost use Rattle.folder_log.specs.declared.state.DiskCall.TheVariants as made;
ghost use Rattle.folder_log.specs.Images.{counted, only_last, shows_image};

use crate::disk::{DiskFault, LogDisk};
use crate::state::{
    Choice, DiskCall, Span, State, at_rest, joined, read_of, shared, torn_file, written,
};
use devices::{CallList, Calls, Failed};
use s3_types::{Bytes, Sequence};
use std::alloc::{AllocError, Global};
use std::marker::Model;

/// A disk in memory. The calls that are named fail, and every call after the first `stop`. It
/// records its calls, and says from them what a crash at any point may have left.
#[derive(Drop)]
pub struct MemDisk {
    first: Option<Bytes>,
    calls: Sequence<DiskCall>,
    last: Option<State>,
    turns: Calls,
    alloc: Global,
}

impl Model for MemDisk {
    ghost use Rattle.std.specs.Prelude.{◌≡◌};
    ghost use Rattle.folder_log.specs.Calls.{Recorded, state_of};
    ghost use Rattle.folder_log.specs.inner.Calls.{last_of};

    ghost Value = { Recorded };

    ghost view = { λ d. record { first = d.first; calls = d.calls; turns = d.turns } };

    ghost invariant = { λ d. last_of d.last d.first ≡ state_of d.first d.calls };
}

/// Adds a call, and the state after it.
fn keep(
    calls: &mut Sequence<DiskCall>,
    last: &mut Option<State>,
    call: DiskCall,
    next: State,
) -> Result<(), AllocError>
    ensures calls { OnOk result (calls.new ≡ calls.old ++ call ∷ []) }
    ensures last { OnOk result (last.new ≡ Some next) }
    ensures same_calls { OnErr result (calls.new ≡ calls.old) }
    ensures same_last { OnErr result (last.new ≡ last.old) }
{
    match calls.push(call) {
        Ok(()) => {
            *last = Some(next);
            Ok(())
        }
        Err(error) => Err(error),
    }
}

impl MemDisk {
    /// A disk with this file, all of it on the disk. Takes no memory.
    pub fn new(alloc: Global, bytes: Option<Bytes>, fail: CallList, stop: Option<u64>) -> MemDisk
        ensures { result ≡ record { first = bytes; calls = []; turns = told.unused fail stop } }
    {
        MemDisk {
            first: bytes,
            calls: Sequence::new(alloc),
            last: None,
            turns: Calls::new(fail, stop),
            alloc,
        }
    }

    /// Returns how many calls were made, at most 2^64 - 1. Takes no memory.
    pub fn calls_made(&self) -> u64
        ensures { result ≡ self.now.turns.made }
    {
        self.turns.made
    }

    /// Returns the file that a crash now leaves, for a choice of what becomes of the ranges that
    /// were not synced. Fails only if memory runs out.
    pub fn crash(&self, choice: Choice) -> Result<Option<Bytes>, AllocError>
        ensures exact { IfOk result (λ file. file ≡ left_by choice (state_in self.now)) }
        ensures allowed { IfOk result (λ file. IsImage (state_in self.now) file) }
    {
        match choice {
            Choice::Lost => shared(self.synced()),
            Choice::Kept => shared(self.current()),
            Choice::Torn(byte) => torn_file(self.alloc, self.synced(), self.unsynced(), byte),
        }
    }

    /// Returns the file that is on the disk for sure.
    fn synced(&self) -> &Option<Bytes>
        ensures { result.now ≡ (state_in self.now).synced }
    {
        match &self.last {
            Some(state) => &state.synced,
            None => &self.first,
        }
    }

    /// Returns the file that a read gives.
    fn current(&self) -> &Option<Bytes>
        ensures { result.now ≡ (state_in self.now).now }
    {
        match &self.last {
            Some(state) => &state.now,
            None => &self.first,
        }
    }

    /// Returns the ranges that were written since the last sync.
    fn unsynced(&self) -> &[Span]
        ensures { result.now ≡ (state_in self.now).ranges }
    {
        match &self.last {
            Some(state) => state.ranges.as_slice(),
            None => &[],
        }
    }

    fn swapped(&mut self, head: &[u8], body: &[u8], tail: &[u8]) -> Result<(), AllocError>
        ensures ok { OnOk result (self.new ≡ recorded self.old (made.Swap (head.now ++ (body.now ++ tail.now)))) }
        ensures err { OnErr result (self.new ≡ self.old) }
    {
        let all = joined(self.alloc, head, body, tail)?;
        let copy = all.clone()?;
        let next = at_rest(self.alloc, Some(all))?;
        keep(&mut self.calls, &mut self.last, DiskCall::Swap(copy), next)
    }

    fn written(&mut self, place: u64, bytes: &[u8]) -> Result<(), AllocError>
        requires within { IsWithin place (Some (state_in self.old).now) }
        ensures ok { OnOk result (self.new ≡ recorded self.old (made.Write place bytes.now)) }
        ensures err { OnErr result (self.new ≡ self.old) }
    {
        let copy = Bytes::from_slice(self.alloc, bytes)?;
        let next = written(
            self.alloc,
            self.synced(),
            self.current(),
            self.unsynced(),
            place,
            bytes,
        )?;
        let call = DiskCall::Write { place, bytes: copy };
        keep(&mut self.calls, &mut self.last, call, next)
    }

    fn sync_now(&mut self) -> Result<(), AllocError>
        ensures ok { OnOk result (self.new ≡ recorded self.old made.Sync) }
        ensures err { OnErr result (self.new ≡ self.old) }
    {
        let file = shared(self.current())?;
        let next = at_rest(self.alloc, file)?;
        keep(&mut self.calls, &mut self.last, DiskCall::Sync, next)
    }
}

impl LogDisk for MemDisk {
    ghost seen = { λ d. Some (state_in d).now };

    ghost may_leave = { λ d c. IsImage (state_in d) c };

    ghost moment = { λ d. length d.calls };

    ghost left_since = { λ d t c. LeftSince d.first d.calls t c };

    ghost calls = { λ d. d.turns.made };

    ghost faults = { λ d. d.turns.faults };

    ghost answers = { λ d e. told.Answers d.turns e.turns };

    ghost fails = { λ d e. told.Fails d.turns e.turns };

    ghost counts_now = { λ d t c le image. counted d.first d.calls t c le image };

    ghost only_now = { λ d c left. only_last d.first d.calls c left };

    ghost shows = { λ d c is. shows_image d c is };

    fn read(&mut self) -> Result<Option<Bytes>, DiskFault> {
        match self.turns.next() {
            Ok(()) => read_of(self.current()),
            Err(_) => Err(DiskFault::Failed),
        }
    }

    /// Counts as a fault if memory runs out.
    fn swap(&mut self, head: &[u8], body: &[u8], tail: &[u8]) -> Result<(), Failed> {
        self.turns.next()?;
        match self.swapped(head, body, tail) {
            Ok(()) => Ok(()),
            Err(_) => Err(self.turns.starve()),
        }
    }

    /// Counts as a fault if memory runs out.
    fn write_at(&mut self, place: u64, bytes: &[u8]) -> Result<(), Failed> {
        self.turns.next()?;
        match self.written(place, bytes) {
            Ok(()) => Ok(()),
            Err(_) => Err(self.turns.starve()),
        }
    }

    /// Counts as a fault if memory runs out.
    fn sync(&mut self) -> Result<(), Failed> {
        self.turns.next()?;
        match self.sync_now() {
            Ok(()) => Ok(()),
            Err(_) => Err(self.turns.starve()),
        }
    }
}
