ghost use Rattle.std.specs.Prelude.{◌≡◌, ◌∷◌, [], ◌++◌, Some, None, IfOk, OnOk, OnErr, IsErrOf, true, false};
ghost use Rattle.std.specs.Option.{option_copied};
ghost use Rattle.devices.specs.Calls as calls_of;
ghost use Rattle.devices.specs.Calls.{unused};
ghost use Rattle.devices.specs.Logged.{IsLoaded, IsTooLarge};
ghost use Rattle.devices.specs.Causes.{IfBadLog};
ghost use Rattle.devices.specs.Memory.{stock, stock_measured, stock_within};

use super::{LoadFault, LoggedStore, MOST_BASE, RequestList, Shelf, ShelfStop};
use crate::calls::Calls;
use crate::device::{CallList, Failed};
use s3_types::{Bytes, Request, Sequence};
use std::alloc::{AllocError, Global};
use std::marker::Model;

/// Returns a copy of the changes that shares their bytes.
fn copied_changes(alloc: Global, changes: &[Request]) -> Result<RequestList, AllocError>
    ensures { IfOk result (λ copy. copy ≡ changes.now) }
{
    let mut copy = Sequence::new(alloc);
    for change in changes {
        copy.push(change.copied(alloc)?)?;
    }
    Ok(copy)
}

fn copied_held(alloc: Global, held: &LoggedStore) -> Result<LoggedStore, AllocError>
    ensures { IfOk result (λ copy. copy ≡ held.now) }
{
    let base = held.base.clone()?;
    let changes = copied_changes(alloc, held.changes.as_slice())?;
    Ok(LoggedStore { base, changes })
}

/// Returns what the shelf holds, sharing its bytes.
fn loaded(alloc: Global, held: &Option<LoggedStore>) -> Result<Option<LoggedStore>, LoadFault>
    ensures loaded { IfOk result (λ loaded. IsLoaded (Some (stock held.now)) loaded) }
    ensures large { IsErrOf result LoadFault.TooLarge → IsTooLarge (Some (stock held.now)) }
    ensures never { IfBadLog result (λ place. ⊥) }
    ensures sure { IsErrOf result LoadFault.Failed → ⊥ }
{
    let Some(held) = held else {
        return Ok(None);
    };
    if held.base.as_slice().len() as u64 > MOST_BASE {
        return Err(LoadFault::TooLarge);
    }
    match copied_held(alloc, held) {
        Ok(copy) => Ok(Some(copy)),
        Err(_) => Err(LoadFault::NoMemory),
    }
}

/// Returns a base without changes.
fn fresh(alloc: Global, bytes: &[u8]) -> Result<LoggedStore, AllocError>
    ensures { IfOk result (λ held. held ≡ record { base = bytes.now; changes = [] }) }
{
    Ok(LoggedStore {
        base: Bytes::from_slice(alloc, bytes)?,
        changes: Sequence::new(alloc),
    })
}

/// Adds a copy of a change.
fn grow(alloc: Global, held: &mut LoggedStore, change: &Request) -> Result<(), AllocError>
    ensures ok { OnOk result (held.new ≡ record {
      base = held.old.base;
      changes = held.old.changes ++ change.now ∷ [];
    }) }
    ensures err { OnErr result (held.new ≡ held.old) }
{
    let copy = change.copied(alloc)?;
    held.changes.push(copy)
}

/// A shelf in memory that takes changes. The calls that are named fail. It does not say what a
/// crash leaves.
#[derive(Drop)]
pub struct MemShelf {
    held: Option<LoggedStore>,
    takes: bool,
    calls: Calls,
    alloc: Global,
}

impl Model for MemShelf {
    ghost use Rattle.std.specs.Prelude.{◌≡◌, is_some, true};
    ghost use Rattle.devices.specs.Memory.{Stocked};

    ghost Value = { Stocked };

    ghost view = { λ s. record { held = s.held; takes = s.takes; calls = s.calls } };

    ghost invariant = { λ s. s.takes ≡ true → is_some s.held ≡ true };
}

impl MemShelf {
    /// A shelf that holds this, and takes no appends before a `replace`. Takes no memory.
    pub fn new(alloc: Global, held: Option<LoggedStore>, fail: CallList) -> MemShelf
        ensures { result ≡ record { held = held; takes = false; calls = unused fail None } }
    {
        MemShelf {
            held,
            takes: false,
            calls: Calls::new(fail, None),
            alloc,
        }
    }

    /// Returns what the shelf holds. Takes no memory.
    pub fn held(&self) -> Option<&LoggedStore>
        ensures { option_copied result ≡ self.now.held }
    {
        self.held.as_ref()
    }
}

impl Shelf for MemShelf {
    ghost sight = { record {
      held = λ s. Some (stock s.held);
      answers = λ call s t. calls_of.Answers s.calls t.calls;
      fails = λ call s t. calls_of.Fails s.calls t.calls × (t.takes ≡ false);
      may_leave = λ s h. ⊥;
      moment = λ s. 0;
      left_since = λ s t h. ⊥;
    } };

    ghost faults = { λ s. s.calls.faults };

    ghost takes_appends = { λ s. s.takes ≡ true };

    ghost timed = { record { counts_now = λ s t h le left. left; only_now = λ s h left. left } };

    ghost measured = { record { base = λ s. stock_measured s.held; file = λ s takes. stock_within s.held } };

    fn load(&mut self) -> Result<Option<LoggedStore>, LoadFault> {
        match self.calls.next() {
            Ok(()) => loaded(self.alloc, &self.held),
            Err(_) => {
                self.takes = false;
                Err(LoadFault::Failed)
            }
        }
    }

    /// Counts as a fault if memory runs out.
    fn replace(&mut self, bytes: &[u8]) -> Result<(), Failed> {
        match self.calls.next() {
            Ok(()) => {}
            Err(_) => {
                self.takes = false;
                return Err(Failed);
            }
        }
        match fresh(self.alloc, bytes) {
            Ok(held) => {
                self.held = Some(held);
                self.takes = true;
                Ok(())
            }
            Err(_) => {
                self.takes = false;
                Err(self.calls.starve())
            }
        }
    }

    fn append(&mut self, change: &Request) -> Result<(), ShelfStop> {
        match self.calls.next() {
            Ok(()) => {}
            Err(_) => {
                self.takes = false;
                return Err(ShelfStop::Failed);
            }
        }
        let Some(held) = &mut self.held else {
            unreachable!();
        };
        match grow(self.alloc, held, change) {
            Ok(()) => Ok(()),
            Err(_) => Err(ShelfStop::NoMemory),
        }
    }
}
