ghost use Rattle.std.specs.Prelude.{◌≡◌, ℕ, ◌+◌, ◌^◌, ◌<◌, ◌≤◌, [], ◌∷◌, ◌++◌, length, OnOk, OnErr, IfOk};
ghost use Rattle.machine.specs.Counted.{Counted};
ghost use Rattle.machine.specs.Drove.{Drove, DueFits, Sent, SentNone};

use crate::operation::Machine;
use crate::retrying::{Retrying, Turn};
use s3_types::{Actor, Entry, Journal, ObjectStore, Outcome, Request, let_go};
use std::alloc::{AllocError, Global};

/// Why driving ended early.
#[derive(Clone, Copy, Debug, PartialEq, Eq)]
pub enum DriveStop {
    /// A request exhausted its retries.
    StoreFault,
    NoMemory,
}

/// Appends the entry of a send, for which there is room. Takes no memory.
pub fn write_down(
    journal: &mut Journal,
    event: u32,
    actor: Actor,
    request: Request,
    outcome: Outcome,
)
    requires room { 0 < journal.old.room }
    requires few { length journal.old.entries + 1 < 2 ^ 62 }
    ensures { journal.new.entries ≡ journal.old.entries ++ record {
      event = event;
      actor = actor;
      request = request;
      outcome = outcome;
    } ∷ [] }
{
    journal.push(Entry {
        event,
        actor,
        request,
        outcome,
    });
}

/// Sends the present request once, if there is one, and appends its entry. The place of the entry
/// is reserved before the send. The answer that the store gives must fit. If memory runs out
/// before the send, the store, the journal and the machine are as before. If it runs out later,
/// the entry is there and the machine has no next request.
pub fn send<M: Machine, S: ObjectStore>(
    alloc: Global,
    store: &mut S,
    journal: &mut Journal,
    machine: &mut Retrying<M>,
    actor: Actor,
    event: u32,
) -> Result<Option<Turn>, AllocError>
    requires due { DueFits M.wants M.fits machine.old (S.scene store.old) }
    requires counted { S.requests store.old ≤ length journal.old.entries }
    ensures sent { IfOk result (λ turn. Sent M.wants M.after actor event machine.old machine.new (S.scene store.old)
        (S.scene store.new) journal.old.entries journal.new.entries (S.losses store.old) (S.losses store.new)
        (S.foretold store.old) (S.requests store.old) (S.requests store.new) turn) }
    ensures counts { Counted journal.old.entries journal.new.entries (S.requests store.old) (S.requests store.new)
        (S.losses store.old) (S.losses store.new) (S.foretold store.old) (S.foretold store.new) }
    ensures err { OnErr result (SentNone M.wants M.after actor event machine.old machine.new (S.scene store.old)
        (S.scene store.new)
        journal.old.entries journal.new.entries (S.foretold store.old) (S.requests store.old)) }
{
    let request = match machine.request() {
        None => return Ok(None),
        Some(request) => request.copied(alloc)?,
    };
    if let Err(error) = journal.reserve() {
        let_go(request);
        return Err(error);
    }
    let outcome = match store.request(&request) {
        Ok(outcome) => outcome,
        Err(error) => {
            let_go(request);
            return Err(error);
        }
    };
    let turn = machine.take(&outcome);
    write_down(journal, event, actor, request, outcome);
    Ok(Some(turn?))
}

/// Drives a machine that is alone until it has no next request. It appends one entry for each
/// send. It sends each request at most `retries + 1` times. It fails with StoreFault exactly if a
/// request exhausted its retries: `retries + 1` sends of it in a row got no answer. If no send of
/// the present request came before, the new entries alone decide that.
pub fn drive<M: Machine, S: ObjectStore>(
    alloc: Global,
    machine: &mut Retrying<M>,
    store: &mut S,
    actor: Actor,
    event: u32,
    journal: &mut Journal,
) -> Result<(), DriveStop>
    requires ready { M.ready machine.old.machine (S.scene store.old) machine.old.repeated }
    requires counted { S.requests store.old ≤ length journal.old.entries }
    ensures drove { Drove M.wants M.after M.ready M.standing actor event machine.old machine.new (S.scene store.old)
        (S.scene store.new) journal.old.entries journal.new.entries (S.losses store.old) (S.losses store.new)
        (S.foretold store.old) (S.requests store.old) result }
    ensures counts { Counted journal.old.entries journal.new.entries (S.requests store.old) (S.requests store.new)
        (S.losses store.old) (S.losses store.new) (S.foretold store.old) (S.foretold store.new) }
{
    let mut worn = false;
    'sending: loop {
        M::laws();
        match send(alloc, store, journal, machine, actor, event) {
            Err(_) => return Err(DriveStop::NoMemory),
            Ok(None) => break,
            Ok(Some(turn)) => worn |= turn.is_worn(),
        }
    }
    if worn {
        Err(DriveStop::StoreFault)
    } else {
        Ok(())
    }
}
