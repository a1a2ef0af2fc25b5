ghost use Rattle.std.specs.Prelude.{◌≡◌, ◌≤◌, length, Some, IfSome, IsSome};
ghost use Rattle.machine.specs.Counted.{Counted};
ghost use Rattle.job_actor.specs.Posting.{PostedBy, DueFits, sight};

use crate::acts::Acts;
use machine::write_down;
use s3_types::{Actor, Journal, ObjectStore, Request, let_go};
use std::alloc::Global;

/// What became of one send.
#[derive(Clone, Copy, PartialEq, Eq)]
pub enum Posted {
    /// Memory ran out before the send: nothing was sent, and nothing has changed.
    Unsent,
    /// The request was sent and its entry is in the journal. Memory ran out when the operation
    /// received the outcome, so the operation has ended.
    Broken,
    /// The request was sent, its entry is in the journal, and the operation received the outcome.
    Heard,
}

/// A copy of the asked request, which shares its bytes, or None if memory runs out.
fn asked<A: Acts>(alloc: Global, act: &A) -> Option<Request>
    requires { IsSome (A.wants act.now) }
    ensures { IfSome result (λ request. A.wants act.now ≡ Some request) }
{
    match act.request() {
        Some(request) => request.copied(alloc).ok(),
        None => None,
    }
}

/// Sends the asked request once, appends its entry, and tells the operation the outcome. It takes
/// the entry's place before it sends. The operation accepts each outcome that the store may give.
pub fn post<A: Acts, S: ObjectStore>(
    alloc: Global,
    store: &mut S,
    journal: &mut Journal,
    act: &mut A,
    actor: Actor,
    event: u32,
) -> Posted
    requires asked { IsSome (A.wants act.old) }
    requires due { DueFits A.wants A.fits act.old (S.scene store.old) }
    requires counted { S.requests store.old ≤ length journal.old.entries }
    ensures posted { PostedBy A.wants A.tells A.end_of actor event act.old act.new
        (sight (S.scene store.old) (S.requests store.old) (S.foretold store.old) journal.old.entries)
        (sight (S.scene store.new) (S.requests store.new) (S.foretold store.new) journal.new.entries) result }
    ensures counts { Counted journal.old.entries journal.new.entries (S.requests store.old) (S.requests store.new)
        (S.losses store.old) (S.losses store.new) (S.foretold store.old) (S.foretold store.new) }
{
    let Some(request) = asked(alloc, act) else {
        return Posted::Unsent;
    };
    match journal.reserve() {
        Ok(()) => {}
        Err(_) => {
            let_go(request);
            return Posted::Unsent;
        }
    }
    let outcome = match store.request(&request) {
        Ok(outcome) => outcome,
        Err(_) => {
            let_go(request);
            return Posted::Unsent;
        }
    };
    let told = act.tell(&outcome);
    write_down(journal, event, actor, request, outcome);
    match told {
        Ok(()) => Posted::Heard,
        Err(_) => Posted::Broken,
    }
}
