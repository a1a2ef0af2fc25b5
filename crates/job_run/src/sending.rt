ghost use Rattle.std.specs.Prelude.{◌≡◌, ℕ, ◌<◌, ◌≤◌, length, slice_get, Some};
ghost use Rattle.job_spec.specs.States.{actors};
ghost use Rattle.job_actor.specs.Posting.{sight};
ghost use Rattle.job_run.specs.Sending.{Asks};
ghost use Rattle.job_run.specs.inner.Sending.{HandDue, HandPosted};

use crate::hands::Hand;
use job_actor::{Acts, Posted, post};
use job_model::Script;
use s3_types::{Actor, Journal, ObjectStore};
use std::alloc::Global;

/// The actor at a place: the driver at 0, then the attempts in script order.
pub fn actor_at(script: &Script, place: usize) -> Actor
    requires { place < length (actors script.now) }
    ensures { slice_get (actors script.now) place ≡ Some result }
{
    match job_states::actor_at(script, place) {
        Some(actor) => actor,
        None => Actor::Shell,
    }
}

/// Sends the request of the operation in hand once, and reports the outcome to it.
pub fn post_hand<W: Acts, S: ObjectStore>(
    alloc: Global,
    store: &mut S,
    journal: &mut Journal,
    hand: &mut Hand<W>,
    actor: Actor,
    event: u32,
) -> Posted
    requires asked { Asks W.wants hand.old }
    requires due { HandDue W.wants W.fits hand.old (S.scene store.old) }
    requires counted { S.requests store.old ≤ length journal.old.entries }
    ensures posted { HandPosted W.wants W.tells W.end_of actor event hand.old hand.new
        (sight (S.scene store.old) (S.requests store.old) (S.foretold store.old) journal.old.entries)
        (sight (S.scene store.new) (S.requests store.new) (S.foretold store.new) journal.new.entries) result }
    ensures foretold { (n : ℕ) → S.foretold store.new n ≡ S.foretold store.old n }
{
    match hand {
        Hand::At(work) => post(alloc, store, journal, work, actor, event),
        _ => Posted::Unsent,
    }
}
