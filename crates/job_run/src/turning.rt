ghost use Rattle.std.specs.Prelude.{◌≡◌, ◌<◌, ◌≤◌, [], ◌∷◌, ◌++◌, slice_get, Some, IfOk, OnErr, IsSome, true, vec_len, vec_capacity};
ghost use Rattle.job_actor.specs.Acts.{ends_with_path};
ghost use Rattle.job_spec.specs.States.{actors};
ghost use Rattle.job_model.specs.declared.ends.OpEnd.TheVariants.{NoMemory};
ghost use Rattle.job_run.specs.Sending.{hand_end};
ghost use Rattle.job_run.specs.Holds.{Holds, all_sound, all_but, Going, Same, IsOver, is_busy_at, table_of, same_laws};
ghost use Rattle.job_run.specs.inner.Posts.{Around, PostedAt};

use crate::body::Body;
use crate::hands::Hand;
use crate::sending::{actor_at, post_hand};
use job_actor::{Posted, Works, picks_go};
use job_model::{ActorEnd, OpEnd};
use job_states::{Actors, Turn};
use s3_types::{Actor, put};
use std::alloc::AllocError;

/// Adds the end of an operation to the list, which has room for it.
fn tell_end(finished: &mut Vec<ActorEnd>, ended: ActorEnd)
    requires { vec_len finished.old < vec_capacity finished.old }
    ensures items { finished.new.items ≡ finished.old.items ++ ended ∷ [] }
    ensures capacity { vec_capacity finished.old ≤ vec_capacity finished.new }
{
    finished.push_reserved(ended);
}

impl<W: Works> Body<W> {
    /// Sends the request of a busy actor once.
    fn post(&mut self, place: usize, actor: Actor) -> Posted
        requires actor { slice_get (actors self.old.side.script) place ≡ Some actor }
        requires busy { is_busy_at self.old.side.states.actors place ≡ true }
        requires going { Going W.wants W.is_of W.running W.picks_of self.old }
        ensures around { Around place self.old self.new }
        ensures posted { PostedAt W.left W.is_of W.running W.Works.rise W.picks_of place actor self.old self.new
            result }
    {
        W::laws();
        // A journal has fewer than 2^62 entries.
        let _ = self.shared.journal.len();
        let event = self.shared.events + 1;
        let hand = &mut self.side.hands[place];
        post_hand(
            self.shared.alloc,
            &mut self.shared.store,
            &mut self.shared.journal,
            hand,
            actor,
            event,
        )
    }

    /// How the operation of the actor at a place ended, or None while it has more to send. The copy
    /// of the end shares the path in it. Fails with AllocError only if the end has a path.
    pub fn end_at(&self, place: usize) -> Result<Option<OpEnd>, AllocError>
        ensures ok { IfOk result (λ end. end ≡ hand_end W.end_of (slice_get self.now.side.hands.items place)) }
        ensures err { OnErr result (ends_with_path (hand_end W.end_of (slice_get self.now.side.hands.items place)) ≡ true) }
    {
        match self.side.hands.get(place) {
            Some(Hand::At(work)) => work.end(),
            _ => Ok(None),
        }
    }

    /// Ends the operation of a busy actor with this end. Takes no memory.
    pub fn over(&mut self, place: usize, actor: Actor, end: OpEnd)
        requires actor { slice_get (actors self.old.side.script) place ≡ Some actor }
        requires busy { is_busy_at self.old.side.states.actors place ≡ true }
        requires during { IsSome self.old.side.event }
        requires ended { hand_end W.end_of (slice_get self.old.side.hands.items place) ≡ Some end }
        requires room { vec_len self.old.side.finished < vec_capacity self.old.side.finished }
        requires holds { Holds W.is_of W.running W.picks_of all_sound self.old }
        ensures holds { Holds W.is_of W.running W.picks_of all_sound self.new }
        ensures over { IsOver place actor end self.old self.new }
    {
        W::laws();
        picks_go();
        let ended = ActorEnd { actor, end };
        self.side.states.end(&self.side.script, &ended);
        tell_end(&mut self.side.finished, ended);
    }

    /// Ends the operation of a busy actor with NoMemory, whatever it has in hand; the actor is
    /// dead. Takes no memory.
    pub fn die(&mut self, place: usize, actor: Actor)
        requires actor { slice_get (actors self.old.side.script) place ≡ Some actor }
        requires busy { is_busy_at self.old.side.states.actors place ≡ true }
        requires during { IsSome self.old.side.event }
        requires room { vec_len self.old.side.finished < vec_capacity self.old.side.finished }
        requires holds { Holds W.is_of W.running W.picks_of (all_but place) self.old }
        ensures holds { Holds W.is_of W.running W.picks_of all_sound self.new }
        ensures over { IsOver place actor NoMemory self.old self.new }
    {
        picks_go();
        put(&mut self.side.hands[place], Hand::Empty);
        let ended = ActorEnd {
            actor,
            end: OpEnd::NoMemory,
        };
        self.side.states.end(&self.side.script, &ended);
        tell_end(&mut self.side.finished, ended);
    }
}

impl<W: Works> Actors for Body<W> {
    ghost table = { table_of W.left W.Works.rise };

    ghost holds = { Going W.wants W.is_of W.running W.picks_of };

    ghost keeps = { Same };

    ghost laws = { same_laws };

    fn turn(&mut self, place: usize) -> Turn {
        let actor = actor_at(&self.side.script, place);
        match self.post(place, actor) {
            Posted::Unsent => {
                self.die(place, actor);
                Turn::Died
            }
            Posted::Broken => {
                self.die(place, actor);
                Turn::Ended
            }
            Posted::Heard => match self.end_at(place) {
                Err(_) => {
                    self.die(place, actor);
                    Turn::Ended
                }
                Ok(None) => Turn::GoesOn,
                Ok(Some(end)) => {
                    self.over(place, actor, end);
                    Turn::Ended
                }
            },
        }
    }
}
