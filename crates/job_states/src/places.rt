ghost use Rattle.std.specs.Prelude.{◌≡◌, map, slice_get, true, false};
ghost use Rattle.s3_types.specs.declared.request.Actor.{Actor};
ghost use Rattle.job_model.specs.Attempts.{is_known};
ghost use Rattle.job_spec.specs.States.{actors};
ghost use Rattle.job_states.specs.declared.standing.Standing.{Standing};
ghost use Rattle.job_states.specs.inner.Standing.{fresh};
ghost use Rattle.job_states.specs.Stands.{IsPlace};
ghost use Rattle.job_states.specs.inner.Stands.{ChangesAt};

use crate::standing::{FRESH, Standing};
use job_model::{AttemptName, Script};
use s3_types::Actor;

/// The place of an actor: 0 for the driver, then the attempts in script order. None if the actor
/// does not belong to the job. Takes O(1) and no memory.
pub fn place_of(script: &Script, actor: Actor) -> Option<usize>
    ensures { IsPlace script.now actor result }
{
    match actor {
        Actor::Driver => Some(0),
        Actor::Attempt { task, attempt } => {
            let name = AttemptName { task, attempt };
            match script.attempts.held().get_index_of(&name) {
                Some(index) => Some(index + 1),
                None => None,
            }
        }
        Actor::Shell => None,
    }
}

/// The actor at a place, or none. Takes no memory.
pub fn actor_at(script: &Script, place: usize) -> Option<Actor>
    ensures { result ≡ slice_get (actors script.now) place }
{
    if place == 0 {
        return Some(Actor::Driver);
    }
    match script.attempts.held().get_index(place - 1) {
        Some((name, _)) => {
            let AttemptName { task, attempt } = *name;
            Some(Actor::Attempt { task, attempt })
        }
        None => None,
    }
}

/// The standing of an actor. An actor that does not belong to the job has begun nothing. Takes no
/// memory.
pub fn standing_of(standings: &[Standing], script: &Script, actor: Actor) -> Standing
    ensures known { (f : Actor → Standing) → standings.now ≡ map f (actors script.now)
        → is_known script.now.attempts actor ≡ true → result ≡ f actor }
    ensures unknown { is_known script.now.attempts actor ≡ false → result ≡ fresh }
{
    let Some(place) = place_of(script, actor) else {
        return FRESH;
    };
    match standings.get(place) {
        Some(standing) => *standing,
        None => FRESH,
    }
}

/// Stores the standing of an actor, if it belongs to the job. Takes no memory.
pub fn put_standing(
    standings: &mut Vec<Standing>,
    script: &Script,
    actor: Actor,
    standing: Standing,
)
    ensures { (f g : Actor → Standing) → standings.old.items ≡ map f (actors script.now)
        → ChangesAt script.now actor standing f g
        → standings.new.items ≡ map g (actors script.now) }
{
    match place_of(script, actor) {
        Some(place) => {
            if place < standings.len() {
                standings[place] = standing;
            }
        }
        None => {}
    }
}
