ghost use Rattle.std.specs.Prelude.{◌≡◌, ◌<◌, true};
ghost use Rattle.job_states.specs.Turning.{Ran, Stepped};

use crate::actors::{Actors, Turn};

/// Gives the actor at a place turns until its operation ends.
pub fn run<A: Actors>(actors: &mut A, place: usize)
    requires holds { A.holds actors.old }
    requires going { (A.table actors.old).goes_on place ≡ true }
    requires room { 0 < (A.table actors.old).room }
    ensures holds { A.holds actors.new }
    ensures keeps { A.keeps actors.old actors.new }
    ensures ran { Ran place (A.table actors.old) (A.table actors.new) }
{
    'turns: loop {
        match actors.turn(place) {
            Turn::GoesOn => {}
            Turn::Ended => return,
            Turn::Died => return,
        }
    }
}

/// Gives the actor at a place at most `count` turns. Returns true if its operation goes on.
pub fn step<A: Actors>(actors: &mut A, place: usize, count: u32) -> bool
    requires holds { A.holds actors.old }
    requires going { (A.table actors.old).goes_on place ≡ true }
    requires room { 0 < (A.table actors.old).room }
    ensures holds { A.holds actors.new }
    ensures keeps { A.keeps actors.old actors.new }
    ensures stepped { Stepped place count (A.table actors.old) (A.table actors.new) result }
{
    let mut sent = 0;
    'turns: while sent < count {
        match actors.turn(place) {
            Turn::GoesOn => sent += 1,
            Turn::Ended => return false,
            Turn::Died => return false,
        }
    }
    true
}
