ghost use Rattle.std.specs.Prelude.{◌≡◌, ◌≤◌, length};
ghost use Rattle.job_states.specs.Mixes.{AreApart, AreGoing, Mixed};

use crate::actors::{Actors, Turn};

/// Gives one turn after another to one of the busy actors, as the seed decides, until none is busy.
/// `busy` has their places, in the order in which the seed counts them. O(1) a turn, and O(n) for
/// each actor whose operation ends.
pub fn mix<A: Actors>(actors: &mut A, seed: u32, busy: Vec<usize>)
    requires holds { A.holds actors.old }
    requires apart { AreApart busy.items }
    requires going { AreGoing (A.table actors.old) busy.items }
    requires room { length busy.items ≤ (A.table actors.old).room }
    ensures holds { A.holds actors.new }
    ensures keeps { A.keeps actors.old actors.new }
    ensures mixed { Mixed seed busy.items (A.table actors.old) (A.table actors.new) }
{
    let mut busy = busy;
    let mut drawn = u64::from(seed) % 2147483648;
    'mixing: while !busy.is_empty() {
        let next = (1103515245 * drawn + 12345) % 2147483648;
        let chosen = (next / 65536) as usize % busy.len();
        match actors.turn(busy[chosen]) {
            Turn::GoesOn => drawn = next,
            Turn::Ended => {
                drawn = next;
                let _ = busy.remove(chosen);
            }
            Turn::Died => {
                let _ = busy.remove(chosen);
            }
        }
    }
}
