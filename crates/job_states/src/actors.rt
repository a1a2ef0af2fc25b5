ghost use Rattle.std.specs.Prelude.{◌≡◌, ℕ, ◌<◌, true};
ghost use Rattle.job_states.specs.Turning.{Table, Turned, KeepsLaws};

/// The result of an actor's turn.
#[derive(Clone, Copy, PartialEq, Eq)]
pub enum Turn {
    /// The actor sent a request, and has more to send.
    GoesOn,
    /// The actor sent a request, and its operation ended with that.
    Ended,
    /// Memory ran out before the actor could send, and its operation ended so.
    Died,
}

/// Actors at numbered places. Some of them run an operation.
pub trait Actors {
    /// The part of their state that turns depend on.
    ghost table: { Self → Table };

    /// The invariant of the actors during an event.
    ghost holds: { Self → Type 0 };

    /// The relation that every turn keeps.
    ghost keeps: { Self → Self → Type 0 };

    /// One turn of the actor at a place.
    fn turn(&mut self, place: usize) -> Turn
        requires holds { holds self.old }
        requires going { (table self.old).goes_on place ≡ true }
        requires room { 0 < (table self.old).room }
        ensures holds { holds self.new }
        ensures keeps { keeps self.old self.new }
        ensures turned { Turned place (table self.old) (table self.new) result };

    ghost laws: { KeepsLaws keeps };
}
