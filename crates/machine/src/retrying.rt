ghost use Rattle.std.specs.Prelude.{◌≡◌, ◌≤◌, false, Option, IfOk, OnOk, OnErr, IsSome};
ghost use Rattle.std.specs.Option.{option_copied};
ghost use Rattle.retries.specs.Retries.{fresh, step, unanswered, is_zero};
ghost use Rattle.machine.specs.Turns.{retried, broken, turn_of, turn_if, tells_worn, FitsOutcome};

use crate::operation::Machine;
use s3_types::{Outcome, Request};
use std::alloc::AllocError;

/// A machine whose requests are sent again if no answer came. Each is sent at most `retries + 1`
/// times. SlowDown is no answer, but a later send after it does not count as repeated.
#[derive(Drop)]
pub struct Retrying<M> {
    pub machine: M,
    /// How many times a request may be sent again.
    pub retries: u32,
    /// How many times the present request may still be sent again.
    pub spare: u32,
    /// Whether an earlier send of the present request was lost.
    pub repeated: bool,
}

/// What an outcome means for a machine.
#[derive(Clone, Copy, PartialEq, Eq)]
pub enum Turn {
    /// There was no answer, and the request is sent again.
    Again,
    /// There was an answer.
    Moved,
    /// There was no answer, and the request is not sent again.
    WornOut,
}

impl<M: Machine> Retrying<M> {
    /// A machine before anything was sent. Takes no memory.
    pub fn new(machine: M, retries: u32) -> Retrying<M>
        ensures unsent { retried result ≡ fresh retries machine }
        ensures retries { result.retries ≡ retries }
    {
        Retrying {
            machine,
            retries,
            spare: retries,
            repeated: false,
        }
    }

    /// Returns the machine's present request. Takes no memory.
    pub fn request(&self) -> Option<&Request>
        ensures { option_copied result ≡ M.wants self.now.machine }
    {
        self.machine.request()
    }

    /// Takes the outcome of a send of the present request. If memory runs out, there is no next
    /// request, and the counts here are as before.
    pub fn take(&mut self, outcome: &Outcome) -> Result<Turn, AllocError>
        requires asked { IsSome (M.wants self.old.machine) }
        requires fits { FitsOutcome M.fits self.old outcome.now }
        ensures ok { OnOk result (retried self.new ≡ step self.old.retries M.after (retried self.old) outcome.now) }
        ensures turn { IfOk result (λ turn. turn ≡ turn_of (retried self.old) outcome.now) }
        ensures err { OnErr result (retried self.new ≡ broken M.after (retried self.old)) }
        ensures retries { self.new.retries ≡ self.old.retries }
    {
        match outcome {
            Outcome::Answered(reply) => {
                self.machine.take(reply, self.repeated)?;
                self.spare = self.retries;
                self.repeated = false;
                Ok(Turn::Moved)
            }
            Outcome::Slow => self.unanswered(self.repeated),
            Outcome::RequestLost | Outcome::ReplyLost => self.unanswered(true),
        }
    }

    fn unanswered(&mut self, repeated: bool) -> Result<Turn, AllocError>
        requires asked { IsSome (M.wants self.old.machine) }
        ensures ok { OnOk result (retried self.new ≡ unanswered self.old.retries M.after (retried self.old) repeated) }
        ensures turn { IfOk result (λ turn. turn ≡ turn_if false (is_zero self.old.spare)) }
        ensures err { OnErr result (retried self.new ≡ broken M.after (retried self.old)) }
        ensures retries { self.new.retries ≡ self.old.retries }
    {
        if self.spare == 0 {
            self.machine.worn()?;
            self.spare = self.retries;
            self.repeated = false;
            Ok(Turn::WornOut)
        } else {
            self.spare -= 1;
            self.repeated = repeated;
            Ok(Turn::Again)
        }
    }
}

impl<M> Retrying<M> {
    /// Returns the machine. Takes no memory.
    pub fn machine(&self) -> &M
        ensures { result.now ≡ self.now.machine }
    {
        &self.machine
    }

    /// Gives the machine back. Takes no memory.
    pub fn into_inner(self) -> M
        ensures { result ≡ self.machine }
    {
        self.machine
    }
}

impl Turn {
    /// Whether a request exhausted its retries.
    pub fn is_worn(self) -> bool
        ensures { result ≡ tells_worn self }
    {
        matches!(self, Turn::WornOut)
    }
}
