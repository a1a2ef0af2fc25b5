ghost use Rattle.std.specs.Prelude.{◌≡◌, ℕ, Option, IfOk, OnOk, OnErr, IsSome, is_some, true};
ghost use Rattle.std.specs.Option.{option_copied};
ghost use Rattle.s3_types.specs.Store.{Scene};
ghost use Rattle.s3_types.specs.declared.request.Request.{Request};
ghost use Rattle.s3_types.specs.declared.journal.Outcome.{Outcome};
ghost use Rattle.job_model.specs.declared.ends.OpEnd.{OpEnd};
ghost use Rattle.job_actor.specs.Acts.{ActLaws, EndsWanting, ends_with_path};

use job_model::OpEnd;
use s3_types::{Outcome, Request};
use std::alloc::AllocError;

/// An operation that an actor is running. It asks one request after another, each by the outcomes
/// so far. The asked request stays the same until `tell`.
pub trait Acts: Drop {
    /// The request that it asks, or None if it has ended.
    ghost wants: { Self → Option Request };

    /// The operation after the outcome of a send of that request.
    ghost tells: { Self → Outcome → Self };

    /// Whether the operation accepts this outcome.
    ghost fits: { Self → Outcome → Type 0 };

    /// How it ended, or None if it has not.
    ghost end_of: { Self → Option OpEnd };

    /// An upper bound on the sends that it has left, if nobody else sends.
    ghost left: { Self → Scene → ℕ };

    /// An upper bound on how much this request of another actor raises that number.
    ghost rise: { Self → Request → ℕ };

    /// The request that it asks, or None if it has ended. Takes no memory.
    fn request(&self) -> Option<&Request>
        ensures { option_copied result ≡ wants self.now };

    /// Takes the outcome of a send of its request. Fails with AllocError if memory runs out; then
    /// it asks no more and has ended with that.
    fn tell(&mut self, outcome: &Outcome) -> Result<(), AllocError>
        requires asked { IsSome (wants self.old) }
        requires fits { fits self.old outcome.now }
        ensures ok { OnOk result (self.new ≡ tells self.old outcome.now) }
        ensures err { OnErr result (EndsWanting (wants self.new) (end_of self.new)) };

    /// How it ended, or None while it asks a request. A path in the end is shared and not copied.
    /// Fails with AllocError only if the end has a path.
    fn end(&self) -> Result<Option<OpEnd>, AllocError>
        ensures ok { IfOk result (λ end. end ≡ end_of self.now) }
        ensures err { OnErr result (ends_with_path (end_of self.now) ≡ true) };

    /// The laws of these.
    ghost laws: { ActLaws wants tells fits end_of left rise };
}

/// Whether the operation asks a request. Takes no memory.
pub fn asks<A: Acts>(act: &A) -> bool
    ensures { result ≡ is_some (A.wants act.now) }
{
    act.request().is_some()
}
