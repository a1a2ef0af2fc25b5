ghost use Rattle.std.specs.Prelude.{◌≡◌, ℕ, Bool, Option, IfOk, OnOk, OnErr, IsSome};
ghost use Rattle.std.specs.Option.{option_copied};
ghost use Rattle.s3_types.specs.Store.{Scene};
ghost use Rattle.s3_types.specs.declared.request.Request.{Request};
ghost use Rattle.s3_types.specs.declared.reply.Reply.{Reply};
ghost use Rattle.retries.specs.Retries.{Item, Got, WornOut, OutOfMemory};
ghost use Rattle.machine.specs.Standing.{Standing};
ghost use Rattle.machine.specs.Asks.{AskLaws};

use s3_types::{Reply, Request};
use std::alloc::{AllocError, Global};

/// The next request of an operation, or None if there is none; or AllocError.
pub type Asked = Result<Option<Request>, AllocError>;

/// An operation as an actor holds it, with its plan. It receives how each request ended, and gives
/// the next one.
pub trait PlannedOperation: Drop {
    /// The plan of the operation.
    type Plan: Drop;

    /// The ways in which it may end.
    type End: Drop;

    /// The operation may be started with this plan.
    ghost goes_by: { Self.Plan → Type 0 };

    /// The operation of a plan, before anything was sent.
    ghost begun: { Self.Plan → Self };

    /// Its plan.
    ghost plan_of: { Self → Self.Plan };

    /// How it ended, or None while it goes on.
    ghost end_of: { Self → Option Self.End };

    /// Its next request, or None.
    ghost wants: { Self → Option Request };

    /// The operation after it received this item.
    ghost after: { Self → Item → Self };

    /// This reply may come to its request; the Bool says whether an earlier send of it was lost.
    ghost fits: { Self → Reply → Bool → Type 0 };

    /// At most this many answers and exhausted requests are to come, if nobody else sends.
    ghost left: { Self → Scene → ℕ };

    /// Whether one of its requests exhausted its retries, or memory ran out.
    ghost standing: { Self → Standing };

    /// Starts the operation of a plan.
    fn begin(alloc: Global, plan: Self::Plan) -> Result<Self, AllocError>
        requires { goes_by plan }
        ensures { IfOk result (λ operation. operation ≡ begun plan) };

    /// Returns its next request, or None if there is none.
    fn ask(&self, alloc: Global) -> Asked
        ensures { IfOk result (λ request. request ≡ wants self.now) };

    /// Takes the reply to its request, and returns the next one. If memory runs out, the caller
    /// must break it off, and the result is as if it had been broken off before.
    fn hear(&mut self, alloc: Global, reply: &Reply, repeated: bool) -> Asked
        requires asked { IsSome (wants self.old) }
        requires fits { fits self.old reply.now repeated }
        ensures ok { OnOk result (self.new ≡ after self.old (Got reply.now repeated)) }
        ensures next { IfOk result (λ request. request ≡ wants self.new) }
        ensures err { OnErr result (after self.new OutOfMemory ≡ after self.old OutOfMemory) };

    /// Learns that its request exhausted its retries, and returns the next one. If memory runs
    /// out, the caller must break it off, and the result is as if it had been broken off before.
    fn wear(&mut self, alloc: Global) -> Asked
        requires asked { IsSome (wants self.old) }
        ensures ok { OnOk result (self.new ≡ after self.old WornOut) }
        ensures next { IfOk result (λ request. request ≡ wants self.new) }
        ensures err { OnErr result (after self.new OutOfMemory ≡ after self.old OutOfMemory) };

    /// Ends it because memory ran out. Takes no memory.
    fn break_off(&mut self)
        ensures { self.new ≡ after self.old OutOfMemory };

    /// Returns its plan. Takes no memory.
    fn plan(&self) -> &Self::Plan
        ensures { result.now ≡ plan_of self.now };

    /// Gives its plan back. Takes no memory.
    fn into_plan(self) -> Self::Plan
        ensures { result ≡ plan_of self };

    /// Returns how it ended, or None while it has a next request, which it has until it ends
    /// (`laws`). Takes no memory.
    fn end(&self) -> Option<&Self::End>
        ensures { option_copied result ≡ end_of self.now };

    /// The laws of these definitions.
    ghost laws: { AskLaws wants after fits end_of standing };
}
