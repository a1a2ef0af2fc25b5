ghost use Rattle.std.specs.Prelude.{◌≡◌, ℕ, Bool, Option, OnOk, OnErr, IsSome};
ghost use Rattle.std.specs.Option.{option_copied};
ghost use Rattle.s3_types.specs.Store.{Scene};
ghost use Rattle.s3_types.specs.declared.request.Request.{Request};
ghost use Rattle.s3_types.specs.declared.reply.Reply.{Reply};
ghost use Rattle.retries.specs.Retries.{Item, Got, WornOut, OutOfMemory};
ghost use Rattle.machine.specs.MachineLaws.{Laws};
ghost use Rattle.machine.specs.Standing.{Standing};

use s3_types::{Reply, Request};
use std::alloc::AllocError;

/// An operation that sends one request after another; each depends on the replies so far. Its
/// present request stays the same until `take` or `worn`.
pub trait Machine {
    /// The present request.
    ghost wants: { Self → Option Request };

    /// The machine after it received this item for its present request.
    ghost after: { Self → Item → Self };

    /// This reply may come to the present request; the Bool says whether an earlier send of it was
    /// lost.
    ghost fits: { Self → Reply → Bool → Type 0 };

    /// In this scene, and alone, it goes on well; the Bool says whether an earlier send of its
    /// present request was lost.
    ghost ready: { Self → Scene → Bool → Type 0 };

    /// At most this many answers and exhausted requests are to come, if it is alone.
    ghost left: { Self → Scene → ℕ };

    /// Whether one of its requests exhausted its retries, or memory ran out.
    ghost standing: { Self → Standing };

    /// Returns the present request, or None if there is none. Takes no memory.
    fn request(&self) -> Option<&Request>
        ensures { option_copied result ≡ wants self.now };

    /// Takes the reply to the present request. If memory runs out, there is no next request.
    fn take(&mut self, reply: &Reply, repeated: bool) -> Result<(), AllocError>
        requires asked { IsSome (wants self.old) }
        requires fits { fits self.old reply.now repeated }
        ensures ok { OnOk result (self.new ≡ after self.old (Got reply.now repeated)) }
        ensures err { OnErr result (self.new ≡ after self.old OutOfMemory) };

    /// Learns that the present request exhausted its retries: none of its sends got an answer. If
    /// memory runs out, there is no next request.
    fn worn(&mut self) -> Result<(), AllocError>
        requires { IsSome (wants self.old) }
        ensures ok { OnOk result (self.new ≡ after self.old WornOut) }
        ensures err { OnErr result (self.new ≡ after self.old OutOfMemory) };

    /// The laws of these definitions. Does nothing.
    fn laws()
        ensures { Laws wants after fits ready left standing };
}
