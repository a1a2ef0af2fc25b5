ghost use Rattle.std.specs.Prelude.{◌≡◌, ℕ, ◌+◌, ◌<◌, ◌≤◌, ◌^◌, false, IfOk, OnOk, OnErr, IsTrue, Option, None};
ghost use Rattle.s3_types.specs.Store.{Scene};
ghost use Rattle.s3_types.specs.Answer.{answer};
ghost use Rattle.s3_types.specs.Moment.{effect, is_unanswered, IsHonestOutcome};
ghost use Rattle.s3_types.specs.Foretold.{IsForetold};
ghost use Rattle.s3_types.specs.declared.fates.Fate.{Fate};

use crate::journal::Outcome;
use crate::request::Request;
use std::alloc::AllocError;

/// A store with its cluster. It may lose requests and replies.
pub trait ObjectStore {
    /// What the store and the cluster hold.
    ghost scene: { Self → Scene };

    /// How many requests were made so far.
    ghost requests: { Self → ℕ };

    /// How many sends have got no answer so far.
    ghost losses: { Self → ℕ };

    /// What happens to each request, by its number from 1, as far as that is known before the run.
    ghost foretold: { Self → ℕ → Option Fate } = { λ _ _. None };

    /// Makes a request. If memory runs out, everything is as before.
    fn request(&mut self, request: &Request) -> Result<Outcome, AllocError>
        requires { requests self.old < 2 ^ 62 }
        ensures answered { IfOk result (λ outcome. IsHonestOutcome outcome (answer (scene self.old) request.now)) }
        ensures scene { IfOk result (λ outcome. scene self.new ≡ effect (scene self.old) request.now outcome) }
        ensures count { OnOk result (requests self.new ≡ requests self.old + 1) }
        ensures lost { IfOk result (λ outcome. IsTrue (is_unanswered outcome) → losses self.old < losses self.new) }
        ensures fate { IfOk result (λ outcome. IsForetold (foretold self.old (requests self.old + 1)) outcome) }
        ensures foretold { (n : ℕ) → foretold self.new n ≡ foretold self.old n }
        ensures losses { losses self.old ≤ losses self.new }
        ensures kept { IfOk result (λ outcome. is_unanswered outcome ≡ false → losses self.new ≡ losses self.old) }
        ensures same { OnErr result (scene self.new ≡ scene self.old) }
        ensures same_count { OnErr result (requests self.new ≡ requests self.old) }
        ensures same_losses { OnErr result (losses self.new ≡ losses self.old) };
}
