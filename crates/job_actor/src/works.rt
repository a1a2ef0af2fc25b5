ghost use Rattle.std.specs.Prelude.{◌≡◌, ℕ, IfOk, List, Option, None};
ghost use Rattle.std.specs.Option.{option_copied};
ghost use Rattle.s3_types.specs.declared.request.Actor.{Actor};
ghost use Rattle.job_model.specs.Known.{Known};
ghost use Rattle.job_model.specs.Legal.{HasOp, IsLegal};
ghost use Rattle.job_model.specs.JobScript.{Script};
ghost use Rattle.job_model.specs.declared.ends.Pick.{Pick};
ghost use Rattle.job_protocol.specs.Operations.{Reports, Setting, Running};
ghost use Rattle.job_actor.specs.Plans.{IsPlanOf};
ghost use Rattle.job_actor.specs.Reports.{IsReport};
ghost use Rattle.job_actor.specs.Works.{WorkLaws, Starts};

use crate::{Acts, Plan, Reported};
use job_model::{Op, PickList};
use s3_types::Actor;
use std::alloc::{AllocError, Global};

/// The operations of a job's actors, each made from the plan of its actor.
pub trait Works: Acts {
    /// The operation follows the plan of this actor of a job.
    ghost is_of: { Setting → Actor → Self → Type 0 };

    /// The operation with what its attempt knows. The driver's operations need no knowledge, so for
    /// these it is the one given.
    ghost running: { Known → Self → Running };

    /// An upper bound on how much a request of an attempt raises what the driver's operation has
    /// left.
    ghost rise: { Script → ℕ };

    /// The attempts whose sets a job's commit has read, by task; None for any other operation.
    ghost picks_of: { Self → Option (List Pick) };

    /// Begins an operation of this actor, with this report of the tasks. Fails with AllocError if
    /// memory runs out; then the plan is lost, and so is the actor.
    fn begin(
        alloc: Global,
        plan: Plan,
        actor: Actor,
        op: Op,
        reported: Reported,
    ) -> Result<Self, AllocError>
        ensures { (g : Setting) (k : Known) (r : Reports) → IsReport g actor op reported r → IsLegal g.script
            → IsPlanOf g actor k plan → HasOp actor op
            → IfOk result (λ work. Starts is_of running picks_of g actor op r k work) };

    /// Gives the plan back, with what its attempt knows after the operation. Takes no memory.
    fn into_plan(self) -> Plan
        ensures { (g : Setting) (a : Actor) (k : Known) → is_of g a self → Self.wants self ≡ None
            → IsPlanOf g a (running k self).known result };

    /// The attempts whose sets a job's commit has read, by task; None for any other operation.
    /// Takes no memory.
    fn picks(&self) -> Option<&PickList>
        ensures { option_copied result ≡ picks_of self.now };

    /// Moves out the attempts whose sets a job's commit has read, as `picks` shows them. Takes no
    /// memory.
    fn into_picks(self) -> Option<PickList>
        ensures { result ≡ picks_of self };

    /// Proves what holds of the operations in every run of a legal script. Does nothing.
    fn laws()
        ensures { WorkLaws Self.wants Self.tells Self.fits Self.end_of Self.left is_of running rise picks_of };
}
