ghost use Rattle.std.specs.Prelude.{◌≡◌, IfOk, OnOk, OnErr, IsSome};
ghost use Rattle.std.specs.Option.{option_copied};
ghost use Rattle.retries.specs.Retries.{Got, WornOut};
ghost use Rattle.job_model.specs.Jobs.{Task};
ghost use Rattle.task_operation.specs.Tasks.{at};

use crate::operation::TaskOperation;
use job_model::{TaskEnd, TaskPlan};
use machine::Asked;
use s3_types::Reply;
use std::alloc::{AllocError, Global};

/// What a committer keeps of an attempt's operation besides the plan. Each call borrows the plan.
pub trait TaskState<O: TaskOperation>: Drop {
    /// An operation may begin with this plan.
    ghost goes_by: { Task → Type 0 };

    /// Holds for what is kept beside this plan.
    ghost keeps: { Task → Self → Type 0 };

    /// The operation that the kept values represent.
    ghost operation: { Task → Self → O };

    /// Begins the plan's operation, which has sent nothing yet.
    fn begin(alloc: Global, plan: &TaskPlan) -> Result<Self, AllocError>
        requires { goes_by plan.now }
        ensures start { IfOk result (λ held. operation plan.now held ≡ O.start plan.now) }
        ensures keeps { IfOk result (λ held. keeps plan.now held) };

    /// Returns the request to send now, or None if the operation sends no more.
    fn ask(&self, alloc: Global, plan: &TaskPlan) -> Asked
        requires { keeps plan.now self.now }
        ensures { IfOk result (λ request. request ≡ O.wants (at plan.now (operation plan.now self.now))) };

    /// Takes the reply to the current request and returns the next request. If memory runs out, the
    /// plan is unchanged, and the caller must end the operation.
    fn hear(&mut self, alloc: Global, plan: &mut TaskPlan, reply: &Reply, repeated: bool) -> Asked
        requires keeps { keeps plan.old self.old }
        requires asked { IsSome (O.wants (at plan.old (operation plan.old self.old))) }
        requires fits { O.fits (at plan.old (operation plan.old self.old)) reply.now repeated }
        ensures keeps { keeps plan.new self.new }
        ensures told { OnOk result (at plan.new (operation plan.new self.new) ≡ O.after
            (at plan.old (operation plan.old self.old)) (Got reply.now repeated)) }
        ensures next { IfOk result (λ request. request ≡ O.wants (at plan.new (operation plan.new self.new))) }
        ensures err { OnErr result (plan.new ≡ plan.old) };

    /// Notes that the current request exhausted its retries. Takes no memory.
    fn wear(&mut self, plan: &mut TaskPlan)
        requires keeps { keeps plan.old self.old }
        requires asked { IsSome (O.wants (at plan.old (operation plan.old self.old))) }
        ensures keeps { keeps plan.new self.new }
        ensures told { at plan.new (operation plan.new self.new) ≡ O.after (at plan.old (operation plan.old self.old))
            WornOut };

    /// Ends the operation with `end`. Takes no memory.
    fn finish(&mut self, end: TaskEnd)
        ensures keeps { (t : Task) → keeps t self.old → keeps t self.new }
        ensures over { (t : Task) → operation t self.new ≡ O.ended end };

    /// Returns how the operation ended, or None while it still has a request to send. Takes no
    /// memory.
    fn end(&self, plan: &TaskPlan) -> Option<&TaskEnd>
        requires { keeps plan.now self.now }
        ensures { option_copied result ≡ O.over (operation plan.now self.now) };
}
