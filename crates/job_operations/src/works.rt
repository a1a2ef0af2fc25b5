ghost use Rattle.std.specs.Prelude.{IfOk};
ghost use Rattle.s3_types.specs.declared.request.Actor.{Actor};
ghost use Rattle.job_actor.specs.declared.plan.Plan.TheVariants as plans;
ghost use Rattle.job_actor.specs.Plans.{IsPlanOf};
ghost use Rattle.job_actor.specs.Reports.{IsReport};
ghost use Rattle.job_model.specs.Known.{Known};
ghost use Rattle.job_model.specs.Legal.{IsLegal, HasOp};
ghost use Rattle.job_protocol.specs.Operations.{Reports, Setting};
ghost use Rattle.job_actor.specs.Works.{Starts};
ghost use Rattle.job_operations.specs.Plans.{IsOf, running_of, picks_of};
ghost use Rattle.job_operations.specs.Rising.{rise as rise_in};

use crate::act::Act;
use crate::begun::{
    begin_abort_task, begin_clean, begin_commit, begin_commit_task, begin_setup, begin_write,
};
use job_actor::{Plan, Reported, Works};
use job_model::{JobPlan, Op, PickList, TaskPlan};
use s3_types::Actor;
use std::alloc::{AllocError, Global};

/// Begins an operation of the driver, which writes no files.
fn begin_job(alloc: Global, plan: JobPlan, op: Op, reported: Reported) -> Result<Act, AllocError>
    ensures { (g : Setting) (a : Actor) (k : Known) (r : Reports) → IsReport g a op reported r → IsLegal g.script
        → IsPlanOf g a k (plans.Job plan) → HasOp a op
        → IfOk result (λ act. Starts IsOf running_of picks_of g a op r k act) }
{
    match op {
        Op::Setup => begin_setup(alloc, plan),
        Op::Commit => begin_commit(alloc, plan, reported),
        Op::Abort | Op::Clean => begin_clean(alloc, plan, reported),
        Op::Write => Err(AllocError),
    }
}

/// Begins an operation of an attempt, which sets nothing up and cleans nothing.
fn begin_task(alloc: Global, plan: TaskPlan, op: Op) -> Result<Act, AllocError>
    ensures { (g : Setting) (a : Actor) (k : Known) (r : Reports) → IsPlanOf g a k (plans.Task plan) → HasOp a op
        → IfOk result (λ act. Starts IsOf running_of picks_of g a op r k act) }
{
    match op {
        Op::Write => begin_write(alloc, plan),
        Op::Commit => begin_commit_task(alloc, plan),
        Op::Abort => begin_abort_task(alloc, plan),
        Op::Setup | Op::Clean => Err(AllocError),
    }
}

impl Works for Act {
    ghost is_of = { IsOf };

    ghost running = { running_of };

    ghost rise = { rise_in };

    ghost picks_of = { picks_of };

    fn begin(
        alloc: Global,
        plan: Plan,
        actor: Actor,
        op: Op,
        reported: Reported,
    ) -> Result<Act, AllocError> {
        let _ = actor;
        match plan {
            Plan::Job(plan) => begin_job(alloc, plan, op, reported),
            Plan::Task(plan) => begin_task(alloc, plan, op),
        }
    }

    fn into_plan(self) -> Plan {
        match self {
            Act::Setup(setup) => Plan::Job(setup.into_inner().into_plan()),
            Act::Write(write) => Plan::Task(write.into_inner().into_plan()),
            Act::CommitTask(commit) => Plan::Task(commit.into_inner().into_plan()),
            Act::AbortTask(abort) => Plan::Task(abort.into_inner().into_plan()),
            Act::Commit(commit) => Plan::Job(commit.into_plan()),
            Act::Clean(clean) => Plan::Job(clean.into_inner().into_plan()),
            Act::Sparing(clean) => Plan::Job(clean.into_inner().into_plan()),
            Act::Checked(checked) => Plan::Job(checked.into_plan()),
        }
    }

    fn picks(&self) -> Option<&PickList> {
        match self {
            Act::Commit(commit) => Some(commit.picks()),
            Act::Checked(checked) => Some(checked.picks()),
            Act::Setup(_)
            | Act::Write(_)
            | Act::CommitTask(_)
            | Act::AbortTask(_)
            | Act::Clean(_)
            | Act::Sparing(_) => None,
        }
    }

    fn into_picks(self) -> Option<PickList> {
        match self {
            Act::Commit(commit) => Some(commit.into_picks()),
            Act::Checked(checked) => Some(checked.into_picks()),
            Act::Setup(_)
            | Act::Write(_)
            | Act::CommitTask(_)
            | Act::AbortTask(_)
            | Act::Clean(_)
            | Act::Sparing(_) => None,
        }
    }

    fn laws() {}
}
