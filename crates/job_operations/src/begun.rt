ghost use Rattle.std.specs.Prelude.{◌≡◌, ℕ, List, Some, IfOk};
ghost use Rattle.job_model.specs.declared.events.Op.TheVariants as ops;
ghost use Rattle.job_protocol.specs.JobCommits.{commit_over};
ghost use Rattle.job_model.specs.Jobs.{Job};
ghost use Rattle.s3_types.specs.declared.request.Mode.TheVariants.{Fail};
ghost use Rattle.commit_lanes.specs.Fitting.{least_missing};
ghost use Rattle.commit_lanes.specs.CommitEnds.{start};
ghost use Rattle.job_operations.specs.inner.Begins.{unsent, setup_of, write_of, commit_task_of, abort_task_of, commit_of, check_of, is_missing, commit_by, driver_commit, clean_of, sparing_of, clean_by, BeginsSetup, BeginsTask, BeginsCommit, BeginsClean};

use crate::act::{AbortTask, Act, CommitTask, WriteFiles};
use crate::checked::Checked;
use crate::plan::copied;
use cleanup::{CleanJob, SparingJob};
use conflict::{CheckPlan, Recheck};
use job_actor::Reported;
use job_commit::CommitJob;
use job_model::{CommitEnd, JobPlan, TaskPlan, TaskSet};
use job_setup::SetupJob;
use machine::{Machine, Retrying};
use s3_types::{Mode, TextList, let_go};
use std::alloc::{AllocError, Global};

/// Returns a machine with its retries that has sent nothing yet.
#[tactic(auto, using(crate::proofs::Telling::whole))]
fn unsent<M: Machine>(machine: M, retries: u32) -> Retrying<M>
    ensures { result ≡ unsent retries machine }
{
    Retrying::new(machine, retries)
}

/// Begins a set-up of a job. Fails with AllocError only if memory runs out; the plan is lost then,
/// with the actor.
#[tactic(auto, using(crate::proofs::Beginnings::setup_begun))]
pub fn begin_setup(alloc: Global, plan: JobPlan) -> Result<Act, AllocError>
    ensures act { IfOk result (λ act. act ≡ setup_of plan) }
    ensures begins { IfOk result (λ act. BeginsSetup plan act) }
{
    let retries = plan.retries;
    match SetupJob::new(alloc, plan) {
        Ok(setup) => Ok(Act::Setup(unsent(setup, retries))),
        Err(error) => Err(error),
    }
}

/// Begins an attempt's write of its files. Fails with AllocError only if memory runs out; the plan
/// is lost then, with the actor.
pub fn begin_write(alloc: Global, plan: TaskPlan) -> Result<Act, AllocError>
    ensures act { IfOk result (λ act. act ≡ write_of plan) }
    ensures begins { IfOk result (λ act. BeginsTask ops.Write plan act) }
{
    let retries = plan.job.retries;
    match WriteFiles::new(alloc, plan) {
        Ok(write) => Ok(Act::Write(unsent(write, retries))),
        Err(error) => Err(error),
    }
}

/// Begins an attempt's commit of its task. Fails with AllocError only if memory runs out; the plan
/// is lost then, with the actor.
pub fn begin_commit_task(alloc: Global, plan: TaskPlan) -> Result<Act, AllocError>
    ensures act { IfOk result (λ act. act ≡ commit_task_of plan) }
    ensures begins { IfOk result (λ act. BeginsTask ops.Commit plan act) }
{
    let retries = plan.job.retries;
    match CommitTask::new(alloc, plan) {
        Ok(commit) => Ok(Act::CommitTask(unsent(commit, retries))),
        Err(error) => Err(error),
    }
}

/// Begins an attempt's abort of its task. Fails with AllocError only if memory runs out; the plan
/// is lost then, with the actor.
pub fn begin_abort_task(alloc: Global, plan: TaskPlan) -> Result<Act, AllocError>
    ensures act { IfOk result (λ act. act ≡ abort_task_of plan) }
    ensures begins { IfOk result (λ act. BeginsTask ops.Abort plan act) }
{
    let retries = plan.job.retries;
    match AbortTask::new(alloc, plan) {
        Ok(abort) => Ok(Act::AbortTask(unsent(abort, retries))),
        Err(error) => Err(error),
    }
}

/// Begins a job's commit without a check. `reported` holds the tasks that reported a successful
/// commit.
fn begin_alone(alloc: Global, plan: JobPlan, reported: &TaskSet) -> Result<Act, AllocError>
    ensures { IfOk result (λ act. act ≡ commit_of plan reported.now) }
{
    match CommitJob::new(alloc, plan, reported) {
        Ok(commit) => Ok(Act::Commit(commit)),
        Err(error) => Err(error),
    }
}

/// Returns the check before a job's commit that looks at these partitions.
fn begun_check(
    alloc: Global,
    plan: &JobPlan,
    partitions: TextList,
) -> Result<Retrying<Recheck>, AllocError>
    ensures { IfOk result (λ check. check ≡ check_of plan.now partitions) }
{
    let job = copied(plan)?;
    let retries = job.retries;
    match Recheck::new(alloc, CheckPlan { job, partitions }) {
        Ok(check) => Ok(unsent(check, retries)),
        Err(error) => Err(error),
    }
}

/// Returns whether a task is missing, so that the commit is over already.
fn misses(commit: &CommitJob) -> bool
    ensures { result ≡ is_missing (commit_over commit.now.operation) }
{
    matches!(commit.end(), Some(CommitEnd::Missing(_)))
}

/// Returns the commit after its check, or without the check if a task is missing.
#[tactic(auto, using(crate::proofs::Beginnings::alone_missing, crate::proofs::Beginnings::checked_whole))]
fn behind(check: Retrying<Recheck>, commit: CommitJob) -> Act
    ensures { (j : Job) (reported : List ℕ) (dirs : List (List ℕ)) → check ≡ check_of j dirs
        → commit ≡ start j (least_missing j.tasks reported) → result ≡ commit_by j reported (Some dirs) Fail (least_missing j.tasks reported) }
{
    if misses(&commit) {
        let_go(check);
        Act::Commit(commit)
    } else {
        Act::Checked(Checked::new(check, commit))
    }
}

/// Begins a job's commit after its check.
fn begin_checked(
    alloc: Global,
    plan: JobPlan,
    tasks: &TaskSet,
    partitions: TextList,
) -> Result<Act, AllocError>
    ensures { IfOk result (λ act. act ≡ commit_by plan tasks.now (Some partitions) Fail (least_missing plan.tasks tasks.now)) }
{
    let check = begun_check(alloc, &plan, partitions)?;
    match CommitJob::new(alloc, plan, tasks) {
        Ok(commit) => Ok(behind(check, commit)),
        Err(error) => {
            let_go(check);
            Err(error)
        }
    }
}

/// Begins a job's commit at a destination that another job shares.
fn begin_shared(
    alloc: Global,
    plan: JobPlan,
    reported: &TaskSet,
    partitions: TextList,
) -> Result<Act, AllocError>
    ensures { IfOk result (λ act. act ≡ commit_by plan reported.now (Some partitions) plan.mode (least_missing plan.tasks reported.now)) }
{
    match plan.mode {
        Mode::Fail => begin_checked(alloc, plan, reported, partitions),
        Mode::Append | Mode::Replace => begin_alone(alloc, plan, reported),
    }
}

/// Begins a job's commit with these reports. The commit first runs its check if another job shares
/// the destination, the mode is `fail`, and no task is missing. Fails with AllocError only if
/// memory runs out; the plan is lost then, with the actor.
#[tactic(auto, using(crate::proofs::Beginnings::commit_begun))]
pub fn begin_commit(alloc: Global, plan: JobPlan, reported: Reported) -> Result<Act, AllocError>
    ensures act { IfOk result (λ act. act ≡ driver_commit plan reported) }
    ensures begins { IfOk result (λ act. BeginsCommit plan reported act) }
{
    let Reported { tasks, partitions } = reported;
    match partitions {
        Some(partitions) => begin_shared(alloc, plan, &tasks, partitions),
        None => begin_alone(alloc, plan, &tasks),
    }
}

/// Begins a clean or abort of a job at a destination that no other job uses.
fn clean(alloc: Global, plan: JobPlan) -> Result<Act, AllocError>
    ensures { IfOk result (λ act. act ≡ clean_of plan) }
{
    let retries = plan.retries;
    match CleanJob::new(alloc, plan) {
        Ok(clean) => Ok(Act::Clean(unsent(clean, retries))),
        Err(error) => Err(error),
    }
}

/// Begins a clean or abort of a job that spares what is not the job's own.
fn spare(alloc: Global, plan: JobPlan) -> Result<Act, AllocError>
    ensures { IfOk result (λ act. act ≡ sparing_of plan) }
{
    let retries = plan.retries;
    match SparingJob::new(alloc, plan) {
        Ok(clean) => Ok(Act::Sparing(unsent(clean, retries))),
        Err(error) => Err(error),
    }
}

/// Begins a clean of a job, or its abort, which sends the same requests. It spares what is not the
/// job's own if another job shares the destination. Fails with AllocError only if memory runs out;
/// the plan is lost then, with the actor.
#[tactic(auto, using(crate::proofs::Beginnings::clean_begun))]
pub fn begin_clean(alloc: Global, plan: JobPlan, reported: Reported) -> Result<Act, AllocError>
    ensures act { IfOk result (λ act. act ≡ clean_by plan reported.partitions) }
    ensures begins { IfOk result (λ act. BeginsClean plan reported act) }
{
    match reported.partitions {
        Some(_) => spare(alloc, plan),
        None => clean(alloc, plan),
    }
}
