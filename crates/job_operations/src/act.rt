ghost use Rattle.std.specs.Prelude.{◌≡◌, IfOk, OnOk, OnErr, IsSome, true};
ghost use Rattle.std.specs.Option.{option_copied, option_map};
ghost use Rattle.retries.specs.Retries.{OutOfMemory};
ghost use Rattle.machine.specs.Turns.{FitsOutcome};
ghost use Rattle.job_model.specs.declared.ends.OpEnd.TheVariants as ends;
ghost use Rattle.job_actor.specs.Acts.{ends_with_path};
ghost use Rattle.job_protocol.specs.AtWork.{commit_wants, commit_told};
ghost use Rattle.commit_lanes.specs.Fitting.{without_memory};
ghost use Rattle.commit_lanes.specs.CommitEnds.{FitsFew};
ghost use Rattle.cleanup.specs.SparingFits.{most_commits};
ghost use Rattle.job_operations.specs.Acts.{stepped, wants_of, tells_of, FitsAct, end_of, left_of, rise_of};
ghost use Rattle.job_operations.specs.ActLaws.{act_laws};

use crate::checked::Checked;
use crate::ends::{check_end, commit_end, setup_end, task_end};
use cleanup::{CleanJob, SparingJob};
use job_actor::Acts;
use job_commit::CommitJob;
use job_model::{CheckEnd, CleanEnd, CommitEnd, OpEnd, SetupEnd, TaskEnd};
use job_setup::SetupJob;
use machine::{Machine, Retrying};
use s3_types::{Outcome, Request};
use std::alloc::AllocError;
use task_operation::{ByCommitter, TaskMachine, TheAbort, TheCommit, TheWrite};

/// An attempt's write of its files, for the committer of its job.
pub type WriteFiles = TaskMachine<
    TheWrite,
    ByCommitter<task_magic::Writing, task_staging::Keeping>,
>;

/// An attempt's commit of its task, for the committer of its job.
pub type CommitTask = TaskMachine<
    TheCommit,
    ByCommitter<task_magic::Committing, task_staging::Staging>,
>;

/// An attempt's abort of its task, for the committer of its job.
pub type AbortTask = TaskMachine<TheAbort, ByCommitter<task_magic::Undoing, task_staging::Undoing>>;

/// The operation that an actor of a job is running. A job's clean and its abort send the same
/// requests. If another job shares the destination, they spare what is not the job's own, and a
/// commit first runs a check.
#[derive(Drop)]
pub enum Act {
    Setup(Retrying<SetupJob>),
    Write(Retrying<WriteFiles>),
    CommitTask(Retrying<CommitTask>),
    AbortTask(Retrying<AbortTask>),
    Commit(CommitJob),
    Clean(Retrying<CleanJob>),
    Sparing(Retrying<SparingJob>),
    Checked(Checked),
}

/// Gives a machine the outcome of a send.
#[tactic(auto, using(crate::proofs::Telling::whole, crate::proofs::Telling::machine_of))]
pub fn told<M: Machine>(machine: &mut Retrying<M>, outcome: &Outcome) -> Result<(), AllocError>
    requires asked { IsSome (M.wants machine.old.machine) }
    requires fits { FitsOutcome M.fits machine.old outcome.now }
    ensures ok { OnOk result (machine.new ≡ stepped M.after machine.old outcome.now) }
    ensures err { OnErr result (machine.new.machine ≡ M.after machine.old.machine OutOfMemory) }
{
    match machine.take(outcome) {
        Ok(_) => Ok(()),
        Err(error) => Err(error),
    }
}

/// Gives a job's commit the outcome of a send.
pub fn told_commit(commit: &mut CommitJob, outcome: &Outcome) -> Result<(), AllocError>
    requires asked { IsSome (commit_wants commit.old) }
    requires fits { FitsFew most_commits commit.old outcome.now }
    ensures ok { OnOk result (commit.new ≡ commit_told commit.old outcome.now) }
    ensures err { OnErr result (commit.new ≡ without_memory commit.old) }
{
    match commit.take(outcome) {
        Ok(_) => Ok(()),
        Err(error) => Err(error),
    }
}

fn ended_setup(end: Option<&SetupEnd>) -> Result<Option<OpEnd>, AllocError>
    ensures ok { IfOk result (λ x. x ≡ option_map ends.Setup (option_copied end.entry)) }
    ensures err { OnErr result (ends_with_path (option_map ends.Setup (option_copied end.entry)) ≡ true) }
{
    match end {
        Some(end) => Ok(Some(OpEnd::Setup(setup_end(end)?))),
        None => Ok(None),
    }
}

fn ended_task(end: Option<&TaskEnd>) -> Result<Option<OpEnd>, AllocError>
    ensures ok { IfOk result (λ x. x ≡ option_map ends.Task (option_copied end.entry)) }
    ensures err { OnErr result (ends_with_path (option_map ends.Task (option_copied end.entry)) ≡ true) }
{
    match end {
        Some(end) => Ok(Some(OpEnd::Task(task_end(end)?))),
        None => Ok(None),
    }
}

pub fn ended_commit(end: Option<&CommitEnd>) -> Result<Option<OpEnd>, AllocError>
    ensures ok { IfOk result (λ x. x ≡ option_map ends.Commit (option_copied end.entry)) }
    ensures err { OnErr result (ends_with_path (option_map ends.Commit (option_copied end.entry)) ≡ true) }
{
    match end {
        Some(end) => Ok(Some(OpEnd::Commit(commit_end(end)?))),
        None => Ok(None),
    }
}

pub fn ended_check(end: Option<&CheckEnd>) -> Result<Option<OpEnd>, AllocError>
    ensures ok { IfOk result (λ x. x ≡ option_map ends.Check (option_copied end.entry)) }
    ensures err { OnErr result (ends_with_path (option_map ends.Check (option_copied end.entry)) ≡ true) }
{
    match end {
        Some(end) => Ok(Some(OpEnd::Check(check_end(end)?))),
        None => Ok(None),
    }
}

fn ended_clean(end: Option<&CleanEnd>) -> Option<OpEnd>
    ensures { result ≡ option_map ends.Clean (option_copied end.entry) }
{
    match end {
        Some(end) => Some(OpEnd::Clean(*end)),
        None => None,
    }
}

impl Acts for Act {
    ghost wants = { wants_of };

    ghost tells = { tells_of };

    ghost fits = { FitsAct };

    ghost end_of = { end_of };

    ghost left = { left_of };

    ghost rise = { rise_of };

    ghost laws = { act_laws };

    fn request(&self) -> Option<&Request> {
        match self {
            Act::Setup(setup) => setup.request(),
            Act::Write(write) => write.request(),
            Act::CommitTask(commit) => commit.request(),
            Act::AbortTask(abort) => abort.request(),
            Act::Commit(commit) => commit.request(),
            Act::Clean(clean) => clean.request(),
            Act::Sparing(clean) => clean.request(),
            Act::Checked(checked) => checked.request(),
        }
    }

    #[tactic(auto, using(crate::proofs::Telling::setup_wanting, crate::proofs::Telling::write_wanting, crate::proofs::Telling::commit_task_wanting, crate::proofs::Telling::abort_task_wanting, crate::proofs::Telling::commit_wanting, crate::proofs::Telling::clean_wanting, crate::proofs::Telling::sparing_wanting))]
    fn tell(&mut self, outcome: &Outcome) -> Result<(), AllocError> {
        match self {
            Act::Setup(setup) => told(setup, outcome),
            Act::Write(write) => told(write, outcome),
            Act::CommitTask(commit) => told(commit, outcome),
            Act::AbortTask(abort) => told(abort, outcome),
            Act::Commit(commit) => told_commit(commit, outcome),
            Act::Clean(clean) => told(clean, outcome),
            Act::Sparing(clean) => told(clean, outcome),
            Act::Checked(checked) => checked.tell(outcome),
        }
    }

    fn end(&self) -> Result<Option<OpEnd>, AllocError> {
        match self {
            Act::Setup(setup) => ended_setup(setup.machine().end()),
            Act::Write(write) => ended_task(write.machine().end()),
            Act::CommitTask(commit) => ended_task(commit.machine().end()),
            Act::AbortTask(abort) => ended_task(abort.machine().end()),
            Act::Commit(commit) => ended_commit(commit.end()),
            Act::Clean(clean) => Ok(ended_clean(clean.machine().end())),
            Act::Sparing(clean) => Ok(ended_clean(clean.machine().end())),
            Act::Checked(checked) => checked.end(),
        }
    }
}
