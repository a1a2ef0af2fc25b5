ghost use Rattle.std.specs.Prelude.{◌≡◌, ◌<◌, ◌≤◌, [], IfOk, OnOk, OnErr, IsSome};
ghost use Rattle.std.specs.Option.{option_copied};
ghost use Rattle.job_protocol.specs.JobCommits.{commit_start, commit_over};
ghost use Rattle.job_protocol.specs.AtWork.{read_script, commit_wants, commit_told};
ghost use Rattle.commit_lanes.specs.Fitting.{FitsCommit, FitsReply, missed_of, without_memory, least_missing};
ghost use Rattle.job_commit.specs.Turns.{turn_of, turn_unanswered, lost_of};
ghost use Rattle.job_commit.specs.Holds.{picks_from};
ghost use Rattle.job_commit.specs.inner.Holds.{GoesTo};
ghost use Rattle.job_commit.specs.inner.Missing.{missed};

use crate::basis::Basis;
use crate::step::{Next, Step};
use job_model::{CommitEnd, JobPlan, PickList, TaskSet};
use machine::Turn;
use s3_types::{Outcome, Reply, Request, Sequence, let_go};
use std::alloc::{AllocError, Global};
use std::marker::Model;

/// The driver's commit of a job. It receives the outcome of each send and counts the sends of its
/// requests itself. (Hadoop, S3A committer architecture: job commit.) It does, in this order:
///
/// - reads the set of each task, once, from task 0 on, and ends if two tasks write the same path;
/// - deletes what the mode does not keep, for a staging committer in mode `replace`;
/// - completes all uploads, in lanes;
/// - puts the marker.
///
/// If a completion exhausts its retries, it reverts: it deletes the key of each upload that was or
/// may be completed, and aborts each upload whose completion was not answered. A request of this
/// revert that exhausts its retries is skipped.
#[derive(Drop)]
pub struct CommitJob {
    basis: Basis,
    picks: PickList,
    next: Next,
}

impl Model for CommitJob {
    ghost use Rattle.job_protocol.specs.AtWork.{Committing};

    ghost Value = { Committing };

    ghost use Rattle.job_commit.specs.inner.Stages.{operation_of};
    ghost use Rattle.job_commit.specs.inner.Holds.{attempts_of, Holds};

    ghost view = { λ c. record {
      plan = c.basis.plan;
      picked = attempts_of c.picks;
      operation = operation_of c.basis.sets c.next.step;
    } };

    ghost invariant = { λ c. Holds c.basis.plan c.basis.sets c.basis.places c.picks c.next.step c.next.asked };
}

/// Returns the lowest task that did not report its commit, if there is one.
fn missing(tasks: u32, reported: &TaskSet) -> Option<u32>
    ensures { result ≡ least_missing tasks reported.now }
{
    for task in 0..tasks {
        if !reported.has(task) {
            return Some(task);
        }
    }
    None
}

/// Takes the first step of a commit.
fn begun(basis: &mut Basis, reported: &TaskSet, next: &mut Next) -> Result<(), AllocError>
    requires { basis.old.sets ≡ [] }
    ensures ok { OnOk result (GoesTo basis.new
        (commit_start (read_script basis.old.plan []) (least_missing basis.old.plan.tasks reported.now)) next.new) }
    ensures rest { basis.new ≡ record basis.old { places = basis.new.places } }
{
    match missing(basis.plan.tasks, reported) {
        Some(task) => {
            next.end(CommitEnd::Missing(task));
            Ok(())
        }
        None => basis.fetching(next),
    }
}

impl CommitJob {
    /// Starts the job commit. `reported` holds the tasks, numbered from 0, that reported a
    /// successful commit. If a task below `plan.tasks` is missing from it, the commit has already
    /// ended with Missing of the lowest such task, and sends nothing. Fails with AllocError only if
    /// memory runs out.
    pub fn new(alloc: Global, plan: JobPlan, reported: &TaskSet) -> Result<CommitJob, AllocError>
        ensures { IfOk result (λ m. m ≡ record {
          plan = plan;
          picked = [];
          operation = commit_start (read_script plan []) (least_missing plan.tasks reported.now);
        }) }
    {
        let mut basis = Basis::new(alloc, plan);
        let mut next = Next::wanting();
        match begun(&mut basis, reported, &mut next) {
            Ok(()) => Ok(CommitJob {
                basis,
                picks: Sequence::new(alloc),
                next,
            }),
            Err(error) => {
                let_go(next);
                Err(error)
            }
        }
    }

    /// Returns the current request, or None if the commit sends no more. The request stays the same
    /// until `take`. Takes no memory.
    pub fn request(&self) -> Option<&Request>
        ensures { option_copied result ≡ commit_wants self.now }
    {
        self.next.asked.as_ref()
    }

    /// Returns how the commit ended, or None while it has a request to send. Takes no memory. The
    /// end is the first of these that applies:
    ///
    /// - NoMemory if memory ran out;
    /// - Missing;
    /// - StoreFault of the stage of the first request that exhausted its retries;
    /// - SamePath;
    /// - Committed.
    pub fn end(&self) -> Option<&CommitEnd>
        ensures { option_copied result ≡ commit_over self.now.operation }
    {
        match &self.next.step {
            Step::Over(end) => Some(end),
            _ => None,
        }
    }

    /// Returns the attempts of the sets that were read, by task from 0 on. Takes no memory.
    pub fn picks(&self) -> &PickList
        ensures { result.now ≡ picks_from 0 self.now.picked }
    {
        &self.picks
    }

    /// Returns the plan of the job. Takes no memory.
    pub fn plan(&self) -> &JobPlan
        ensures { result.now ≡ self.now.plan }
    {
        &self.basis.plan
    }

    /// Consumes the commit and returns the plan of the job. Takes no memory.
    pub fn into_plan(self) -> JobPlan
        ensures { result ≡ self.plan }
    {
        let CommitJob { basis, picks, next } = self;
        let_go(picks);
        let_go(next);
        basis.into_plan()
    }

    /// Consumes the commit and returns the attempts of the sets that were read, by task from 0 on.
    /// Takes no memory.
    pub fn into_picks(self) -> PickList
        ensures { result ≡ picks_from 0 self.picked }
    {
        let CommitJob { basis, picks, next } = self;
        let_go(basis);
        let_go(next);
        picks
    }

    /// Returns whether the current request completes an upload and an earlier send of it was lost,
    /// not merely slow. Only then may S3 reply that the upload does not exist. Takes no memory.
    pub fn was_lost(&self) -> bool
        ensures { result ≡ lost_of self.now.operation }
    {
        self.next.step.lost()
    }

    /// Takes an answer.
    fn hear(&mut self, reply: &Reply) -> Result<(), AllocError>
        requires { FitsReply self.old.plan self.old.operation reply.now }
        ensures ok { OnOk result (self.new ≡ commit_told self.old (Outcome.Answered reply.now)) }
        ensures err { OnErr result (self.new ≡ without_memory self.old) }
    {
        let step = self.next.taken();
        self.basis
            .heard(&mut self.picks, step, &mut self.next, reply)
    }

    /// Counts a send without an answer, of a request that will be sent again.
    fn again(&mut self, lost: bool) -> Result<(), AllocError>
        requires { missed_of self.old.operation < self.old.plan.retries }
        ensures ok { OnOk result (self.new ≡ missed self.old lost) }
        ensures err { OnErr result (self.new ≡ without_memory self.old) }
    {
        self.basis.again(&mut self.next, lost)
    }

    /// Counts the last send of a request, which got no answer.
    fn wear_out(&mut self, lost: bool) -> Result<(), AllocError>
        requires { self.old.plan.retries ≤ missed_of self.old.operation }
        ensures ok { OnOk result (self.new ≡ missed self.old lost) }
        ensures err { OnErr result (self.new ≡ without_memory self.old) }
    {
        let step = self.next.taken();
        self.basis.worn(step, &mut self.next, lost)
    }

    /// Returns how many sends of the current request got no answer.
    fn missed(&self) -> u32
        ensures { result ≡ missed_of self.now.operation }
    {
        self.next.step.missed()
    }

    /// Counts a send without an answer; `lost` says whether it was lost, not merely slow.
    fn miss(&mut self, lost: bool) -> Result<Turn, AllocError>
        ensures ok { OnOk result (self.new ≡ missed self.old lost) }
        ensures turn { IfOk result (λ turn. turn ≡ turn_unanswered self.old) }
        ensures err { OnErr result (self.new ≡ without_memory self.old) }
    {
        if self.missed() < self.basis.plan.retries {
            self.again(lost)?;
            Ok(Turn::Again)
        } else {
            self.wear_out(lost)?;
            Ok(Turn::WornOut)
        }
    }

    /// Takes the outcome of a send of the current request, and returns what follows:
    ///
    /// - Moved: the request was answered;
    /// - Again: the request, or its lane's turn, is to be sent again;
    /// - WornOut: this was the last of `retries + 1` sends.
    ///
    /// Fails with AllocError only if memory runs out. The commit then sends nothing more, its end
    /// is NoMemory, and its chosen attempts are unchanged.
    pub fn take(&mut self, outcome: &Outcome) -> Result<Turn, AllocError>
        requires asked { IsSome (commit_wants self.old) }
        requires fits { FitsCommit self.old outcome.now }
        ensures ok { OnOk result (self.new ≡ commit_told self.old outcome.now) }
        ensures turn { IfOk result (λ turn. turn ≡ turn_of self.old outcome.now) }
        ensures err { OnErr result (self.new ≡ without_memory self.old) }
    {
        match outcome {
            Outcome::Answered(reply) => {
                self.hear(reply)?;
                Ok(Turn::Moved)
            }
            Outcome::Slow => self.miss(false),
            Outcome::RequestLost | Outcome::ReplyLost => self.miss(true),
        }
    }
}
