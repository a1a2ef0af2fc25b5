ghost use Rattle.std.specs.Prelude.{◌≡◌, IfOk, OnOk, OnErr, IsSome, true};
ghost use Rattle.std.specs.Option.{option_copied};
ghost use Rattle.retries.specs.Retries.{OutOfMemory};
ghost use Rattle.machine.specs.Turns.{FitsOutcome};
ghost use Rattle.conflict.specs.Rechecks.{check_wants, check_told};
ghost use Rattle.conflict.specs.Fits.{FitsCheck};
ghost use Rattle.job_commit.specs.Holds.{picks_from};
ghost use Rattle.job_protocol.specs.Rechecks.{check_over};
ghost use Rattle.job_actor.specs.Acts.{EndsWanting, ends_with_path};
ghost use Rattle.job_operations.specs.Acts.{stepped, is_clear, until_clear, checked_wants, checked_told, FitsChecked, checked_end};

use crate::act::{ended_check, ended_commit, told, told_commit};
use conflict::Recheck;
use job_commit::CommitJob;
use job_model::{CheckEnd, JobPlan, OpEnd, PickList};
use machine::Retrying;
use s3_types::{Outcome, Request, let_go, put};
use std::alloc::AllocError;

/// A job's commit after its check. While there is a check, it sends the requests of the check.
/// After the check has ended with Clear, there is none any more, and the commit goes on. (Hadoop,
/// S3A committers: fs.s3a.committer.staging.conflict-mode.)
#[derive(Drop)]
pub struct Checked {
    pub check: Option<Retrying<Recheck>>,
    pub commit: CommitJob,
}

/// Returns whether a check ended with Clear.
fn clear(check: &Retrying<Recheck>) -> bool
    ensures { result ≡ is_clear (check_over check.now.machine.operation) }
{
    matches!(check.machine().end(), Some(CheckEnd::Clear))
}

/// Returns the check, or None if it ended with Clear.
#[tactic(auto, using(crate::proofs::Telling::past_clear, crate::proofs::Telling::not_clear))]
fn unless_clear(check: Retrying<Recheck>) -> Option<Retrying<Recheck>>
    ensures { result ≡ until_clear check }
{
    if clear(&check) {
        let_go(check);
        None
    } else {
        Some(check)
    }
}

/// Gives a check the outcome of a send. Returns whether it has then ended with Clear.
fn told_check(check: &mut Retrying<Recheck>, outcome: &Outcome) -> Result<bool, AllocError>
    requires asked { IsSome (check_wants check.old.machine) }
    requires fits { FitsOutcome FitsCheck check.old outcome.now }
    ensures ok { OnOk result (check.new ≡ stepped check_told check.old outcome.now) }
    ensures clear { IfOk result (λ clear. clear ≡ is_clear (check_over check.new.machine.operation)) }
    ensures err { OnErr result (check.new.machine ≡ check_told check.old.machine OutOfMemory) }
{
    match told(check, outcome) {
        Ok(()) => Ok(clear(check)),
        Err(error) => Err(error),
    }
}

impl Checked {
    /// Returns a commit after a check that has sent nothing yet. Takes no memory.
    pub fn new(check: Retrying<Recheck>, commit: CommitJob) -> Checked
        ensures { result ≡ record { check = until_clear check; commit = commit } }
    {
        let check = unless_clear(check);
        Checked { check, commit }
    }

    /// Returns the request to send now, or None if the operation has ended. Takes no memory.
    pub fn request(&self) -> Option<&Request>
        ensures { option_copied result ≡ checked_wants self.now.check self.now.commit }
    {
        match &self.check {
            Some(check) => check.request(),
            None => self.commit.request(),
        }
    }

    /// Takes the outcome of a send of the current request. After memory runs out the operation
    /// sends nothing more.
    #[tactic(auto, using(crate::proofs::Telling::past_clear, crate::proofs::Telling::not_clear, crate::proofs::Telling::check_wanting, crate::proofs::Telling::behind_wanting))]
    pub fn tell(&mut self, outcome: &Outcome) -> Result<(), AllocError>
        requires asked { IsSome (checked_wants self.old.check self.old.commit) }
        requires fits { FitsChecked self.old.check self.old.commit outcome.now }
        ensures ok { OnOk result (self.new ≡ checked_told self.old.check self.old.commit outcome.now) }
        ensures err { OnErr result (EndsWanting (checked_wants self.new.check self.new.commit) (checked_end self.new.check self.new.commit)) }
    {
        match &mut self.check {
            Some(check) => match told_check(check, outcome) {
                Ok(true) => {
                    put(&mut self.check, None);
                    Ok(())
                }
                Ok(false) => Ok(()),
                Err(error) => Err(error),
            },
            None => told_commit(&mut self.commit, outcome),
        }
    }

    /// Returns how the operation ended, or None while it has a request to send. A path in the end
    /// is shared, not copied; an error comes only if there is one.
    pub fn end(&self) -> Result<Option<OpEnd>, AllocError>
        ensures ok { IfOk result (λ end. end ≡ checked_end self.now.check self.now.commit) }
        ensures err { OnErr result (ends_with_path (checked_end self.now.check self.now.commit) ≡ true) }
    {
        match &self.check {
            Some(check) => ended_check(check.machine().end()),
            None => ended_commit(self.commit.end()),
        }
    }

    /// Returns the attempts whose sets the commit has read. Takes no memory.
    pub fn picks(&self) -> &PickList
        ensures { result.now ≡ picks_from 0 self.now.commit.picked }
    {
        self.commit.picks()
    }

    /// Consumes the operation and returns the job's plan. Takes no memory.
    pub fn into_plan(self) -> JobPlan
        ensures { result ≡ self.commit.plan }
    {
        let Checked { check, commit } = self;
        let_go(check);
        commit.into_plan()
    }

    /// Consumes the operation and returns the attempts whose sets the commit has read. Takes no
    /// memory.
    pub fn into_picks(self) -> PickList
        ensures { result ≡ picks_from 0 self.commit.picked }
    {
        let Checked { check, commit } = self;
        let_go(check);
        commit.into_picks()
    }
}
