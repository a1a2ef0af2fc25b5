ghost use Rattle.std.specs.Prelude.{◌≡◌, [], IfOk, OnOk, IsSome};
ghost use Rattle.std.specs.Option.{option_copied};
ghost use Rattle.job_protocol.specs.AtWork.{job_script};
ghost use Rattle.job_protocol.specs.Rechecks.{Looking, CheckOver, check_asks, check_hears, check_over};
ghost use Rattle.list_walk.specs.Walks.{keys_on};
ghost use Rattle.list_walk.specs.Fitting.{FitsPage};
ghost use Rattle.conflict.specs.Checks.{found_below, left_after};
ghost use Rattle.conflict.specs.Rechecks.{check_of_plan};
ghost use Rattle.conflict.specs.Held.{check_at, check_of};
ghost use Rattle.conflict.specs.inner.Held.{after_key};
ghost use Rattle.conflict.specs.Fits.{FitsLook};

use crate::absent::CheckAbsent;
use crate::check_plan::CheckPlan;
use crate::displacing::checks_partitions;
use job_model::{CheckEnd, JobPlan};
use job_setup::{checks_all, first_shown, page_request};
use list_walk::KeyWalk;
use s3_types::{Reply, Request, Sequence, Text, TextList, put};
use std::alloc::{AllocError, Global};

/// The stage of a check before a commit.
#[derive(Clone, Copy)]
pub enum CheckStage {
    /// Looks for a file in the whole destination.
    Looking,
    /// Looks for a key below each of the partitions that are left.
    Probing,
    Over,
}

/// A check in progress: its stage, the walk, the partitions left to check, and the end once it is
/// over.
#[derive(Drop)]
pub struct CheckState {
    pub stage: CheckStage,
    pub walk: KeyWalk,
    pub partitions: CheckAbsent,
    pub end: CheckEnd,
}

/// Returns these texts, shared with the argument.
fn shared_texts(alloc: Global, texts: &[Text]) -> Result<TextList, AllocError>
    ensures { IfOk result (λ copy. copy ≡ texts.now) }
{
    let mut copy = Vec::with_capacity(alloc, texts.len())?;
    for text in texts {
        copy.push(text.clone()?)?;
    }
    Ok(Sequence::from_vec(copy))
}

impl CheckState {
    /// Returns a check at a stage, with these partitions to check, that has sent nothing yet. Takes
    /// no memory.
    fn begun(alloc: Global, stage: CheckStage, partitions: TextList) -> CheckState
        ensures { check_of result ≡ check_at stage [] partitions CheckEnd.Clear }
    {
        CheckState {
            stage,
            walk: KeyWalk::new(alloc),
            partitions: CheckAbsent::new(partitions),
            end: CheckEnd::Clear,
        }
    }

    /// Returns the check of a plan, which has sent nothing yet.
    pub fn new(alloc: Global, plan: &CheckPlan) -> Result<CheckState, AllocError>
        ensures { IfOk result (λ held. check_of held ≡ check_of_plan plan.now) }
    {
        let job = &plan.job;
        if checks_all(job.committer, job.mode) {
            return Ok(CheckState::begun(alloc, CheckStage::Looking, TextList::new(alloc)));
        }
        if checks_partitions(job.committer, job.mode) {
            let partitions = shared_texts(alloc, plan.partitions.as_slice())?;
            return Ok(CheckState::begun(alloc, CheckStage::Probing, partitions));
        }
        Ok(CheckState::begun(alloc, CheckStage::Over, TextList::new(alloc)))
    }

    /// Ends the check with `end`. Takes no memory.
    pub fn finish(&mut self, end: CheckEnd)
        ensures { check_of self.new ≡ CheckOver end }
    {
        put(&mut self.end, end);
        self.stage = CheckStage::Over;
    }

    /// Returns how the check ended, or None while it has a request to send. Takes no memory.
    pub fn end(&self) -> Option<&CheckEnd>
        ensures { option_copied result ≡ check_over (check_of self.now) }
    {
        match self.stage {
            CheckStage::Looking => None,
            CheckStage::Probing if self.partitions.is_over() => Some(&self.end),
            CheckStage::Probing => None,
            CheckStage::Over => Some(&self.end),
        }
    }

    /// Returns the next request, or None if the check is over.
    pub fn request(&self, alloc: Global, plan: &JobPlan) -> Result<Option<Request>, AllocError>
        ensures { IfOk result (λ request. request ≡ check_asks (job_script plan.now) (check_of self.now)) }
    {
        match self.stage {
            CheckStage::Looking => page_request(alloc, &plan.dest, &self.walk),
            CheckStage::Probing => self.partitions.request(alloc, &plan.dest),
            CheckStage::Over => Ok(None),
        }
    }

    fn hear_page(&mut self, alloc: Global, plan: &JobPlan, reply: &Reply) -> Result<(), AllocError>
        requires stage { self.old.stage ≡ CheckStage.Looking }
        requires fits { FitsPage reply.now }
        ensures { OnOk result (check_of self.new ≡ check_hears (job_script plan.now) (Looking (keys_on self.old.walk))
            reply.now) }
    {
        let Reply::Page { entries, .. } = reply else {
            return Ok(());
        };
        if let Some(path) = first_shown(alloc, plan, entries.as_slice())? {
            self.finish(CheckEnd::Conflict(path));
            return Ok(());
        }
        if self.walk.hear(reply)? {
            return Ok(());
        }
        self.finish(CheckEnd::Clear);
        Ok(())
    }

    fn hear_key(&mut self, reply: &Reply) -> Result<(), AllocError>
        requires { self.old.stage ≡ CheckStage.Probing }
        ensures { OnOk result (check_of self.new ≡ after_key (found_below self.old.partitions reply.now)
            (left_after self.old.partitions reply.now)) }
    {
        if let Some(partition) = self.partitions.hear(reply)? {
            self.finish(CheckEnd::Conflict(partition));
            return Ok(());
        }
        if self.partitions.is_over() {
            self.finish(CheckEnd::Clear);
        }
        Ok(())
    }

    /// Takes the reply to the current request.
    pub fn hear(&mut self, alloc: Global, plan: &JobPlan, reply: &Reply) -> Result<(), AllocError>
        requires asked { IsSome (check_asks (job_script plan.now) (check_of self.old)) }
        requires fits { FitsLook (check_of self.old) reply.now }
        ensures { OnOk result (check_of self.new ≡ check_hears (job_script plan.now) (check_of self.old) reply.now) }
    {
        match self.stage {
            CheckStage::Looking => self.hear_page(alloc, plan, reply),
            CheckStage::Probing => self.hear_key(reply),
            CheckStage::Over => Ok(()),
        }
    }
}
