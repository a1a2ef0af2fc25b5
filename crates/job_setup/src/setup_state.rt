ghost use Rattle.std.specs.Prelude.{◌≡◌, false, IfOk, OnOk};
ghost use Rattle.job_protocol.specs.AtWork.{job_script};
ghost use Rattle.job_protocol.specs.Conflicts.{checks_all};
ghost use Rattle.list_walk.specs.Walks.{keys_on, sweep_hears, all_go};
ghost use Rattle.job_protocol.specs.Setup.{SetupOver, setup_start, setup_asks, setup_hears, lacks_bucket, headed, checked, cleared, sweeping};
ghost use Rattle.job_setup.specs.Held.{setup_of};
ghost use Rattle.job_setup.specs.inner.Held.{found_nothing};
ghost use Rattle.list_walk.specs.Fitting.{FitsPage, FitsSweep};
ghost use Rattle.job_setup.specs.Fits.{FitsSetup};

use crate::files::first_shown;
use crate::requests::{clear_request, head_request, page_request, sweep_request};
use job_model::{JobPlan, SetupEnd};
use list_walk::{AllKeys, KeyWalk, Sweep};
use s3_types::{Committer, Mode, Refusal, Reply, Request, put};
use std::alloc::{AllocError, Global};

/// The stage of a set-up.
#[derive(Clone, Copy)]
pub enum SetupStage {
    /// Looks at the destination's own key.
    Heading,
    /// Looks for a file below the destination.
    Checking,
    /// Deletes the marker of an earlier job.
    Clearing,
    /// Empties the job's magic directory.
    Sweeping,
    Over,
}

/// A set-up in progress: its stage, the walk, the sweep, and the end once it is over.
#[derive(Drop)]
pub struct SetupState {
    pub stage: SetupStage,
    pub walk: KeyWalk,
    pub sweep: Sweep,
    pub end: SetupEnd,
}

/// Returns whether a job's set-up looks for files below the destination. Takes no memory.
pub fn checks_all(committer: Committer, mode: Mode) -> bool
    ensures { result ≡ checks_all committer mode }
{
    match committer {
        Committer::Directory => match mode {
            Mode::Fail => true,
            Mode::Append => false,
            Mode::Replace => false,
        },
        _ => false,
    }
}

/// Returns whether a reply says that the bucket does not exist.
fn lacks_bucket(reply: &Reply) -> bool
    ensures { result ≡ lacks_bucket reply.now }
{
    match reply {
        Reply::Refused(refusal) => match refusal {
            Refusal::NoSuchBucket => true,
            _ => false,
        },
        _ => false,
    }
}

impl SetupState {
    /// Returns a set-up that has sent nothing yet. Takes no memory.
    pub fn new(alloc: Global) -> SetupState
        ensures { setup_of result ≡ setup_start }
    {
        SetupState {
            stage: SetupStage::Heading,
            walk: KeyWalk::new(alloc),
            sweep: Sweep::new(alloc),
            end: SetupEnd::Done,
        }
    }

    /// Ends the set-up with `end`. Takes no memory.
    pub fn finish(&mut self, end: SetupEnd)
        ensures { setup_of self.new ≡ SetupOver end }
    {
        put(&mut self.end, end);
        self.stage = SetupStage::Over;
    }

    /// Returns the next request, or None if the set-up is over.
    pub fn request(&self, alloc: Global, plan: &JobPlan) -> Result<Option<Request>, AllocError>
        ensures { IfOk result (λ request. request ≡ setup_asks (job_script plan.now) (setup_of self.now)) }
    {
        match self.stage {
            SetupStage::Heading => head_request(&plan.dest),
            SetupStage::Checking => page_request(alloc, &plan.dest, &self.walk),
            SetupStage::Clearing => clear_request(alloc, &plan.dest),
            SetupStage::Sweeping => sweep_request(alloc, &plan.dest, &plan.job, &self.sweep),
            SetupStage::Over => Ok(None),
        }
    }

    /// Goes on after a reply that there is no object at the destination's own key.
    fn find_nothing(&mut self, alloc: Global, plan: &JobPlan)
        ensures { setup_of self.new ≡ found_nothing (job_script plan.now) }
    {
        if checks_all(plan.committer, plan.mode) {
            put(&mut self.walk, KeyWalk::new(alloc));
            self.stage = SetupStage::Checking;
        } else {
            self.stage = SetupStage::Clearing;
        }
    }

    fn hear_head(&mut self, alloc: Global, plan: &JobPlan, reply: &Reply)
        ensures { setup_of self.new ≡ headed (job_script plan.now) reply.now }
    {
        match reply {
            Reply::Head { .. } => self.finish(SetupEnd::DestIsFile),
            _ => self.find_nothing(alloc, plan),
        }
    }

    fn hear_page(&mut self, alloc: Global, plan: &JobPlan, reply: &Reply) -> Result<(), AllocError>
        requires stage { self.old.stage ≡ SetupStage.Checking }
        requires fits { FitsPage reply.now }
        ensures { OnOk result (setup_of self.new ≡ checked (job_script plan.now) (keys_on self.old.walk) reply.now) }
    {
        let Reply::Page { entries, .. } = reply else {
            return Ok(());
        };
        if let Some(path) = first_shown(alloc, plan, entries.as_slice())? {
            self.finish(SetupEnd::Conflict(path));
            return Ok(());
        }
        if self.walk.hear(reply)? {
            return Ok(());
        }
        self.stage = SetupStage::Clearing;
        Ok(())
    }

    fn clear(&mut self, alloc: Global, committer: Committer)
        ensures { setup_of self.new ≡ cleared committer }
    {
        match committer {
            Committer::Magic => {
                put(&mut self.sweep, Sweep::new(alloc));
                self.stage = SetupStage::Sweeping;
            }
            _ => self.finish(SetupEnd::Done),
        }
    }

    fn hear_sweep(&mut self, alloc: Global, reply: &Reply) -> Result<(), AllocError>
        requires stage { self.old.stage ≡ SetupStage.Sweeping }
        requires fits { FitsSweep self.old.sweep reply.now }
        ensures { OnOk result (setup_of self.new ≡ sweeping (sweep_hears all_go self.old.sweep reply.now)) }
    {
        if self.sweep.hear(alloc, &AllKeys, reply)? {
            return Ok(());
        }
        self.finish(SetupEnd::Done);
        Ok(())
    }

    /// Takes a reply that does not say that the bucket is missing.
    fn hear_there(&mut self, alloc: Global, plan: &JobPlan, reply: &Reply) -> Result<(), AllocError>
        requires fits { FitsSetup (setup_of self.old) reply.now }
        requires there { lacks_bucket reply.now ≡ false }
        ensures { OnOk result (setup_of self.new ≡ setup_hears (job_script plan.now) (setup_of self.old) reply.now) }
    {
        match self.stage {
            SetupStage::Heading => {
                self.hear_head(alloc, plan, reply);
                Ok(())
            }
            SetupStage::Checking => self.hear_page(alloc, plan, reply),
            SetupStage::Clearing => {
                self.clear(alloc, plan.committer);
                Ok(())
            }
            SetupStage::Sweeping => self.hear_sweep(alloc, reply),
            SetupStage::Over => Ok(()),
        }
    }

    /// Takes the reply to the current request.
    pub fn hear(&mut self, alloc: Global, plan: &JobPlan, reply: &Reply) -> Result<(), AllocError>
        requires { FitsSetup (setup_of self.old) reply.now }
        ensures { OnOk result (setup_of self.new ≡ setup_hears (job_script plan.now) (setup_of self.old) reply.now) }
    {
        match self.stage {
            SetupStage::Over => Ok(()),
            _ => {
                if lacks_bucket(reply) {
                    self.finish(SetupEnd::NoSuchBucket);
                    return Ok(());
                }
                self.hear_there(alloc, plan, reply)
            }
        }
    }
}
