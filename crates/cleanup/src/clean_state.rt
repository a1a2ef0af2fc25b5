ghost use Rattle.std.specs.Prelude.{◌≡◌, drop, IfOk, OnOk, true};
ghost use Rattle.job_protocol.specs.AtWork.{job_script};
ghost use Rattle.list_walk.specs.Walks.{walked_uploads, sweep_hears, all_go};
ghost use Rattle.job_protocol.specs.Cleanups.{clean_start, clean_asks, clean_hears, walking, aborting, sweeping, naming, removing};
ghost use Rattle.cleanup.specs.Held.{clean_of};
ghost use Rattle.cleanup.specs.inner.Held.{within_of, stage_after, abort_stage, remove_stage};
ghost use Rattle.cleanup.specs.Fits.{FitsClean};

use crate::listed::{next_place, shared_texts};
use crate::requests::{abort_request, names_request, remove_request, sweep_request, walk_request};
use job_model::{CleanEnd, JobPlan};
use list_walk::{AllKeys, Sweep, UploadWalk};
use s3_types::{Committer, Reply, Request, TextList, put};
use std::alloc::{AllocError, Global};

/// The stage of a clean.
#[derive(Clone, Copy)]
pub enum CleanStage {
    /// Lists live uploads.
    Walking,
    /// Aborts the upload at the current place.
    Aborting,
    /// Empties the job's magic directory.
    Sweeping,
    /// Lists the job's files in the cluster.
    Naming,
    /// Deletes the file at the current place.
    Removing,
    Over(CleanEnd),
}

/// A clean in progress: its stage, the uploads, the sweep, the cluster's paths, and the place among
/// the uploads or the paths.
#[derive(Drop)]
pub struct CleanState {
    pub stage: CleanStage,
    pub uploads: UploadWalk,
    pub sweep: Sweep,
    pub paths: TextList,
    pub at: usize,
}

/// Returns the stage after the last upload.
fn after_uploads(committer: Committer) -> CleanStage
    ensures { result ≡ stage_after committer }
{
    match committer {
        Committer::Magic => CleanStage::Sweeping,
        _ => CleanStage::Naming,
    }
}

fn stage_of_uploads(committer: Committer, at: usize, len: usize) -> CleanStage
    ensures { result ≡ abort_stage committer at len }
{
    if at < len {
        CleanStage::Aborting
    } else {
        after_uploads(committer)
    }
}

fn stage_of_paths(at: usize, len: usize) -> CleanStage
    ensures { result ≡ remove_stage at len }
{
    if at < len {
        CleanStage::Removing
    } else {
        CleanStage::Over(CleanEnd::Done)
    }
}

impl CleanState {
    /// Returns a clean that has sent nothing yet. Takes no memory.
    pub fn new(alloc: Global) -> CleanState
        ensures start { clean_of result ≡ clean_start }
        ensures within { within_of result ≡ true }
    {
        CleanState {
            stage: CleanStage::Walking,
            uploads: UploadWalk::new(alloc),
            sweep: Sweep::new(alloc),
            paths: TextList::new(alloc),
            at: 0,
        }
    }

    /// Returns the next request, or None if the clean is over.
    pub fn request(&self, alloc: Global, plan: &JobPlan) -> Result<Option<Request>, AllocError>
        ensures { IfOk result (λ request. request ≡ clean_asks (job_script plan.now) (clean_of self.now)) }
    {
        match self.stage {
            CleanStage::Walking => walk_request(alloc, &plan.dest, &self.uploads),
            CleanStage::Aborting => abort_request(
                plan.dest.bucket(),
                self.uploads.found().as_slice(),
                self.at,
            ),
            CleanStage::Sweeping => sweep_request(alloc, &plan.dest, &plan.job, &self.sweep),
            CleanStage::Naming => names_request(alloc, &plan.job),
            CleanStage::Removing => remove_request(self.paths.as_slice(), self.at),
            CleanStage::Over(_) => Ok(None),
        }
    }

    /// Goes to the abort of the upload at this place, or on if none is left.
    fn abort_from(&mut self, alloc: Global, committer: Committer, at: usize)
        ensures goes { clean_of self.new ≡ aborting committer (drop at self.old.uploads) }
        ensures within { within_of self.new ≡ true }
    {
        self.stage = stage_of_uploads(committer, at, self.uploads.found().len());
        self.at = at;
        put(&mut self.sweep, Sweep::new(alloc));
    }

    /// Goes to the deletion of the cluster file at this place, or ends if none is left.
    fn remove_from(&mut self, at: usize)
        ensures goes { clean_of self.new ≡ removing (drop at self.old.paths) }
        ensures within { within_of self.new ≡ true }
    {
        self.stage = stage_of_paths(at, self.paths.len());
        self.at = at;
    }

    fn hear_uploads(
        &mut self,
        alloc: Global,
        committer: Committer,
        reply: &Reply,
    ) -> Result<(), AllocError>
        requires stage { self.old.stage ≡ CleanStage.Walking }
        requires fits { FitsClean (clean_of self.old) reply.now }
        ensures goes { OnOk result (clean_of self.new ≡ walking committer (walked_uploads self.old.uploads reply.now)) }
        ensures within { within_of self.new ≡ true }
    {
        if self.uploads.hear(reply)? {
            return Ok(());
        }
        self.abort_from(alloc, committer, 0);
        Ok(())
    }

    fn hear_sweep(&mut self, alloc: Global, reply: &Reply) -> Result<(), AllocError>
        requires stage { self.old.stage ≡ CleanStage.Sweeping }
        requires fits { FitsClean (clean_of self.old) reply.now }
        ensures goes { OnOk result (clean_of self.new ≡ sweeping (sweep_hears all_go self.old.sweep reply.now)) }
        ensures within { within_of self.new ≡ true }
    {
        if self.sweep.hear(alloc, &AllKeys, reply)? {
            return Ok(());
        }
        self.stage = CleanStage::Over(CleanEnd::Done);
        Ok(())
    }

    fn hear_names(&mut self, alloc: Global, reply: &Reply) -> Result<(), AllocError>
        requires { self.old.stage ≡ CleanStage.Naming }
        ensures goes { OnOk result (clean_of self.new ≡ naming reply.now) }
        ensures within { within_of self.new ≡ true }
    {
        let Reply::ClusterNames(paths) = reply else {
            return Ok(());
        };
        let paths = shared_texts(alloc, paths.as_slice())?;
        put(&mut self.paths, paths);
        self.remove_from(0);
        Ok(())
    }

    /// Takes the reply to the current request.
    pub fn hear(&mut self, alloc: Global, plan: &JobPlan, reply: &Reply) -> Result<(), AllocError>
        requires there { within_of self.old ≡ true }
        requires fits { FitsClean (clean_of self.old) reply.now }
        ensures goes { OnOk result (clean_of self.new ≡ clean_hears (job_script plan.now) (clean_of self.old)
            reply.now) }
        ensures within { within_of self.new ≡ true }
    {
        match self.stage {
            CleanStage::Walking => self.hear_uploads(alloc, plan.committer, reply),
            CleanStage::Aborting => {
                let at = next_place(self.at, 1, self.uploads.found().len());
                self.abort_from(alloc, plan.committer, at);
                Ok(())
            }
            CleanStage::Sweeping => self.hear_sweep(alloc, reply),
            CleanStage::Naming => self.hear_names(alloc, reply),
            CleanStage::Removing => {
                let at = next_place(self.at, 1, self.paths.len());
                self.remove_from(at);
                Ok(())
            }
            CleanStage::Over(_) => Ok(()),
        }
    }
}
