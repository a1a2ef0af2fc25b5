ghost use Rattle.std.specs.Prelude.{◌≡◌, ◌<◌, ◌≤◌, [], length, map, Some, IfOk, OnOk, OnErr};
ghost use Rattle.job_protocol.specs.Lanes.{nth, dealt};
ghost use Rattle.job_protocol.specs.JobCommits.{all_commits, commit_asks, Marking, fetching, decided, replaced, replacing, completing, picks_of};
ghost use Rattle.job_protocol.specs.Outputs.{same_path, wanted_paths};
ghost use Rattle.job_protocol.specs.Conflicts.{partitions};
ghost use Rattle.list_walk.specs.Walks.{sweep_start};
ghost use Rattle.conflict.specs.Deletions.{deleted, deletion_asks, spared};
ghost use Rattle.conflict.specs.ChecksEnd.{commit_deleting};
ghost use Rattle.commit_lanes.specs.Undos.{undo_request, number_in};
ghost use Rattle.job_commit.specs.inner.Stages.{reverting_from};
ghost use Rattle.commit_lanes.specs.ReadSets.{AreRead};
ghost use Rattle.job_commit.specs.inner.Holds.{script_of, HasRead, IsPlaced, GoesTo, LanesWithin, UndoWithin};

use crate::basis::Basis;
use crate::step::{Next, Step};
use commit_lanes::{
    Lanes, Undo, UndoList, abort, completion, deletion, mark_request, placed, relative,
    set_request, shared, upload, wanted_paths,
};
use conflict::{DeleteKept, partitions};
use job_model::{CommitEnd, FaultStage};
use pending_json::PendingUpload;
use s3_types::{Mode, Request, let_go};
use std::alloc::AllocError;

impl Basis {
    /// Returns the upload with this number.
    fn upload_at(&self, number: usize) -> &PendingUpload
        requires places { IsPlaced self.now }
        requires within { number < length (all_commits self.now.sets) }
        ensures { result.now ≡ nth (all_commits self.now.sets) number }
    {
        upload(self.sets.as_slice(), self.places.as_slice(), number)
    }

    /// Returns the put of a committed job's marker.
    fn marking(&self) -> Result<Request, AllocError>
        requires { HasRead self.now }
        ensures { IfOk result (λ request. Some request ≡ commit_asks (script_of self.now) (Marking self.now.sets 0)) }
    {
        mark_request(
            self.alloc,
            &self.plan,
            self.sets.as_slice(),
            self.places.as_slice(),
        )
    }

    /// Goes to the next completion, or to the marker if no lane has one.
    pub fn completing(&self, lanes: Lanes, next: &mut Next) -> Result<(), AllocError>
        requires all { HasRead self.now }
        requires within { LanesWithin self.now.sets lanes }
        ensures ok { OnOk result (GoesTo self.now (completing self.now.sets lanes.turns lanes.finished) next.new) }
        ensures err { OnErr result (next.new ≡ next.old) }
    {
        match lanes.first() {
            Some(turn) => {
                let asked = completion(self.alloc, self.upload_at(turn.number()))?;
                next.go_on(Step::Completing(lanes), asked);
                Ok(())
            }
            None => {
                let asked = self.marking()?;
                next.go_on(Step::Marking(0), asked);
                Ok(())
            }
        }
    }

    /// Returns the end SamePath of the least path that two tasks write, with the two lowest such
    /// tasks, or None if there is no such path.
    fn shared_path(&self) -> Result<Option<CommitEnd>, AllocError>
        requires each { AreRead self.now.plan self.now.sets }
        requires all { length self.now.sets ≡ self.now.plan.tasks }
        ensures { IfOk result (λ end. end ≡ same_path (script_of self.now) (picks_of self.now.sets)) }
    {
        let plan = &self.plan;
        let dest = &plan.dest;
        match shared(self.alloc, self.sets.as_slice())? {
            Some(clash) => {
                let path = relative(self.alloc, dest, &clash.key)?;
                Ok(Some(CommitEnd::SamePath {
                    path,
                    first: clash.first,
                    second: clash.second,
                }))
            }
            None => Ok(None),
        }
    }

    /// Starts the completions, in lanes.
    fn dealing(&self, next: &mut Next) -> Result<(), AllocError>
        requires { HasRead self.now }
        ensures ok { OnOk result (GoesTo self.now
            (completing self.now.sets (dealt self.now.plan.lanes (length (all_commits self.now.sets))) []) next.new) }
        ensures err { OnErr result (next.new ≡ next.old) }
    {
        let plan = &self.plan;
        let lanes = Lanes::dealt(self.alloc, plan.lanes, self.places.len())?;
        self.completing(lanes, next)
    }

    /// Goes on with a deletion whose next request is `asked`, or starts the completions if that is
    /// None.
    fn delete_on(
        &self,
        deletion: DeleteKept,
        asked: Option<Request>,
        next: &mut Next,
    ) -> Result<(), AllocError>
        requires all { HasRead self.now }
        requires spared { deletion.spared ≡ spared self.now.plan.dest }
        requires asked { asked ≡ deletion_asks self.now.plan.dest.bucket deletion }
        ensures ok { OnOk result (GoesTo self.now (commit_deleting (script_of self.now) self.now.sets deletion)
            next.new) }
        ensures err { OnErr result (next.new ≡ next.old) }
    {
        match asked {
            Some(asked) => {
                next.go_on(Step::Replacing(deletion, 0), asked);
                Ok(())
            }
            None => {
                let_go(deletion);
                self.dealing(next)
            }
        }
    }

    /// Goes on with a deletion, or starts the completions if all is deleted.
    pub fn deleting(&self, deletion: DeleteKept, next: &mut Next) -> Result<(), AllocError>
        requires all { HasRead self.now }
        requires spared { deletion.spared ≡ spared self.now.plan.dest }
        ensures ok { OnOk result (GoesTo self.now (commit_deleting (script_of self.now) self.now.sets deletion)
            next.new) }
        ensures err { OnErr result (next.new ≡ next.old) }
    {
        match deletion.request(self.alloc, self.plan.dest.bucket()) {
            Ok(asked) => self.delete_on(deletion, asked, next),
            Err(error) => {
                let_go(deletion);
                Err(error)
            }
        }
    }

    /// Returns the deletion for the replace mode of the job's committer.
    fn replacement(&self) -> Result<DeleteKept, AllocError>
        requires { HasRead self.now }
        ensures { let w = script_of self.now in IfOk result (λ d. d ≡
            record {
              prefixes = deleted self.now.plan.committer self.now.plan.dest
                  (partitions (wanted_paths w (picks_of self.now.sets)));
              sweep = sweep_start;
              spared = spared self.now.plan.dest;
            }) }
    {
        let plan = &self.plan;
        let sets = self.sets.as_slice();
        let paths = wanted_paths(self.alloc, plan, sets, self.places.as_slice())?;
        let dirs = partitions(self.alloc, paths.as_slice())?;
        DeleteKept::new(self.alloc, &plan.dest, plan.committer, dirs.as_slice())
    }

    /// Starts the deletion of what the job's mode does not keep, or the completions if it keeps
    /// all.
    fn replacing(&self, next: &mut Next) -> Result<(), AllocError>
        requires { HasRead self.now }
        ensures ok { let w = script_of self.now in OnOk result
            (GoesTo self.now (replacing w self.now.sets (replaced self.now.plan.committer self.now.plan.mode w
            (picks_of self.now.sets))) next.new) }
        ensures err { OnErr result (next.new ≡ next.old) }
    {
        let plan = &self.plan;
        match plan.mode {
            Mode::Fail => self.dealing(next),
            Mode::Append => self.dealing(next),
            Mode::Replace => {
                let deletion = self.replacement()?;
                self.deleting(deletion, next)
            }
        }
    }

    /// Goes on after the last read: ends if two tasks write the same path, else starts the
    /// deletion.
    fn decided(&mut self, next: &mut Next) -> Result<(), AllocError>
        requires each { AreRead self.old.plan self.old.sets }
        requires all { length self.old.sets ≡ self.old.plan.tasks }
        ensures ok { OnOk result (GoesTo self.new
            (decided (script_of self.old) self.old.sets (same_path (script_of self.old) (picks_of self.old.sets)))
            next.new) }
        ensures err { OnErr result (next.new ≡ next.old) }
        ensures rest { self.new ≡ record self.old { places = self.new.places } }
    {
        match self.shared_path()? {
            Some(end) => {
                next.end(end);
                Ok(())
            }
            None => {
                self.places = placed(self.alloc, self.sets.as_slice())?;
                self.replacing(next)
            }
        }
    }

    /// Goes to the read of the next task's set, or on from the last one.
    pub fn fetching(&mut self, next: &mut Next) -> Result<(), AllocError>
        requires each { AreRead self.old.plan self.old.sets }
        requires few { length self.old.sets ≤ self.old.plan.tasks }
        ensures ok { OnOk result (GoesTo self.new (fetching (script_of self.old) self.old.sets) next.new) }
        ensures err { OnErr result (next.new ≡ next.old) }
        ensures rest { self.new ≡ record self.old { places = self.new.places } }
    {
        let plan = &self.plan;
        let count = self.sets.len();
        if count < plan.tasks as usize {
            let asked = set_request(self.alloc, plan, count as u32)?;
            next.go_on(Step::Fetching(0), asked);
            Ok(())
        } else {
            self.decided(next)
        }
    }

    /// Returns the request for a step of the revert.
    fn undo_request(&self, undo: Undo) -> Result<Request, AllocError>
        requires places { IsPlaced self.now }
        requires within { number_in undo < length (all_commits self.now.sets) }
        ensures { IfOk result (λ request. request ≡ undo_request (all_commits self.now.sets) undo) }
    {
        match undo {
            Undo::Abort(number) => abort(self.upload_at(number)),
            Undo::Delete(number) => deletion(self.upload_at(number)),
        }
    }

    /// Goes to the next request of the revert, or ends the commit if none is left.
    pub fn reverting(&self, undo: UndoList, next: &mut Next) -> Result<(), AllocError>
        requires places { IsPlaced self.now }
        requires within { UndoWithin self.now.sets undo }
        ensures ok { OnOk result (GoesTo self.now (reverting_from 0 (map (undo_request (all_commits self.now.sets))
            undo)) next.new) }
        ensures err { OnErr result (next.new ≡ next.old) }
    {
        match undo.first() {
            Some(step) => {
                let asked = self.undo_request(step)?;
                next.go_on(Step::Reverting(undo, 0), asked);
                Ok(())
            }
            None => {
                next.end(CommitEnd::StoreFault(FaultStage::Complete));
                Ok(())
            }
        }
    }
}
