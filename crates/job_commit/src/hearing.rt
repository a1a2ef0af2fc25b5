ghost use Rattle.std.specs.Prelude.{◌≡◌, ◌<◌, ◌≤◌, length, map, drop, true, Some, IfOk, OnOk, OnErr, IsSome};
ghost use Rattle.std.specs.Option.{option_copied};
ghost use Rattle.pending_json.specs.Fault.{wanting as is_want};
ghost use Rattle.job_protocol.specs.JobCommits.{set_read, all_commits, Fetching};
ghost use Rattle.commit_lanes.specs.Undos.{undo_request};
ghost use Rattle.conflict.specs.Deletions.{FitsDeletion, deletion_hears, spared};
ghost use Rattle.conflict.specs.ChecksEnd.{commit_deleting};
ghost use Rattle.commit_lanes.specs.inner.Tables.{first_missed};
ghost use Rattle.job_commit.specs.inner.Stages.{operation_of, reverting_from, answered, unanswered, worn_out, wanting};
ghost use Rattle.commit_lanes.specs.Fitting.{SpellsSet, FitsReply, missed_of};
ghost use Rattle.job_commit.specs.inner.Holds.{script_of, HasRead, IsPlaced, IsAt, GoesTo, Hears, Misses, asks, PicksHold, bytes_in, Reads, LanesWithin, UndoWithin};

use crate::basis::Basis;
use crate::step::{Next, Step};
use commit_lanes::{Lanes, UndoList, next_turn, revert};
use conflict::DeleteKept;
use job_model::{CommitEnd, FaultStage, JobPlan, Pick, PickList};
use pending_json::{PendingSet, RecordFault};
use s3_types::{Bytes, Reply, let_go, put};
use std::alloc::{AllocError, Global};
use std::mem;

/// Returns the bytes in an answer, if it has any.
fn bytes_in(reply: &Reply) -> Option<&Bytes>
    ensures { option_copied result ≡ bytes_in reply.now }
{
    match reply {
        Reply::Object { bytes, header: _ } => Some(bytes),
        Reply::ClusterBytes(bytes) => Some(bytes),
        _ => None,
    }
}

/// Returns the AllocError that a fault stands for.
fn no_memory(fault: RecordFault) -> AllocError
    requires { is_want fault ≡ true }
{
    let_go(fault);
    AllocError
}

/// Returns the set in an answer.
fn read_set(alloc: Global, reply: &Reply) -> Result<PendingSet, AllocError>
    requires { IsSome (set_read reply.now) }
    ensures { IfOk result (λ set. set_read reply.now ≡ Some set) }
{
    let Some(bytes) = bytes_in(reply) else {
        unreachable!();
    };
    match PendingSet::read(alloc, bytes.as_slice()) {
        Ok(set) => Ok(set),
        Err(fault) => Err(no_memory(fault)),
    }
}

/// Returns the task after those of the chosen attempts.
fn task_at(plan: &JobPlan, picks: &PickList) -> u32
    requires { length picks.now < plan.now.tasks }
    ensures { result ≡ length picks.now }
{
    let _ = &plan.tasks;
    picks.len() as u32
}

impl Basis {
    /// Keeps one more set that was read, and chooses its attempt.
    fn hear_set(
        &mut self,
        picks: &mut PickList,
        missed: u32,
        next: &mut Next,
        reply: &Reply,
    ) -> Result<(), AllocError>
        requires reads { Reads self.old.plan self.old.sets }
        requires picks { PicksHold self.old.plan self.old.sets picks.old }
        requires wanting { next.old ≡ wanting }
        requires fits { SpellsSet self.old.plan (length self.old.sets) (set_read reply.now) }
        ensures ok { OnOk result (Hears self.old picks.old (Fetching self.old.sets missed) reply.now self.new picks.new
            next.new) }
        ensures picks { PicksHold self.new.plan self.new.sets picks.new }
        ensures err { OnErr result ((picks.new ≡ picks.old) × (next.new ≡ wanting)) }
        ensures plan { self.new.plan ≡ self.old.plan }
    {
        let set = read_set(self.alloc, reply)?;
        let attempt = set.attempt;
        self.sets.push(set)?;
        self.fetching(next)?;
        let task = task_at(&self.plan, picks);
        match picks.push(Pick { task, attempt }) {
            Ok(()) => Ok(()),
            Err(error) => {
                next.end(CommitEnd::NoMemory);
                Err(error)
            }
        }
    }

    /// Takes the answer to a request of the deletion.
    fn hear_deletion(
        &self,
        deletion: DeleteKept,
        next: &mut Next,
        reply: &Reply,
    ) -> Result<(), AllocError>
        requires all { HasRead self.now }
        requires spared { deletion.spared ≡ spared self.now.plan.dest }
        requires fits { FitsDeletion deletion reply.now }
        ensures ok { OnOk result (GoesTo self.now
            (commit_deleting (script_of self.now) self.now.sets (deletion_hears deletion reply.now)) next.new) }
        ensures err { OnErr result (next.new ≡ next.old) }
    {
        let mut deletion = deletion;
        match deletion.hear(self.alloc, reply) {
            Ok(()) => self.deleting(deletion, next),
            Err(error) => {
                let_go(deletion);
                Err(error)
            }
        }
    }

    /// Takes the answer to a completion. Its lane goes on with its next upload, if it has one.
    fn hear_completion(&self, lanes: Lanes, next: &mut Next) -> Result<(), AllocError>
        requires all { HasRead self.now }
        requires within { LanesWithin self.now.sets lanes }
        ensures ok { OnOk result (GoesTo self.now (answered self.now.plan self.now.sets lanes.turns lanes.finished)
            next.new) }
        ensures err { OnErr result (next.new ≡ next.old) }
    {
        let mut lanes = lanes;
        match lanes.first() {
            Some(turn) => {
                let plan = &self.plan;
                lanes.go_on(next_turn(plan.lanes, self.places.len(), turn.number()))?;
                lanes.finish(turn.number())?;
                self.completing(lanes, next)
            }
            None => self.completing(lanes, next),
        }
    }

    /// Takes a completion without an answer, which is sent again at its lane's next turn.
    fn miss_completion(&self, lanes: Lanes, lost: bool, next: &mut Next) -> Result<(), AllocError>
        requires all { HasRead self.now }
        requires within { LanesWithin self.now.sets lanes }
        requires missed { first_missed lanes.turns < self.now.plan.retries }
        ensures ok { OnOk result (GoesTo self.now (unanswered self.now.sets lost lanes.turns lanes.finished) next.new) }
        ensures err { OnErr result (next.new ≡ next.old) }
    {
        let _ = &self.plan.retries;
        let mut lanes = lanes;
        match lanes.first() {
            Some(turn) => {
                lanes.go_on(Some(turn.again(lost)))?;
                self.completing(lanes, next)
            }
            None => self.completing(lanes, next),
        }
    }

    /// Takes a completion that exhausted its retries, and starts the revert.
    fn wear_completion(&self, lanes: Lanes, next: &mut Next) -> Result<(), AllocError>
        requires all { HasRead self.now }
        requires within { LanesWithin self.now.sets lanes }
        ensures ok { OnOk result (GoesTo self.now (worn_out self.now.sets lanes.turns lanes.finished) next.new) }
        ensures err { OnErr result (next.new ≡ next.old) }
    {
        let mut lanes = lanes;
        match lanes.first() {
            Some(turn) => {
                lanes.go_on(None)?;
                let undo = revert(self.alloc, turn.number(), &lanes, self.places.len())?;
                self.reverting(undo, next)
            }
            None => self.completing(lanes, next),
        }
    }

    /// Goes on to the next request of the revert after the first was answered or exhausted its
    /// retries.
    fn undo_on(&self, undo: UndoList, next: &mut Next) -> Result<(), AllocError>
        requires places { IsPlaced self.now }
        requires within { UndoWithin self.now.sets undo }
        ensures ok { OnOk result (GoesTo self.now
            (reverting_from 0 (map (undo_request (all_commits self.now.sets)) (drop 1 undo))) next.new) }
        ensures err { OnErr result (next.new ≡ next.old) }
    {
        let mut undo = undo;
        undo.drop_first();
        self.reverting(undo, next)
    }

    /// Takes an answer and goes on from there.
    pub fn heard(
        &mut self,
        picks: &mut PickList,
        step: Step,
        next: &mut Next,
        reply: &Reply,
    ) -> Result<(), AllocError>
        requires step { IsAt self.old step }
        requires picks { PicksHold self.old.plan self.old.sets picks.old }
        requires wanting { next.old ≡ wanting }
        requires fits { FitsReply self.old.plan (operation_of self.old.sets step) reply.now }
        ensures ok { OnOk result (Hears self.old picks.old (operation_of self.old.sets step) reply.now self.new
            picks.new next.new) }
        ensures picks { PicksHold self.new.plan self.new.sets picks.new }
        ensures err { OnErr result ((picks.new ≡ picks.old) × (next.new ≡ wanting)) }
        ensures plan { self.new.plan ≡ self.old.plan }
    {
        match step {
            Step::Fetching(missed) => self.hear_set(picks, missed, next, reply),
            Step::Replacing(deletion, _) => self.hear_deletion(deletion, next, reply),
            Step::Completing(lanes) => self.hear_completion(lanes, next),
            Step::Marking(_) => {
                next.end(CommitEnd::Committed);
                Ok(())
            }
            Step::Reverting(undo, _) => self.undo_on(undo, next),
            Step::Over(end) => {
                next.end(end);
                Ok(())
            }
        }
    }

    /// Takes a send without an answer, of a request that will be sent again.
    pub fn again(&self, next: &mut Next, lost: bool) -> Result<(), AllocError>
        requires step { IsAt self.now next.old.step }
        requires asked { next.old.asked ≡ asks self.now.plan (operation_of self.now.sets next.old.step) }
        requires missed { missed_of (operation_of self.now.sets next.old.step) < self.now.plan.retries }
        ensures ok { OnOk result (Misses self.now next.old.step lost next.new) }
        ensures err { OnErr result (next.new ≡ wanting) }
    {
        match mem::replace(&mut next.step, Step::Over(CommitEnd::NoMemory)) {
            Step::Completing(lanes) => {
                put(&mut next.asked, None);
                self.miss_completion(lanes, lost, next)
            }
            step => {
                let plan = &self.plan;
                let _ = &plan.retries;
                put(&mut next.step, step.counted());
                Ok(())
            }
        }
    }

    /// Takes a request that exhausted its retries.
    pub fn worn(&self, step: Step, next: &mut Next, lost: bool) -> Result<(), AllocError>
        requires step { IsAt self.now step }
        requires missed { self.now.plan.retries ≤ missed_of (operation_of self.now.sets step) }
        ensures ok { OnOk result (Misses self.now step lost next.new) }
        ensures err { OnErr result (next.new ≡ next.old) }
    {
        match step {
            Step::Over(end) => {
                next.end(end);
                Ok(())
            }
            Step::Fetching(_) => {
                next.end(CommitEnd::StoreFault(FaultStage::Read));
                Ok(())
            }
            Step::Replacing(_, _) => {
                next.end(CommitEnd::StoreFault(FaultStage::Delete));
                Ok(())
            }
            Step::Marking(_) => {
                next.end(CommitEnd::StoreFault(FaultStage::Success));
                Ok(())
            }
            Step::Completing(lanes) => self.wear_completion(lanes, next),
            Step::Reverting(undo, _) => self.undo_on(undo, next),
        }
    }
}
