ghost use Rattle.std.specs.Prelude.{◌≡◌, ◌+◌, ◌<◌, Bool, length, drop, true, false, IfOk, OnOk, OnErr, Some, None, option_map, slice_get};
ghost use Rattle.s3_types.specs.declared.request.Request.TheVariants.{GetObject};
ghost use Rattle.s3_types.specs.declared.request.Committer.TheVariants.{Magic};
ghost use Rattle.job_protocol.specs.AtWork.{task_script, who_of};
ghost use Rattle.list_walk.specs.Walks.{page_after, keys_on};
ghost use Rattle.job_protocol.specs.TaskCommits.{attempt_prefix, Looking, reading, task_commit_asks, task_commit_hears};
ghost use Rattle.task_requests.specs.Publishing.{picked};
ghost use Rattle.task_operation.specs.Commits.{FitsCommit};
ghost use Rattle.task_magic.specs.Committing.{HoldsCommit, commit_of, Keeps};
ghost use Rattle.task_magic.specs.inner.Committing.{IsListed, is_no_key, publishes, with_sent};

use crate::listing::{Listed, files_of_keys, missing, record_at};
use crate::stepping::name_of;
use job_model::{TaskEnd, TaskPlan};
use list_walk::KeyWalk;
use machine::Asked;
use s3_types::{Key, KeyList, Refusal, Reply, Request, Sequence, both, put};
use std::alloc::{AllocError, Global};
use task_operation::{TaskMachine, TaskState, TheCommit};
use task_requests::{bucket_of, prefix, publish_request};

/// A commit in progress:
///
/// - whether it still lists, and the keys listed so far;
/// - the places of the files that it commits, the keys of their records, and how many records it
///   has read;
/// - how it ended.
#[derive(Drop)]
pub struct Committing {
    pub listing: bool,
    pub walk: KeyWalk,
    pub places: Sequence<usize>,
    pub records: KeyList,
    pub at: usize,
    pub end: Option<TaskEnd>,
}

/// A magic attempt's commit of its task. It lists its own directory, reads the record of each of
/// its files in the order of the listing, and puts the set of these uploads, which publishes them.
/// It ends with Gone and a key if a record is missing: the least record key that is not listed, or
/// the key that a read did not find. (Hadoop, S3A committer architecture: task commit.)
pub type CommitTask = TaskMachine<TheCommit, Committing>;

/// Returns the request for the next page of the attempt's directory.
fn page_request(alloc: Global, plan: &TaskPlan, walk: &KeyWalk) -> Asked
    ensures { IfOk result (λ request. request ≡ Some (page_after plan.now.job.dest.bucket
        (attempt_prefix (task_script plan.now) (who_of plan.now)) (keys_on walk.now))) }
{
    let prefix = prefix(alloc, plan)?;
    match walk.request(bucket_of(plan), &prefix) {
        Ok(request) => Ok(Some(request)),
        Err(error) => Err(error),
    }
}

/// Finds the files whose records are among the keys that a walk has listed.
fn listed(alloc: Global, plan: &TaskPlan, walk: &KeyWalk) -> Result<Listed, AllocError>
    ensures { IfOk result (IsListed plan.now (keys_on walk.now)) }
{
    let (prefix, keys) = both(prefix(alloc, plan), walk.keys(alloc))?;
    files_of_keys(alloc, plan, &prefix, keys.as_slice())
}

/// Returns the read of the record at a key.
fn read_request(plan: &TaskPlan, key: &Key) -> Asked
    ensures { IfOk result (λ request. request ≡ Some (GetObject plan.now.job.dest.bucket key.now)) }
{
    match Request::get_object(bucket_of(plan), key) {
        Ok(request) => Ok(Some(request)),
        Err(error) => Err(error),
    }
}

/// Returns the key of record number `at`, counted from 0. Takes no memory.
fn record_key(records: &[Key], at: usize) -> Option<&Key>
    ensures { option_map (λ key. key.now) result ≡ slice_get records.now at }
{
    records.get(at)
}

/// Returns the read of record number `at`, or the put of the set if all records are read.
fn record_or_set(
    alloc: Global,
    plan: &TaskPlan,
    places: &[usize],
    records: &[Key],
    at: usize,
) -> Asked
    requires { HoldsCommit plan.now places.now records.now at }
    ensures { let cs = picked plan.now.files places.now in IfOk result
        (λ request. request ≡ task_commit_asks (task_script plan.now) (who_of plan.now) plan.now.known
        (reading cs (drop at cs))) }
{
    match record_key(records, at) {
        Some(key) => read_request(plan, key),
        None => publish_request(alloc, plan, places),
    }
}

fn is_no_key(reply: &Reply) -> bool
    ensures { result ≡ is_no_key reply.now }
{
    match reply {
        Reply::Refused(Refusal::NoSuchKey) => true,
        _ => false,
    }
}

/// Returns the place after `at`.
fn behind(at: usize, len: usize) -> usize
    requires { at < len }
    ensures { result ≡ at + 1 }
{
    at + 1
}

/// Notes in the plan that a request was sent, and whether it publishes. Takes no memory.
fn tell_sent(plan: &mut TaskPlan, publishes: bool)
    ensures { plan.new ≡ with_sent plan.old publishes }
{
    if publishes {
        plan.known.tell_publish_sent();
    }
}

impl Committing {
    /// Returns whether the current request publishes. Takes no memory.
    fn publishes(&self, plan: &TaskPlan) -> bool
        ensures { result ≡ publishes (commit_of plan.now self.now) }
    {
        let _ = plan;
        let None = &self.end else {
            return false;
        };
        !self.listing && self.places.len() <= self.at
    }

    /// Takes a page of the listing.
    fn hear_page(&mut self, alloc: Global, plan: &TaskPlan, reply: &Reply) -> Result<(), AllocError>
        requires end { self.old.end ≡ None }
        requires listing { self.old.listing ≡ true }
        requires keeps { Keeps plan.now self.old }
        requires fits { FitsCommit (task_script plan.now) (who_of plan.now) plan.now.known
            (Looking (keys_on self.old.walk)) reply.now }
        ensures keeps { Keeps plan.now self.new }
        ensures goes { OnOk result (commit_of plan.now self.new ≡ task_commit_hears (task_script plan.now)
            plan.now.minimum (who_of plan.now) (Looking (keys_on self.old.walk)) reply.now false) }
    {
        if self.walk.hear(reply)? {
            return Ok(());
        }
        let Listed {
            places,
            records,
            seen,
        } = listed(alloc, plan, &self.walk)?;
        put(&mut self.places, places);
        put(&mut self.records, records);
        self.at = 0;
        self.listing = false;
        let end = missing(alloc, plan, seen.as_slice())?;
        put(&mut self.end, end);
        Ok(())
    }

    /// Takes the reply to the read of the record of the file at a place.
    fn hear_record(
        &mut self,
        alloc: Global,
        plan: &TaskPlan,
        place: usize,
        reply: &Reply,
    ) -> Result<(), AllocError>
        requires end { self.old.end ≡ None }
        requires listing { self.old.listing ≡ false }
        requires at { Some place ≡ slice_get self.old.places self.old.at }
        requires keeps { Keeps plan.now self.old }
        requires fits { FitsCommit (task_script plan.now) (who_of plan.now) plan.now.known (commit_of plan.now self.old)
            reply.now }
        ensures keeps { Keeps plan.now self.new }
        ensures goes { OnOk result (commit_of plan.now self.new ≡ task_commit_hears (task_script plan.now)
            plan.now.minimum (who_of plan.now) (commit_of plan.now self.old) reply.now false) }
    {
        if is_no_key(reply) {
            let key = record_at(alloc, plan, place)?;
            let name = name_of(key)?;
            self.finish(TaskEnd::Gone(name));
            return Ok(());
        }
        self.at = behind(self.at, self.places.len());
        Ok(())
    }

    /// Takes the reply to the current request and goes on from there.
    fn go_on(&mut self, alloc: Global, plan: &TaskPlan, reply: &Reply) -> Result<(), AllocError>
        requires keeps { Keeps plan.now self.old }
        requires fits { FitsCommit (task_script plan.now) (who_of plan.now) plan.now.known (commit_of plan.now self.old)
            reply.now }
        ensures keeps { Keeps plan.now self.new }
        ensures goes { OnOk result (commit_of plan.now self.new ≡ task_commit_hears (task_script plan.now)
            plan.now.minimum (who_of plan.now) (commit_of plan.now self.old) reply.now false) }
    {
        let None = &self.end else {
            return Ok(());
        };
        if self.listing {
            return self.hear_page(alloc, plan, reply);
        }
        match self.places.as_slice().get(self.at) {
            Some(place) => {
                let place = *place;
                self.hear_record(alloc, plan, place, reply)
            }
            None => {
                self.finish(TaskEnd::Done);
                Ok(())
            }
        }
    }
}

impl TaskState<TheCommit> for Committing {
    ghost goes_by = { λ plan. plan.job.committer ≡ Magic };

    ghost keeps = { Keeps };

    ghost operation = { commit_of };

    fn begin(alloc: Global, plan: &TaskPlan) -> Result<Committing, AllocError> {
        let _ = plan;
        Ok(Committing {
            listing: true,
            walk: KeyWalk::new(alloc),
            places: Sequence::new(alloc),
            records: KeyList::new(alloc),
            at: 0,
            end: None,
        })
    }

    fn ask(&self, alloc: Global, plan: &TaskPlan) -> Asked {
        let None = &self.end else {
            return Ok(None);
        };
        if self.listing {
            return page_request(alloc, plan, &self.walk);
        }
        let places = self.places.as_slice();
        record_or_set(alloc, plan, places, self.records.as_slice(), self.at)
    }

    fn hear(&mut self, alloc: Global, plan: &mut TaskPlan, reply: &Reply, repeated: bool) -> Asked {
        let _ = repeated;
        let publishes = self.publishes(plan);
        self.go_on(alloc, plan, reply)?;
        match self.ask(alloc, plan) {
            Ok(next) => {
                tell_sent(plan, publishes);
                Ok(next)
            }
            Err(error) => Err(error),
        }
    }

    fn wear(&mut self, plan: &mut TaskPlan) {
        tell_sent(plan, self.publishes(plan));
        self.finish(TaskEnd::StoreFault);
    }

    fn finish(&mut self, end: TaskEnd)
        ensures { self.new ≡ record {
          listing = self.old.listing;
          walk = self.old.walk;
          places = self.old.places;
          records = self.old.records;
          at = self.old.at;
          end = Some end;
        } }
    {
        put(&mut self.end, Some(end));
    }

    fn end(&self, plan: &TaskPlan) -> Option<&TaskEnd> {
        let _ = plan;
        self.end.as_ref()
    }
}
