ghost use Rattle.std.specs.List.{list_any};
ghost use Rattle.std.specs.Prelude.{◌≡◌, ◌≢◌, ◌<◌, ◌-◌, ◌^◌, ℕ, List, [], ◌∷◌, None, Some, cond, false, true, length, min, IfOk};
ghost use Rattle.std.specs.Prelude.{IfSome, OnOk};
ghost use Rattle.std.specs.FinMap as fin;
ghost use Rattle.audit_judge.specs.Following.{FollowsSome, Waits};
ghost use Rattle.audit_judge.specs.Changes.{paths_of};
ghost use Rattle.text_and_lists.specs.Order.{text_cmp};
ghost use Rattle.std.specs.List.Sorted.{IsStrictlySortedBy};
ghost use Rattle.audit_model.specs.Answers.{IsLeast, seen_paths};
ghost use Rattle.audit_model.specs.Moments.{marker_of};
ghost use Rattle.audit_model.specs.Recorded.{Recorded, attempt_after, begin, commit_after, copy_after, file_after, is_marker};
ghost use Rattle.audit_model.specs.Recorded.{object_after, stage_of};
ghost use Rattle.audit_objects.specs.Objects.{at};
ghost use Rattle.auditor.specs.inner.Destinations.{in_list};
ghost use Rattle.auditor.specs.AuditState.{At, Tells};
ghost use Rattle.auditor.specs.inner.AuditState.{AtSome, Stepped};
ghost use Rattle.auditor.specs.inner.Paths.{given};
ghost use Rattle.auditor.specs.SoFar.{IsTold, IsToldSome};
ghost use Rattle.auditor.specs.inner.Steps.{Answered, Begun, Opened, delete_after, no_paths, put_after};
ghost use Rattle.std.specs.List.{Contains};

use crate::destination::Destination;
use crate::paths::seen_paths;
use audit_claims::{Etags, FileFit};
use audit_judge::{Change, Judge, Reason};
use audit_objects::Objects;
use path_keys::S3Path;
use s3_types::{Text, TextList};
use soundness::{Keeps, Marker};
use std::alloc::{AllocError, Global};
use std::marker::Model;
use trace_reader::{TraceFault, TraceStage};

/// The knowledge of an audit about the lines so far, from the job's line on.
#[derive(Drop)]
pub struct Audit {
    alloc: Global,
    dest: Destination,
    judge: Judge,
    objects: Objects,
    changes: u64,
}

impl Model for Audit {
    ghost use Rattle.auditor.specs.Codes.{coded_held};
    ghost use Rattle.auditor.specs.AuditState.{AuditState};

    ghost Value = { AuditState };

    ghost coded = { coded_held };

    ghost view = { λ a. record { dest = a.dest; bench = a.judge; objects = a.objects; changes = a.changes } };
}

impl Audit {
    /// Returns an audit that knows only the line of a job. Fails only if memory runs out.
    pub(crate) fn begin(
        alloc: Global,
        dest: S3Path,
        keeps: Keeps,
        tasks: u32,
    ) -> Result<Audit, AllocError>
        ensures begun { IfOk result (λ a. At a (begin dest keeps tasks) []) }
    {
        Ok(Audit {
            alloc,
            dest: Destination::new(alloc, dest)?,
            judge: Judge::new(alloc, keeps, tasks),
            objects: Objects::new(alloc),
            changes: 0,
        })
    }

    /// Returns how far the trace has come.
    pub(crate) fn stage(&self) -> TraceStage
        ensures stage { (r : Recorded) → Tells self.now r → result ≡ stage_of (Some r) }
    {
        TraceStage {
            tasks: Some(self.judge.tasks()),
            attempted: self.judge.has_attempts(),
            running: self.judge.has_started(),
        }
    }

    /// Returns how many tasks the job has.
    pub fn tasks(&self) -> u32
        ensures tasks { (r : Recorded) → Tells self.now r → result ≡ r.tasks }
    {
        self.judge.tasks()
    }

    /// Returns how many requests changed something, at most 2^64 - 1.
    pub fn changes(&self) -> u64
        ensures changes { (r : Recorded) → Tells self.now r → result ≡ min r.changes (2 ^ 64 - 1) }
    {
        self.changes
    }

    /// Returns which success marker exists.
    pub fn marker(&self) -> Marker
        ensures marker { (r : Recorded) → Tells self.now r → result ≡ marker_of r }
        ensures same { result ≡ self.now.bench.marker }
    {
        self.judge.marker()
    }

    /// Returns the least number of an attempt of a task that explains what readers saw of it. A new
    /// success marker must exist.
    pub fn pick(&self, task: u32) -> Option<u32>
        requires told { IsToldSome self.now }
        requires new { self.now.bench.marker ≡ Marker.New }
        ensures least { (lines : List (List ℕ)) (t : IsTold self.now lines) → IfSome result (IsLeast lines t.said task) }
        ensures some { task < self.now.bench.tasks → result ≢ None }
    {
        self.judge.pick(task)
    }

    /// Adds an attempt of a task. Fails with Repeated if the attempt has come before.
    pub(crate) fn add_attempt(
        &mut self,
        task: u32,
        attempt: u32,
    ) -> Result<Option<Reason>, TraceFault>
        requires at { AtSome self.old }
        requires early { self.old.bench.started ≡ false }
        requires below { task < self.old.bench.tasks }
        ensures stepped { Stepped self.old self.new (attempt_after task attempt) no_paths result }
    {
        if self.judge.add_attempt(task, attempt)? {
            Ok(None)
        } else {
            Err(TraceFault::Repeated)
        }
    }

    /// Adds a file of the last attempt. Fails with Repeated if the attempt has the path already,
    /// and with SamePath if an attempt of another task has it.
    pub(crate) fn add_file(
        &mut self,
        path: Text,
        etags: TextList,
    ) -> Result<Option<Reason>, TraceFault>
        requires at { AtSome self.old }
        requires early { self.old.bench.started ≡ false }
        requires some { 0 < length self.old.bench.claimed.listed }
        ensures stepped { Stepped self.old self.new (file_after path etags) no_paths result }
    {
        let etags = Etags::new(self.alloc, etags)?;
        match self.judge.add_file(path, etags)? {
            FileFit::Added => Ok(None),
            FileFit::Repeated => Err(TraceFault::Repeated),
            FileFit::SamePath => Err(TraceFault::SamePath),
        }
    }

    /// Tells the judge of an object that existed when the run began.
    fn open(&mut self, bucket: &Text, key: &Text, etags: &Etags) -> Result<(), AllocError>
        requires waits { Waits self.old.bench }
        requires early { self.old.bench.started ≡ false }
        requires free { (p : List ℕ) → Contains (seen_paths self.old.dest bucket.now (key.now ∷ [])) p
            → fin.get self.old.bench.opening p ≡ None }
        ensures opened { OnOk result (Opened self.old self.new bucket.now key.now etags.now) }
    {
        match self.dest.path_of(self.alloc, bucket, key)? {
            Some(path) => self.judge.add_opening(path, etags.clone()?)?,
            None => {}
        }
        if self.dest.is_marker(bucket, key) {
            self.judge.mark_old();
        }
        Ok(())
    }

    /// Adds an object that existed when the run began. Fails with Repeated if the object has come
    /// before.
    pub(crate) fn add_object(
        &mut self,
        bucket: Text,
        key: Text,
        etags: TextList,
    ) -> Result<Option<Reason>, TraceFault>
        requires at { AtSome self.old }
        requires early { self.old.bench.started ≡ false }
        ensures stepped { Stepped self.old self.new (object_after bucket key etags) no_paths result }
    {
        if self.objects.get(&bucket, &key).is_some() {
            return Err(TraceFault::Repeated);
        }
        let etags = Etags::new(self.alloc, etags)?;
        self.open(&bucket, &key, &etags)?;
        self.objects.put(bucket, key, etags)?;
        Ok(None)
    }

    /// Begins the run, unless it has begun.
    fn start(&mut self) -> Result<(), AllocError>
        requires at { AtSome self.old }
        ensures begun { OnOk result (Begun self.old self.new) }
    {
        if !self.judge.has_started() {
            self.judge.start()?;
        }
        Ok(())
    }

    /// Notes that the commit begins. Fails with Repeated if it has begun.
    pub(crate) fn commit(&mut self) -> Result<Option<Reason>, TraceFault>
        requires at { AtSome self.old }
        ensures stepped { Stepped self.old self.new commit_after no_paths result }
    {
        if self.judge.has_begun() {
            return Err(TraceFault::Repeated);
        }
        self.start()?;
        self.judge.begin();
        Ok(None)
    }

    /// Tells the judge the changes of one more request, whose paths rise strictly by their bytes,
    /// and the marker that then exists.
    fn tell(&mut self, changes: Vec<Change>, marker: Marker) -> Result<Option<Reason>, AllocError>
        requires follows { FollowsSome self.old.bench }
        requires started { self.old.bench.started ≡ true }
        requires rising { IsStrictlySortedBy text_cmp (paths_of changes.items) }
        requires old { marker ≡ Marker.Old → self.old.bench.marker ≡ Marker.Old }
        ensures told { IfOk result (Answered self.old self.new changes.items marker) }
    {
        self.changes = self.changes.saturating_add(1);
        let reason = self.judge.change(changes, marker)?;
        Ok(reason)
    }

    /// Puts an object with the tags of this list.
    pub(crate) fn put(
        &mut self,
        bucket: Text,
        key: Text,
        etags: TextList,
    ) -> Result<Option<Reason>, TraceFault>
        requires at { AtSome self.old }
        ensures stepped { Stepped self.old self.new (put_after bucket key etags) (λ dest. seen_paths dest bucket (key ∷ [])) result }
    {
        let etags = Etags::new(self.alloc, etags)?;
        self.put_tags(bucket, key, etags)
    }

    /// Puts an object with these tags.
    fn put_tags(
        &mut self,
        bucket: Text,
        key: Text,
        etags: Etags,
    ) -> Result<Option<Reason>, TraceFault>
        requires at { AtSome self.old }
        ensures stepped { Stepped self.old self.new (put_after bucket key etags) (λ dest. seen_paths dest bucket (key ∷ [])) result }
    {
        self.start()?;
        let path = self.dest.path_of(self.alloc, &bucket, &key)?;
        let marker = marker_by(
            self.dest.is_marker(&bucket, &key),
            Marker::New,
            self.judge.marker(),
        );
        let changes = put_changes(self.alloc, path, &etags)?;
        self.objects.put(bucket, key, etags)?;
        let reason = self.tell(changes, marker)?;
        Ok(reason)
    }

    /// Copies an object. Fails with NoSource if there is none at its source.
    pub(crate) fn copy(
        &mut self,
        bucket: Text,
        source: Text,
        key: Text,
    ) -> Result<Option<Reason>, TraceFault>
        requires at { AtSome self.old }
        ensures stepped { Stepped self.old self.new (copy_after bucket source key) (λ dest. seen_paths dest bucket (key ∷ [])) result }
    {
        let Some(etags) = self.objects.get(&bucket, &source) else {
            return Err(TraceFault::NoSource);
        };
        let etags = etags.clone()?;
        self.put_tags(bucket, key, etags)
    }

    /// Deletes the objects at these keys of a bucket.
    pub(crate) fn delete(
        &mut self,
        bucket: Text,
        keys: TextList,
    ) -> Result<Option<Reason>, TraceFault>
        requires at { AtSome self.old }
        ensures stepped { Stepped self.old self.new (delete_after bucket keys) (λ dest. seen_paths dest bucket keys) result }
    {
        self.start()?;
        let paths = seen_paths(self.alloc, &self.dest, &bucket, keys.as_slice())?;
        let marker = marker_by(
            has_marker(&self.dest, &bucket, keys.as_slice()),
            Marker::Absent,
            self.judge.marker(),
        );
        let changes = paths.all_gone(self.alloc)?;
        self.objects.remove_all(&bucket, keys.as_slice());
        let reason = self.tell(changes, marker)?;
        Ok(reason)
    }
}

/// Returns the change after which readers see these tags at a path, if there is a path.
fn put_changes(alloc: Global, path: Option<Text>, etags: &Etags) -> Result<Vec<Change>, AllocError>
    ensures changes { IfOk result (λ changes. changes.items ≡ given (in_list path) (Some etags.now)) }
{
    let mut changes = Vec::new(alloc);
    match path {
        Some(path) => changes.push(Change {
            path,
            etags: Some(etags.clone()?),
        })?,
        None => {}
    }
    Ok(changes)
}

/// Returns whether the place of the success marker is among these keys of a bucket.
fn has_marker(dest: &Destination, bucket: &Text, keys: &[Text]) -> bool
    ensures has { result ≡ list_any (λ key. is_marker dest.now bucket.now key) keys.now }
{
    keys.iter().any(|key| dest.is_marker(bucket, key))
}

/// Returns the marker that exists after a change: `then` if the marker's place changed, else `was`.
fn marker_by(changed: bool, then: Marker, was: Marker) -> Marker
    ensures by { result ≡ cond changed then was }
{
    if changed { then } else { was }
}
