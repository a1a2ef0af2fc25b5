ghost use Rattle.std.specs.Prelude.{◌≡◌, ◌+◌, ◌++◌, ◌∷◌, ◌<◌, ◌≤◌, Bool, true, false, length, drop, get_or, [], IfOk, OnOk, OnErr, Some, None};
ghost use Rattle.s3_types.specs.declared.request.Committer.TheVariants.{Magic};
ghost use Rattle.s3_types.specs.Tags.{is_plain_tag};
ghost use Rattle.retries.specs.Retries.{Got, WornOut};
ghost use Rattle.job_protocol.specs.AtWork.{task_script, who_of, task_commit_wants, task_commit_told, with_known};
ghost use Rattle.job_protocol.specs.Records.{file_key, file_record};
ghost use Rattle.job_protocol.specs.Knowledge.{drawn_last};
ghost use Rattle.job_protocol.specs.TaskCommits.{TaskCommitOver, renamed};
ghost use Rattle.conflict.specs.Checks.{is_none};
ghost use Rattle.s3_types.specs.declared.reply.Reply.TheVariants.{Part};
ghost use Rattle.task_requests.specs.Writing.{next_stage, one_more, part_behind, parts_in};
ghost use Rattle.task_operation.specs.Commits.{commit_fits};
ghost use Rattle.task_staging.specs.Staging.{commit_of, Keeps};
ghost use Rattle.task_staging.specs.inner.Staging.{seen, IsAt, CameBack, Heard, IsLastPart, is_no_file, stores, worn_known};

use crate::opening::to_check;
use crate::requests::{check_request, next_request, part_request, rename_request, temporary};
use conflict::CheckAbsent;
use job_model::{DrawnPart, TaskEnd, TaskPlan};
use machine::Asked;
use pending_json::{PendingSet, PendingUpload};
use s3_types::{Refusal, Reply, Sequence, Tag, Text, both, put};
use std::alloc::{AllocError, Global};
use task_operation::{TaskMachine, TaskState, TheCommit};
use task_requests::{
    WriteStage, begin_upload, behind, file_at, job_of, last_drawn, note_part, pending_with, tag_in,
    target, upload_in,
};

/// How far a commit has come.
#[derive(Clone, Copy)]
pub enum StagingStage {
    /// Checks the next partition. If none is left, creates the next file's upload, and if no file
    /// is left either, puts the set.
    Opening,
    /// Sends the next part of the file; this many parts have been sent.
    Sending(u64),
    /// Renames the set.
    Renaming,
}

/// A commit in progress: the check of the partitions, the set of the uploaded files, how many these
/// are, the stage, and how it ended.
#[derive(Drop)]
pub struct Staging {
    pub checks: CheckAbsent,
    pub set: PendingSet,
    pub place: usize,
    pub stage: StagingStage,
    pub end: Option<TaskEnd>,
}

/// A staging attempt's commit of its task, in these steps:
///
/// - For the partitioned committer in mode `fail`, it looks for a key below each partition that it
///   writes. A key ends it with Conflict.
/// - It uploads its files, in the script's order.
/// - It puts the set of their uploads into its temporary file in the cluster's file system.
/// - It renames that file to the task's set, which publishes the set. A repeated rename that finds
///   nothing counts as done.
///
/// Gone names the key of an upload that does not exist, or the path of the temporary file. (Hadoop,
/// S3A committer architecture: task commit.)
pub type CommitTask = TaskMachine<TheCommit, Staging>;

fn is_no_file(reply: &Reply) -> bool
    ensures { result ≡ is_no_file reply.now }
{
    match reply {
        Reply::Refused(Refusal::NoSuchFile) => true,
        _ => false,
    }
}

/// Returns how the commit ends after this reply to the rename. A repeated rename that finds nothing
/// is done.
fn renamed_end(
    alloc: Global,
    plan: &TaskPlan,
    reply: &Reply,
    repeated: bool,
) -> Result<TaskEnd, AllocError>
    ensures { IfOk result (λ end. TaskCommitOver end ≡ renamed (task_script plan.now) (who_of plan.now) reply.now
        repeated) }
{
    if !is_no_file(reply) || repeated {
        return Ok(TaskEnd::Done);
    }
    let name = temporary(alloc, plan)?;
    Ok(TaskEnd::Gone(name))
}

/// Returns the key of the file at a place, whose upload does not exist.
fn gone_name(alloc: Global, plan: &TaskPlan, place: usize) -> Result<Text, AllocError>
    requires { place < length plan.now.files }
    ensures { IfOk result (λ name. name ≡ file_key (task_script plan.now) (get_or plan.now.files place ([], []))) }
{
    let Some((path, _)) = file_at(plan, place) else {
        unreachable!();
    };
    let key = target(alloc, plan, path)?;
    let name = key.as_text().clone()?;
    Ok(name)
}

/// Adds the record of the file at a place, whose last part was acknowledged.
fn add_record(
    alloc: Global,
    plan: &TaskPlan,
    place: usize,
    part: &DrawnPart,
    records: &mut Sequence<PendingUpload>,
) -> Result<(), AllocError>
    requires { IsLastPart plan.now place part.now.tag part.now.size }
    ensures { let f = get_or plan.now.files place ([], []) in OnOk result
        (records.new ≡ records.old ++ file_record (task_script plan.now) (who_of plan.now) f
        (one_more part.now.tag part.now.size (drawn_last plan.now.known)) ∷ []) }
{
    let Some((path, bytes)) = file_at(plan, place) else {
        unreachable!();
    };
    let Some(drawn) = last_drawn(&plan.known) else {
        unreachable!();
    };
    let record = pending_with(alloc, plan, path, bytes, drawn, part)?;
    records.push(record)
}

/// Notes that the put of the set was sent. Takes no memory.
fn tell_put(plan: &mut TaskPlan)
    ensures { plan.new ≡ with_known plan.old (record {
      drawn = plan.old.known.drawn;
      put_sent = true;
      publish_sent = plan.old.known.publish_sent;
    }) }
{
    plan.known.tell_put_sent();
}

/// Notes that the rename was sent. Takes no memory.
fn tell_rename(plan: &mut TaskPlan)
    ensures { plan.new ≡ with_known plan.old (record {
      drawn = plan.old.known.drawn;
      put_sent = plan.old.known.put_sent;
      publish_sent = true;
    }) }
{
    plan.known.tell_publish_sent();
}

/// Returns the stage that follows part `sent + 1` of the file at a place, and the length in bytes
/// of that part.
fn behind_at(plan: &TaskPlan, place: usize, sent: u64) -> (WriteStage, u64)
    requires within { place < length plan.now.files }
    requires sent { sent < length (parts_in plan.now (get_or plan.now.files place ([], []))) }
    ensures stage { result.0 ≡ next_stage sent (length (parts_in plan.now (get_or plan.now.files place ([], [])))) }
    ensures size { let f = get_or plan.now.files place ([], []) in result.1 ≡ length (part_behind plan.now f.1 sent) }
{
    let Some((_, bytes)) = file_at(plan, place) else {
        unreachable!();
    };
    behind(plan, bytes, sent)
}

impl Staging {
    /// Returns the next request at the stage `Opening`.
    fn open_request(&self, alloc: Global, plan: &TaskPlan) -> Asked
        requires { IsAt plan.now self.now StagingStage.Opening }
        ensures { IfOk result (λ request. request ≡ task_commit_wants (seen plan.now self.now)) }
    {
        if !self.checks.is_over() {
            return check_request(alloc, plan, &self.checks);
        }
        match next_request(alloc, plan, &self.set, self.place) {
            Ok(request) => Ok(Some(request)),
            Err(error) => Err(error),
        }
    }

    /// Returns the next request while a file is uploaded.
    fn part_request(&self, alloc: Global, plan: &TaskPlan, sent: u64) -> Asked
        requires { IsAt plan.now self.now (StagingStage.Sending sent) }
        ensures { IfOk result (λ request. request ≡ task_commit_wants (seen plan.now self.now)) }
    {
        match part_request(alloc, plan, self.place, sent) {
            Ok(request) => Ok(Some(request)),
            Err(error) => Err(error),
        }
    }

    /// Returns the next request after the set was put.
    fn rename_request(&self, alloc: Global, plan: &TaskPlan) -> Asked
        requires { IsAt plan.now self.now StagingStage.Renaming }
        ensures { IfOk result (λ request. request ≡ task_commit_wants (seen plan.now self.now)) }
    {
        match rename_request(alloc, plan) {
            Ok(request) => Ok(Some(request)),
            Err(error) => Err(error),
        }
    }

    /// Takes the reply to the check of a partition.
    fn hear_check(&mut self, alloc: Global, plan: &TaskPlan, reply: &Reply) -> Asked
        requires at { IsAt plan.now self.old StagingStage.Opening }
        requires some { is_none self.old.checks ≡ false }
        ensures { Heard plan.now plan.now self.old self.new reply.now result }
    {
        match self.checks.hear(reply)? {
            Some(partition) => {
                self.finish(TaskEnd::Conflict(partition));
                Ok(None)
            }
            None => self.ask(alloc, plan),
        }
    }

    /// Takes the reply to the creation of the next file's upload.
    fn hear_upload(&mut self, alloc: Global, plan: &mut TaskPlan, reply: &Reply) -> Asked
        requires at { IsAt plan.old self.old StagingStage.Opening }
        requires none { is_none self.old.checks ≡ true }
        requires within { self.old.place < length plan.old.files }
        requires fits { commit_fits (seen plan.old self.old) reply.now false }
        ensures { Heard plan.old plan.new self.old self.new reply.now result }
    {
        let _ = job_of(plan);
        let Some(upload) = upload_in(reply) else {
            unreachable!();
        };
        match begin_upload(alloc, plan, self.place, upload) {
            Ok(asked) => {
                self.stage = StagingStage::Sending(0);
                Ok(Some(asked))
            }
            Err(error) => Err(error),
        }
    }

    /// Takes the reply to the put of the set.
    fn hear_stored(&mut self, alloc: Global, plan: &mut TaskPlan, reply: &Reply) -> Asked
        requires at { IsAt plan.old self.old StagingStage.Opening }
        requires none { is_none self.old.checks ≡ true }
        requires behind { length plan.old.files ≤ self.old.place }
        ensures { Heard plan.old plan.new self.old self.new reply.now result }
    {
        let _ = reply;
        match rename_request(alloc, plan) {
            Ok(asked) => {
                tell_put(plan);
                self.stage = StagingStage::Renaming;
                Ok(Some(asked))
            }
            Err(error) => Err(error),
        }
    }

    /// Notes an acknowledged part that is not the file's last.
    fn send_next(
        &mut self,
        alloc: Global,
        plan: &mut TaskPlan,
        sent: u64,
        part: &DrawnPart,
    ) -> Asked
        requires at { IsAt plan.old self.old (StagingStage.Sending sent) }
        requires more { sent + 1 < length (parts_in plan.old (get_or plan.old.files self.old.place ([], []))) }
        requires part { CameBack plan.old self.old.place sent part.now }
        ensures { Heard plan.old plan.new self.old self.new (Part part.now.tag) result }
    {
        let _ = job_of(plan);
        let asked = part_request(alloc, plan, self.place, sent + 1)?;
        match note_part(plan, asked, part.tag, part.size) {
            Ok(asked) => {
                self.stage = StagingStage::Sending(sent + 1);
                Ok(Some(asked))
            }
            Err(error) => Err(error),
        }
    }

    /// Notes the last part of a file.
    fn close(&mut self, alloc: Global, plan: &mut TaskPlan, sent: u64, part: &DrawnPart) -> Asked
        requires at { IsAt plan.old self.old (StagingStage.Sending sent) }
        requires last { length (parts_in plan.old (get_or plan.old.files self.old.place ([], []))) ≤ sent + 1 }
        requires part { CameBack plan.old self.old.place sent part.now }
        ensures { Heard plan.old plan.new self.old self.new (Part part.now.tag) result }
    {
        let _ = job_of(plan);
        add_record(alloc, plan, self.place, part, &mut self.set.commits)?;
        let place = self.place + 1;
        let asked = next_request(alloc, plan, &self.set, place)?;
        match note_part(plan, asked, part.tag, part.size) {
            Ok(asked) => {
                self.place = place;
                self.stage = StagingStage::Opening;
                Ok(Some(asked))
            }
            Err(error) => Err(error),
        }
    }

    /// Notes an acknowledged part.
    fn add_part(&mut self, alloc: Global, plan: &mut TaskPlan, sent: u64, tag: Tag) -> Asked
        requires at { IsAt plan.old self.old (StagingStage.Sending sent) }
        requires plain { is_plain_tag tag ≡ true }
        ensures { Heard plan.old plan.new self.old self.new (Part tag) result }
    {
        let (stage, size) = behind_at(plan, self.place, sent);
        let part = DrawnPart { tag, size };
        match stage {
            WriteStage::Sending(_) => self.send_next(alloc, plan, sent, &part),
            _ => self.close(alloc, plan, sent, &part),
        }
    }

    /// Takes the reply to the send of a part.
    fn hear_part(&mut self, alloc: Global, plan: &mut TaskPlan, sent: u64, reply: &Reply) -> Asked
        requires at { IsAt plan.old self.old (StagingStage.Sending sent) }
        requires fits { commit_fits (seen plan.old self.old) reply.now false }
        ensures { Heard plan.old plan.new self.old self.new reply.now result }
    {
        match tag_in(reply) {
            Some(tag) => self.add_part(alloc, plan, sent, tag),
            None => {
                let name = gone_name(alloc, plan, self.place)?;
                self.finish(TaskEnd::Gone(name));
                Ok(None)
            }
        }
    }

    /// Takes the reply to the rename.
    fn hear_rename(
        &mut self,
        alloc: Global,
        plan: &mut TaskPlan,
        reply: &Reply,
        repeated: bool,
    ) -> Asked
        requires { IsAt plan.old self.old StagingStage.Renaming }
        ensures keeps { OnOk result (Keeps plan.new self.new) }
        ensures told { OnOk result (seen plan.new self.new ≡ task_commit_told (seen plan.old self.old)
            (Got reply.now repeated)) }
        ensures next { IfOk result (λ request. request ≡ task_commit_wants (seen plan.new self.new)) }
        ensures err { OnErr result (plan.new ≡ plan.old) }
    {
        let end = renamed_end(alloc, plan, reply, repeated)?;
        tell_rename(plan);
        self.finish(end);
        Ok(None)
    }

    /// Takes the reply to a request of the stage `Opening`.
    fn hear_opening(&mut self, alloc: Global, plan: &mut TaskPlan, reply: &Reply) -> Asked
        requires at { IsAt plan.old self.old StagingStage.Opening }
        requires fits { commit_fits (seen plan.old self.old) reply.now false }
        ensures { Heard plan.old plan.new self.old self.new reply.now result }
    {
        if !self.checks.is_over() {
            return self.hear_check(alloc, plan, reply);
        }
        if self.place < plan.files.len() {
            return self.hear_upload(alloc, plan, reply);
        }
        self.hear_stored(alloc, plan, reply)
    }

    /// Takes the reply to the current request and goes on from there. If memory runs out, the plan
    /// is unchanged, and the caller must end the commit.
    fn go_on(&mut self, alloc: Global, plan: &mut TaskPlan, reply: &Reply, repeated: bool) -> Asked
        requires keeps { Keeps plan.old self.old }
        requires fits { commit_fits (seen plan.old self.old) reply.now repeated }
        ensures keeps { OnOk result (Keeps plan.new self.new) }
        ensures told { OnOk result (seen plan.new self.new ≡ task_commit_told (seen plan.old self.old)
            (Got reply.now repeated)) }
        ensures next { IfOk result (λ request. request ≡ task_commit_wants (seen plan.new self.new)) }
        ensures err { OnErr result (plan.new ≡ plan.old) }
    {
        let None = &self.end else {
            return Ok(None);
        };
        match self.stage {
            StagingStage::Opening => self.hear_opening(alloc, plan, reply),
            StagingStage::Sending(sent) => self.hear_part(alloc, plan, sent, reply),
            StagingStage::Renaming => self.hear_rename(alloc, plan, reply, repeated),
        }
    }

    /// Returns whether the current request is the put of the set. Takes no memory.
    fn stores(&self, plan: &TaskPlan) -> bool
        ensures { result ≡ stores plan.now self.now }
    {
        if !self.checks.is_over() {
            return false;
        }
        plan.files.len() <= self.place
    }

    /// Notes in the plan the request that was sent at the stage `Opening`. Takes no memory.
    fn tell_opening(&self, plan: &mut TaskPlan)
        requires { IsAt plan.old self.now StagingStage.Opening }
        ensures { plan.new ≡ with_known plan.old (worn_known (commit_of plan.old self.now) plan.old.known) }
    {
        if !self.stores(plan) {
            return;
        }
        tell_put(plan);
    }

    /// Notes in the plan the request that was sent. Takes no memory.
    fn tell_sent(&self, plan: &mut TaskPlan)
        requires { Keeps plan.old self.now }
        ensures { plan.new ≡ with_known plan.old (worn_known (commit_of plan.old self.now) plan.old.known) }
    {
        let None = &self.end else {
            return;
        };
        match self.stage {
            StagingStage::Opening => self.tell_opening(plan),
            StagingStage::Sending(_) => {}
            StagingStage::Renaming => tell_rename(plan),
        }
    }
}

impl TaskState<TheCommit> for Staging {
    ghost goes_by = { λ plan. plan.job.committer ≡ Magic → ⊥ };

    ghost keeps = { Keeps };

    ghost operation = { commit_of };

    fn begin(alloc: Global, plan: &TaskPlan) -> Result<Staging, AllocError> {
        let (partitions, job) = both(to_check(alloc, plan), job_of(plan).job.clone())?;
        let set = PendingSet {
            job,
            task: plan.task,
            attempt: plan.attempt,
            commits: Sequence::new(alloc),
        };
        Ok(Staging {
            checks: CheckAbsent::new(partitions),
            set,
            place: 0,
            stage: StagingStage::Opening,
            end: None,
        })
    }

    fn ask(&self, alloc: Global, plan: &TaskPlan) -> Asked {
        let None = &self.end else {
            return Ok(None);
        };
        match self.stage {
            StagingStage::Opening => self.open_request(alloc, plan),
            StagingStage::Sending(sent) => self.part_request(alloc, plan, sent),
            StagingStage::Renaming => self.rename_request(alloc, plan),
        }
    }

    fn hear(&mut self, alloc: Global, plan: &mut TaskPlan, reply: &Reply, repeated: bool) -> Asked {
        match self.go_on(alloc, plan, reply, repeated) {
            Ok(next) => Ok(next),
            Err(error) => {
                self.finish(TaskEnd::NoMemory);
                Err(error)
            }
        }
    }

    fn wear(&mut self, plan: &mut TaskPlan) {
        self.tell_sent(plan);
        self.finish(TaskEnd::StoreFault);
    }

    fn finish(&mut self, end: TaskEnd)
        ensures { self.new ≡ record {
          checks = self.old.checks;
          set = self.old.set;
          place = self.old.place;
          stage = self.old.stage;
          end = Some end;
        } }
    {
        put(&mut self.end, Some(end));
    }

    fn end(&self, plan: &TaskPlan) -> Option<&TaskEnd> {
        let _ = plan;
        self.end.as_ref()
    }
}
