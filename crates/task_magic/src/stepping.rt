ghost use Rattle.std.specs.Prelude.{◌≡◌, ℕ, ◌+◌, ◌<◌, Bool, length, true, false, Some, None, IfOk, OnErr};
ghost use Rattle.s3_types.specs.declared.reply.Reply.TheVariants.{Upload, Part, Refused};
ghost use Rattle.s3_types.specs.declared.reply.Refusal.TheVariants.{NoSuchUpload};
ghost use Rattle.s3_types.specs.Tags.{is_plain_tag};
ghost use Rattle.retries.specs.Retries.{Got};
ghost use Rattle.job_protocol.specs.AtWork.{write_told};
ghost use Rattle.task_requests.specs.Writing.{dir_of, is_new, Holds, IsWrite, seen_write, write_fits};
ghost use Rattle.task_requests.specs.inner.Writing.{ended_by};

use job_model::{TaskEnd, TaskPlan};
use path_keys::S3Path;
use s3_types::{Key, Reply, Request, Tag, Text};
use std::alloc::{AllocError, Global};
use task_requests::{
    WriteStage, ask, ask_behind, begin_upload, behind, file_at, note_part, tag_in, target,
    upload_in,
};

/// The state of a write after a step, and its next request.
#[derive(Drop)]
pub struct Turned {
    pub place: usize,
    pub stage: WriteStage,
    pub end: Option<TaskEnd>,
    pub asked: Option<Request>,
}

/// Returns the end of a write whose next request is this one: None while there is one, else Done.
/// Takes no memory.
fn ended_by(asked: &Option<Request>) -> Option<TaskEnd>
    ensures { result ≡ ended_by asked.now }
{
    match asked {
        Some(_) => None,
        None => Some(TaskEnd::Done),
    }
}

/// Goes to a stage of the file at a place, or ends the write if no file is left.
pub fn turn(
    alloc: Global,
    plan: &TaskPlan,
    dir: &S3Path,
    place: usize,
    stage: WriteStage,
) -> Result<Turned, AllocError>
    requires dir { dir.now ≡ dir_of plan.now }
    requires holds { Holds plan.now place stage }
    ensures at { IfOk result (λ x. seen_write plan.now x.place x.stage x.end ≡ seen_write plan.now place stage None) }
    ensures kept { IfOk result (λ x. IsWrite plan.now dir.now x.place x.stage x.end x.asked) }
{
    let asked = ask(alloc, plan, dir, place, stage)?;
    let end = ended_by(&asked);
    Ok(Turned {
        place,
        stage,
        end,
        asked,
    })
}

/// Notes the upload that S3 created for the current file. If memory runs out, the plan is
/// unchanged.
fn begin(
    alloc: Global,
    plan: &mut TaskPlan,
    dir: &S3Path,
    place: usize,
    upload: u64,
) -> Result<Turned, AllocError>
    requires dir { dir.now ≡ dir_of plan.old }
    requires within { place < length plan.old.files }
    requires new { is_new upload plan.old.known.drawn ≡ true }
    ensures told { IfOk result (λ x. (b : Bool)
        → seen_write plan.new x.place x.stage x.end ≡ write_told (seen_write plan.old place WriteStage.Creating None)
        (Got (Upload upload) b)) }
    ensures kept { IfOk result (λ x. IsWrite plan.new dir.now x.place x.stage x.end x.asked) }
    ensures err { OnErr result (plan.new ≡ plan.old) }
{
    match begin_upload(alloc, plan, place, upload) {
        Ok(asked) => Ok(Turned {
            place,
            stage: WriteStage::Sending(0),
            end: None,
            asked: Some(asked),
        }),
        Err(error) => Err(error),
    }
}

/// Notes a part of the current file that S3 acknowledged.
fn add_part(
    alloc: Global,
    plan: &mut TaskPlan,
    dir: &S3Path,
    place: usize,
    sent: u64,
    tag: Tag,
) -> Result<Turned, AllocError>
    requires dir { dir.now ≡ dir_of plan.old }
    requires within { place < length plan.old.files }
    requires holds { Holds plan.old place (WriteStage.Sending sent) }
    requires plain { is_plain_tag tag ≡ true }
    ensures told { IfOk result (λ x. (b : Bool)
        → seen_write plan.new x.place x.stage x.end ≡ write_told
        (seen_write plan.old place (WriteStage.Sending sent) None) (Got (Part tag) b)) }
    ensures kept { IfOk result (λ x. IsWrite plan.new dir.now x.place x.stage x.end x.asked) }
    ensures err { OnErr result (plan.new ≡ plan.old) }
{
    let Some((path, bytes)) = file_at(plan, place) else {
        unreachable!();
    };
    let (stage, size) = behind(plan, bytes, sent);
    let asked = ask_behind(alloc, plan, dir, path, bytes, stage)?;
    match note_part(plan, asked, tag, size) {
        Ok(asked) => Ok(Turned {
            place,
            stage,
            end: None,
            asked: Some(asked),
        }),
        Err(error) => Err(error),
    }
}

/// Returns the name of a missing upload, which is its key.
pub fn name_of(key: Key) -> Result<Text, AllocError>
    ensures { IfOk result (λ name. name ≡ key) }
{
    let name = key.as_text().clone()?;
    Ok(name)
}

/// Ends the write because the upload of the current file does not exist.
fn stop_gone(
    alloc: Global,
    plan: &TaskPlan,
    dir: &S3Path,
    place: usize,
    sent: u64,
) -> Result<Turned, AllocError>
    requires dir { dir.now ≡ dir_of plan.now }
    requires within { place < length plan.now.files }
    requires holds { Holds plan.now place (WriteStage.Sending sent) }
    ensures told { IfOk result (λ x. (b : Bool)
        → seen_write plan.now x.place x.stage x.end ≡ write_told
        (seen_write plan.now place (WriteStage.Sending sent) None) (Got (Refused NoSuchUpload) b)) }
    ensures kept { IfOk result (λ x. IsWrite plan.now dir.now x.place x.stage x.end x.asked) }
{
    let Some((path, _)) = file_at(plan, place) else {
        unreachable!();
    };
    let key = target(alloc, plan, path)?;
    let name = name_of(key)?;
    Ok(Turned {
        place,
        stage: WriteStage::Sending(sent),
        end: Some(TaskEnd::Gone(name)),
        asked: None,
    })
}

/// Returns the place of the next file. Takes no memory.
fn next_place(plan: &TaskPlan, place: usize) -> usize
    requires { place < length plan.now.files }
    ensures { result ≡ place + 1 }
{
    let _files = &plan.files;
    place + 1
}

/// Takes the reply to the current request and goes on from there. If memory runs out, the plan is
/// unchanged.
pub fn advance(
    alloc: Global,
    plan: &mut TaskPlan,
    dir: &S3Path,
    place: usize,
    stage: WriteStage,
    reply: &Reply,
) -> Result<Turned, AllocError>
    requires dir { dir.now ≡ dir_of plan.old }
    requires within { place < length plan.old.files }
    requires holds { Holds plan.old place stage }
    requires fits { write_fits (seen_write plan.old place stage None) reply.now false }
    ensures told { IfOk result (λ x. (b : Bool)
        → seen_write plan.new x.place x.stage x.end ≡ write_told (seen_write plan.old place stage None)
        (Got reply.now b)) }
    ensures kept { IfOk result (λ x. IsWrite plan.new dir.now x.place x.stage x.end x.asked) }
    ensures err { OnErr result (plan.new ≡ plan.old) }
{
    match stage {
        WriteStage::Creating => match upload_in(reply) {
            Some(upload) => begin(alloc, plan, dir, place, upload),
            None => unreachable!(),
        },
        WriteStage::Sending(sent) => match tag_in(reply) {
            Some(tag) => add_part(alloc, plan, dir, place, sent, tag),
            None => stop_gone(alloc, plan, dir, place, sent),
        },
        WriteStage::Marking => turn(alloc, plan, dir, place, WriteStage::Recording),
        WriteStage::Recording => {
            let next = next_place(plan, place);
            turn(alloc, plan, dir, next, WriteStage::Creating)
        }
    }
}
