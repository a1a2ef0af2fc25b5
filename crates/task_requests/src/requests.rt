ghost use Rattle.std.specs.Prelude.{◌≡◌, ℕ, ◌+◌, ◌<◌, ◌≤◌, ◌++◌, ◌∷◌, [], length, true, IfOk, Some, None};
ghost use Rattle.s3_types.specs.declared.limits.TheConstants.{MOST_SCRIPT_BYTES};
ghost use Rattle.path_keys.specs.Paths.{below};
ghost use Rattle.pending_json.specs.Pending.{are_tags, are_sizes};
ghost use Rattle.job_model.specs.Plans.{IsTask};
ghost use Rattle.job_protocol.specs.AtWork.{task_script, who_of, write_wants};
ghost use Rattle.job_protocol.specs.Knowledge.{drawn_last};
ghost use Rattle.job_protocol.specs.Records.{file_record, marker_key, record_key, record_text, sizes_by};
ghost use Rattle.task_requests.specs.Writing.{dir_of, IsNamed, IsFile, HasSent, Holds, IsBehind, asks_behind, one_more, part_behind, parts_in, size_of, count_of, next_stage, seen_write};

use crate::cutting::{part, part_count, part_length, part_size};
use crate::drawn::{last_drawn, sizes_of, sizes_with, tags_of, tags_with};
use crate::names::{bucket_of, file_at, marker, record, target};
use crate::stage::WriteStage;
use job_model::{DrawnPart, DrawnUpload, TaskPlan};
use path_keys::S3Path;
use pending_json::PendingUpload;
use s3_types::{
    Bucket, Bytes, Committer, Key, LengthHeader, Request, SizeList, TagList, Text, both, let_go,
};
use std::alloc::{AllocError, Global};

/// Returns the part size in bytes for a file. Takes no memory.
fn size_of(plan: &TaskPlan, bytes: &Bytes) -> u64
    requires { length bytes.now ≤ MOST_SCRIPT_BYTES }
    ensures { result ≡ size_of plan.now bytes.now }
{
    part_size(bytes.as_slice().len() as u64, plan.block, plan.minimum)
}

/// Returns how many parts a file has. Takes no memory.
fn count_of(plan: &TaskPlan, bytes: &Bytes) -> u64
    requires task { IsTask plan.now }
    requires short { length bytes.now ≤ MOST_SCRIPT_BYTES }
    ensures { result ≡ count_of plan.now bytes.now }
{
    let size = size_of(plan, bytes);
    part_count(bytes.as_slice().len() as u64, size)
}

/// Returns the part sizes that a record lists: the magic committer's records list them, a staging
/// committer's do not. Takes no memory.
fn told_sizes(plan: &TaskPlan, sizes: SizeList) -> Option<SizeList>
    ensures { result ≡ sizes_by plan.now.job.committer sizes }
{
    match plan.job.committer {
        Committer::Magic => Some(sizes),
        _ => None,
    }
}

/// Returns the record of a file's upload, with these tags and sizes of its parts.
fn made_record(
    alloc: Global,
    plan: &TaskPlan,
    path: &Text,
    bytes: &Bytes,
    upload: u64,
    tags: TagList,
    sizes: SizeList,
) -> Result<PendingUpload, AllocError>
    requires file { IsFile plan.now (path.now, bytes.now) }
    requires tags { are_tags tags ≡ true }
    requires sizes { are_sizes (Some sizes) tags (length bytes.now) ≡ true }
    ensures { IfOk result (λ p. p ≡ file_record (task_script plan.now) (who_of plan.now) (path.now, bytes.now)
        (record { key = []; upload = upload; tags = tags; sizes = sizes })) }
{
    let Ok((destination, bucket)) = both(target(alloc, plan, path), bucket_of(plan).clone()) else {
        let_go(tags);
        let_go(sizes);
        return Err(AllocError);
    };
    let length = bytes.as_slice().len() as u64;
    let sizes = told_sizes(plan, sizes);
    Ok(PendingUpload::new(
        plan.task,
        plan.attempt,
        bucket,
        destination,
        upload,
        length,
        tags,
        sizes,
    ))
}

/// Returns the record of a file whose parts have all been acknowledged.
pub fn pending(
    alloc: Global,
    plan: &TaskPlan,
    path: &Text,
    bytes: &Bytes,
    drawn: &DrawnUpload,
) -> Result<PendingUpload, AllocError>
    requires file { IsFile plan.now (path.now, bytes.now) }
    requires tags { are_tags drawn.now.tags ≡ true }
    requires sizes { are_sizes (Some drawn.now.sizes) drawn.now.tags (length bytes.now) ≡ true }
    ensures { IfOk result (λ p. p ≡ file_record (task_script plan.now) (who_of plan.now) (path.now, bytes.now)
        drawn.now) }
{
    let (tags, sizes) = both(tags_of(alloc, drawn), sizes_of(alloc, drawn))?;
    made_record(alloc, plan, path, bytes, drawn.upload, tags, sizes)
}

/// Returns the record of a file whose last part, `part`, has just been acknowledged.
pub fn pending_with(
    alloc: Global,
    plan: &TaskPlan,
    path: &Text,
    bytes: &Bytes,
    drawn: &DrawnUpload,
    part: &DrawnPart,
) -> Result<PendingUpload, AllocError>
    requires file { IsFile plan.now (path.now, bytes.now) }
    requires tags { are_tags (drawn.now.tags ++ part.now.tag ∷ []) ≡ true }
    requires sizes { are_sizes (Some (drawn.now.sizes ++ part.now.size ∷ [])) (drawn.now.tags ++ part.now.tag ∷ [])
        (length bytes.now) ≡ true }
    ensures { IfOk result (λ p. p ≡ file_record (task_script plan.now) (who_of plan.now) (path.now, bytes.now)
        (one_more part.now.tag part.now.size drawn.now)) }
{
    let (tags, sizes) = both(
        tags_with(alloc, drawn, part),
        sizes_with(alloc, drawn, part),
    )?;
    made_record(alloc, plan, path, bytes, drawn.upload, tags, sizes)
}

/// Returns the request that aborts an upload.
pub fn abort_request(bucket: &Bucket, drawn: &DrawnUpload) -> Result<Option<Request>, AllocError>
    ensures { IfOk result (λ request. request ≡ Some (Request.AbortUpload bucket.now drawn.now.key drawn.now.upload)) }
{
    match Request::abort_upload(bucket, &drawn.key, drawn.upload) {
        Ok(request) => Ok(Some(request)),
        Err(error) => Err(error),
    }
}

/// Returns the request that creates a file's upload.
pub fn ask_upload(alloc: Global, plan: &TaskPlan, path: &Text) -> Result<Request, AllocError>
    requires { IsNamed plan.now path.now }
    ensures { IfOk result (λ r. r ≡ Request.CreateUpload plan.now.job.dest.bucket
        (below plan.now.job.dest.key path.now)) }
{
    let key = target(alloc, plan, path)?;
    Request::create_upload(bucket_of(plan), &key)
}

/// Returns the request that uploads to `key` the part that follows `behind` others.
pub fn ask_part(
    alloc: Global,
    plan: &TaskPlan,
    bytes: &Bytes,
    key: &Key,
    upload: u64,
    behind: u64,
) -> Result<Request, AllocError>
    requires task { IsTask plan.now }
    requires short { length bytes.now ≤ MOST_SCRIPT_BYTES }
    requires within { behind < count_of plan.now bytes.now }
    ensures { IfOk result (λ r. r ≡ Request.UploadPart plan.now.job.dest.bucket key.now upload (behind + 1)
        (part_behind plan.now bytes.now behind)) }
{
    let size = size_of(plan, bytes);
    let part = part(alloc, bytes, size, behind)?;
    Request::upload_part(bucket_of(plan), key, upload, behind as u32 + 1, &part)
}

/// Returns the put of a file's marker, which has no bytes and carries the file's length in its
/// header.
fn ask_marker(
    alloc: Global,
    plan: &TaskPlan,
    dir: &S3Path,
    path: &Text,
    length: LengthHeader,
) -> Result<Request, AllocError>
    requires dir { dir.now ≡ dir_of plan.now }
    requires named { IsNamed plan.now path.now }
    ensures { IfOk result (λ r. r ≡ Request.PutObject plan.now.job.dest.bucket
        (marker_key (task_script plan.now) (who_of plan.now) (path.now, [])) [] (Some length)) }
{
    let (key, bytes) = both(marker(alloc, plan, dir, path), Bytes::empty(alloc))?;
    let asked = Request::put_object(dir.bucket(), &key, &bytes, Some(length));
    let_go(key);
    let_go(bytes);
    asked
}

/// Returns the text of a file's record.
fn record_text(
    alloc: Global,
    plan: &TaskPlan,
    path: &Text,
    bytes: &Bytes,
) -> Result<Bytes, AllocError>
    requires file { IsFile plan.now (path.now, bytes.now) }
    requires sent { HasSent plan.now.known.drawn (parts_in plan.now (path.now, bytes.now)) }
    ensures { IfOk result (λ b. b ≡ record_text (task_script plan.now) (who_of plan.now) (path.now, bytes.now)
        (drawn_last plan.now.known)) }
{
    let Some(drawn) = last_drawn(&plan.known) else {
        unreachable!();
    };
    let pending = pending(alloc, plan, path, bytes, drawn)?;
    let text = pending.print(alloc);
    let_go(pending);
    text
}

fn ask_record(
    alloc: Global,
    plan: &TaskPlan,
    dir: &S3Path,
    path: &Text,
    bytes: &Bytes,
) -> Result<Request, AllocError>
    requires dir { dir.now ≡ dir_of plan.now }
    requires file { IsFile plan.now (path.now, bytes.now) }
    requires sent { HasSent plan.now.known.drawn (parts_in plan.now (path.now, bytes.now)) }
    ensures { IfOk result (λ r. r ≡ Request.PutObject plan.now.job.dest.bucket
        (record_key (task_script plan.now) (who_of plan.now) (path.now, bytes.now))
        (record_text (task_script plan.now) (who_of plan.now) (path.now, bytes.now) (drawn_last plan.now.known)) None) }
{
    let text = record_text(alloc, plan, path, bytes);
    let (key, text) = both(record(alloc, plan, dir, path), text)?;
    let asked = Request::put_object(dir.bucket(), &key, &text, None);
    let_go(key);
    let_go(text);
    asked
}

/// Returns the stage that follows part `sent + 1` of a file, and the length in bytes of that part.
/// Takes no memory.
pub fn behind(plan: &TaskPlan, bytes: &Bytes, sent: u64) -> (WriteStage, u64)
    requires task { IsTask plan.now }
    requires short { length bytes.now ≤ MOST_SCRIPT_BYTES }
    requires within { sent < count_of plan.now bytes.now }
    ensures stage { result.0 ≡ next_stage sent (count_of plan.now bytes.now) }
    ensures size { result.1 ≡ length (part_behind plan.now bytes.now sent) }
{
    let size = size_of(plan, bytes);
    let part = part_length(bytes.as_slice().len() as u64, size, sent);
    let count = count_of(plan, bytes);
    if sent + 1 < count {
        (WriteStage::Sending(sent + 1), part)
    } else {
        (WriteStage::Marking, part)
    }
}

/// Returns the request that sends the part after `sent` others to the newest upload.
pub fn ask_next(
    alloc: Global,
    plan: &TaskPlan,
    path: &Text,
    bytes: &Bytes,
    sent: u64,
) -> Result<Request, AllocError>
    requires file { IsFile plan.now (path.now, bytes.now) }
    requires within { IsBehind (parts_in plan.now (path.now, bytes.now)) plan.now.known.drawn
        (WriteStage.Sending sent) }
    ensures { IfOk result (λ r. r ≡ asks_behind plan.now (path.now, bytes.now) (WriteStage.Sending sent)) }
{
    let Some(drawn) = last_drawn(&plan.known) else {
        unreachable!();
    };
    let key = target(alloc, plan, path)?;
    ask_part(alloc, plan, bytes, &key, drawn.upload, sent)
}

/// Returns the request that follows a part: the next part for the newest upload, or the put of the
/// file's marker.
pub fn ask_behind(
    alloc: Global,
    plan: &TaskPlan,
    dir: &S3Path,
    path: &Text,
    bytes: &Bytes,
    stage: WriteStage,
) -> Result<Request, AllocError>
    requires dir { dir.now ≡ dir_of plan.now }
    requires file { IsFile plan.now (path.now, bytes.now) }
    requires within { IsBehind (parts_in plan.now (path.now, bytes.now)) plan.now.known.drawn stage }
    ensures { IfOk result (λ r. r ≡ asks_behind plan.now (path.now, bytes.now) stage) }
{
    let WriteStage::Sending(sent) = stage else {
        let length = LengthHeader::new(bytes.as_slice().len() as u64);
        return ask_marker(alloc, plan, dir, path, length);
    };
    ask_next(alloc, plan, path, bytes, sent)
}

/// Returns the request for this stage of the file at a place, or None if no file is left.
pub fn ask(
    alloc: Global,
    plan: &TaskPlan,
    dir: &S3Path,
    place: usize,
    stage: WriteStage,
) -> Result<Option<Request>, AllocError>
    requires dir { dir.now ≡ dir_of plan.now }
    requires holds { Holds plan.now place stage }
    ensures { IfOk result (λ asked. asked ≡ write_wants (seen_write plan.now place stage None)) }
{
    let Some((path, bytes)) = file_at(plan, place) else {
        return Ok(None);
    };
    let asked = match stage {
        WriteStage::Creating => ask_upload(alloc, plan, path)?,
        WriteStage::Sending(sent) => {
            ask_behind(alloc, plan, dir, path, bytes, WriteStage::Sending(sent))?
        }
        WriteStage::Marking => { ask_behind(alloc, plan, dir, path, bytes, WriteStage::Marking)? }
        WriteStage::Recording => ask_record(alloc, plan, dir, path, bytes)?,
    };
    Ok(Some(asked))
}
