ghost use Rattle.std.specs.Prelude.{◌≡◌, ◌≤◌, ℕ, None, IfOk, OnOk, OnErr, map};
ghost use Rattle.std.specs.FinMap as fin;
ghost use Rattle.s3_types.specs.Tags.{joined_tag};
ghost use Rattle.s3_types.specs.Multipart as multi;
ghost use Rattle.s3_types.specs.Multipart.{live, joined};
ghost use Rattle.s3_types.specs.Answer.{part_answer, part_put, complete_answer, abort_answer, aborted, parts_answer, completed};

use crate::bucket::BucketStore;
use multipart::{UploadFault, Uploads};
use s3_types::{Bytes, Key, PageLimit, PartList, Refusal, Reply, Text, UploadRef};
use std::alloc::AllocError;

/// CreateMultipartUpload: starts an upload with the id `next`. If memory runs out, the uploads are
/// as before.
pub fn create(uploads: &mut Uploads, key: &Key, next: u64) -> Result<Reply, AllocError>
    requires { (i : ℕ) → next ≤ i → fin.get uploads.old i ≡ None }
    ensures reply { IfOk result (λ r. r ≡ Reply.Upload next) }
    ensures ok { OnOk result (uploads.new ≡ fin.insert uploads.old next (record { key = key.now; parts = fin.empty })) }
    ensures err { OnErr result (uploads.new ≡ uploads.old) }
{
    let key = key.clone()?;
    uploads.create(next, key)?;
    Ok(Reply::Upload(next))
}

/// UploadPart: stores the part and answers its tag, or why it is refused. If memory runs out,
/// everything is as before.
pub fn part(
    uploads: &mut Uploads,
    key: &Key,
    upload: u64,
    number: u32,
    bytes: &Bytes,
) -> Result<Reply, AllocError>
    ensures reply { IfOk result (λ r. r ≡ part_answer (live uploads.old key.now upload) number bytes.now) }
    ensures ok { OnOk result (uploads.new ≡ part_put uploads.old upload (live uploads.old key.now upload) number
        bytes.now) }
    ensures err { OnErr result (uploads.new ≡ uploads.old) }
{
    let bytes = bytes.clone()?;
    match uploads.part(key, upload, number, bytes) {
        Ok(tag) => Ok(Reply::Part(tag)),
        Err(UploadFault::Refused(refusal)) => Ok(Reply::Refused(refusal)),
        Err(UploadFault::NoMemory) => Err(AllocError),
    }
}

/// AbortMultipartUpload: ends the live upload, or answers NoSuchUpload.
pub fn abort(uploads: &mut Uploads, key: &Key, upload: u64) -> Reply
    ensures reply { result ≡ abort_answer (live uploads.old key.now upload) }
    ensures left { uploads.new ≡ aborted uploads.old upload (live uploads.old key.now upload) }
{
    match uploads.remove(key, upload) {
        Ok(()) => Reply::Aborted,
        Err(refusal) => Reply::Refused(refusal),
    }
}

/// ListParts: answers the parts by number, each with its length in bytes and its tag, or
/// NoSuchUpload.
pub fn list_parts(uploads: &Uploads, key: &Key, upload: u64) -> Result<Reply, AllocError>
    ensures { IfOk result (λ r. r ≡ parts_answer (live uploads.now key.now upload)) }
{
    match uploads.parts(key, upload) {
        Ok(sizes) => Ok(Reply::Parts(sizes)),
        Err(UploadFault::Refused(refusal)) => Ok(Reply::Refused(refusal)),
        Err(UploadFault::NoMemory) => Err(AllocError),
    }
}

/// ListMultipartUploads: answers the first `limit` live uploads after the given one, and whether
/// more remain.
pub fn list(
    uploads: &Uploads,
    prefix: &Text,
    after: &Option<UploadRef>,
    limit: PageLimit,
) -> Result<Reply, AllocError>
    ensures { IfOk result (λ r. r ≡ multi.page limit (multi.listed prefix.now after.now uploads.now)) }
{
    let page = uploads.list(prefix, after.as_ref(), limit)?;
    Ok(Reply::Uploads {
        entries: page.entries,
        more: page.more,
    })
}
