//! Reads a record quickly if its text is the printed one. A quick look makes a candidate, and the
//! candidate's own text is compared with the input. The result is none if the text is not as it is
//! printed, or if memory runs out.
ghost use Rattle.std.specs.Prelude.{◌≡◌, true, IfSome, Ok};
ghost use Rattle.std.specs.List.{AllByRecursion, list_all};
ghost use Rattle.std.specs.Str.{is_utf8};
ghost use Rattle.s3_types.specs.Names.{is_bucket, is_key};
ghost use Rattle.s3_types.specs.Tags.{is_plain_tag};
ghost use Rattle.pending_json.specs.Pending.{are_tags, are_sizes};
ghost use Rattle.pending_json.specs.Reading.{pending_of, set_of};
ghost use Rattle.pending_json.specs.Records.{IsPending, IsSet};

use crate::drafts::{UploadDraft, set_end, set_start, upload_draft};
use crate::groups::{Numbers, Parts, Target, joined};
use crate::pending::PendingUpload;
use crate::printing::prints;
use crate::records::{PendingList, PendingSet};
use crate::scanning::{between, next_item, number, without_comma};
use crate::sizes::fit;
use crate::tags::{is_count, tag_of};
use s3_types::{Bucket, Key, Sequence, SizeList, TagList, Text, let_go};
use std::alloc::Global;

/// The bucket with this name. It shares the memory of the bucket of the upload before, if that is
/// the same.
fn bucket(alloc: Global, before: Option<&PendingUpload>, name: &[u8]) -> Option<Bucket>
    ensures { IfSome result (λ bucket. is_bucket bucket ≡ true) }
{
    if let Some(upload) = before {
        let bucket = upload.bucket();
        if bucket.as_bytes() == name {
            return bucket.clone().ok();
        }
    }
    Bucket::read(alloc, name).ok()
}

/// The place of a draft's file.
fn target(alloc: Global, before: Option<&PendingUpload>, draft: &UploadDraft<'_>) -> Option<Target>
    ensures bucket { IfSome result (λ target. is_bucket target.bucket ≡ true) }
    ensures destination { IfSome result (λ target. is_key target.destination ≡ true) }
{
    let bucket = bucket(alloc, before, draft.bucket)?;
    match Key::read(alloc, draft.destination) {
        Ok(destination) => Some(Target {
            attempt: draft.attempt,
            bucket,
            destination,
        }),
        Err(_) => {
            let_go(bucket);
            None
        }
    }
}

fn plain_tags(alloc: Global, list: &[u8]) -> Option<TagList>
    ensures { IfSome result (λ tags. list_all is_plain_tag tags ≡ true) }
{
    let mut tags = Sequence::new(alloc);
    let mut rest = list;
    while let Some((item, more)) = next_item(rest) {
        let (digits, _) = between(item, b"\"", b'"');
        tags.push(tag_of(digits)?).ok()?;
        rest = more;
    }
    Some(tags)
}

fn tags(alloc: Global, list: &[u8]) -> Option<TagList>
    ensures { IfSome result (λ tags. are_tags tags ≡ true) }
{
    let tags = plain_tags(alloc, list)?;
    if is_count(&tags) { Some(tags) } else { None }
}

fn wholes(alloc: Global, list: &[u8]) -> Option<SizeList> {
    let mut wholes = Sequence::new(alloc);
    let mut rest = list;
    while let Some((item, more)) = next_item(rest) {
        wholes.push(number(item)).ok()?;
        rest = more;
    }
    Some(wholes)
}

/// The lengths of the parts with these tags, if the text has them, of a file of this length.
fn sizes(alloc: Global, list: &[u8], tags: &TagList, total: u64) -> Option<Option<SizeList>>
    ensures { IfSome result (λ sizes. are_sizes sizes tags.now total ≡ true) }
{
    if list.is_empty() {
        return Some(None);
    }
    let sizes = wholes(alloc, list)?;
    if fit(sizes.as_slice(), tags.len(), total) {
        Some(Some(sizes))
    } else {
        None
    }
}

/// The data that completes a draft's upload.
fn parts(alloc: Global, draft: &UploadDraft<'_>) -> Option<Parts>
    ensures tags { IfSome result (λ parts. are_tags parts.tags ≡ true) }
    ensures fit { IfSome result (λ parts. are_sizes parts.sizes parts.tags parts.length ≡ true) }
{
    let tags = tags(alloc, draft.tags)?;
    let length = draft.length;
    match sizes(alloc, draft.sizes, &tags, length) {
        Some(sizes) => Some(Parts {
            length,
            tags,
            sizes,
        }),
        None => {
            let_go(tags);
            None
        }
    }
}

/// The pending upload of a draft, after another one.
fn upload(
    alloc: Global,
    before: Option<&PendingUpload>,
    draft: &UploadDraft<'_>,
) -> Option<PendingUpload>
    ensures { IfSome result (λ upload. IsPending upload) }
{
    let target = target(alloc, before, draft)?;
    match parts(alloc, draft) {
        Some(parts) => {
            let numbers = Numbers {
                task: draft.task,
                upload: draft.upload,
            };
            Some(joined(target, parts, numbers))
        }
        None => {
            let_go(target);
            None
        }
    }
}

/// Adds the pending upload of a draft.
fn push_upload(alloc: Global, uploads: &mut PendingList, draft: &UploadDraft<'_>) -> Option<()>
    requires { AllByRecursion IsPending uploads.old }
    ensures { IfSome result (λ _. AllByRecursion IsPending uploads.new) }
{
    let next = upload(alloc, uploads.as_slice().last(), draft)?;
    uploads.push(next).ok()
}

/// Adds the pending uploads of a list, and returns the text after them.
fn push_uploads<'a>(alloc: Global, uploads: &mut PendingList, list: &'a [u8]) -> Option<&'a [u8]>
    requires { AllByRecursion IsPending uploads.old }
    ensures { IfSome result (λ _. AllByRecursion IsPending uploads.new) }
{
    let mut rest = list;
    while rest.starts_with(b"{") {
        let (draft, more) = upload_draft(rest)?;
        push_upload(alloc, uploads, &draft)?;
        rest = without_comma(more);
    }
    Some(rest)
}

fn text(alloc: Global, bytes: &[u8]) -> Option<Text>
    ensures { IfSome result (λ text. is_utf8 text ≡ true) }
{
    match str::from_utf8(bytes) {
        Ok(text) => Text::copied(alloc, text).ok(),
        Err(_) => None,
    }
}

/// Adds the uploads of a set, and returns its job and task.
fn set_rest(alloc: Global, uploads: &mut PendingList, list: &[u8]) -> Option<(Text, u32)>
    requires { AllByRecursion IsPending uploads.old }
    ensures uploads { IfSome result (λ _. AllByRecursion IsPending uploads.new) }
    ensures job { IfSome result (λ r. is_utf8 r.0 ≡ true) }
{
    let rest = push_uploads(alloc, uploads, list)?;
    let end = set_end(rest);
    let job = text(alloc, end.job)?;
    Some((job, end.task))
}

/// The set that a quick look finds in a text.
fn quick_set(alloc: Global, bytes: &[u8]) -> Option<PendingSet>
    ensures { IfSome result (λ set. IsSet set) }
{
    let (attempt, list) = set_start(bytes)?;
    let mut commits = Sequence::new(alloc);
    match set_rest(alloc, &mut commits, list) {
        Some((job, task)) => Some(PendingSet {
            job,
            task,
            attempt,
            commits,
        }),
        None => {
            let_go(commits);
            None
        }
    }
}

/// The pending upload whose printed text this is.
pub fn printed_upload(alloc: Global, bytes: &[u8]) -> Option<PendingUpload>
    ensures { IfSome result (λ upload. pending_of bytes.now ≡ Ok upload) }
{
    let (draft, _) = upload_draft(bytes)?;
    let upload = upload(alloc, None, &draft)?;
    if prints(alloc, &upload, bytes) {
        Some(upload)
    } else {
        let_go(upload);
        None
    }
}

/// The set whose printed text this is.
pub fn printed_set(alloc: Global, bytes: &[u8]) -> Option<PendingSet>
    ensures { IfSome result (λ set. set_of bytes.now ≡ Ok set) }
{
    let set = quick_set(alloc, bytes)?;
    if prints(alloc, &set, bytes) {
        Some(set)
    } else {
        let_go(set);
        None
    }
}
