//! The fields of the records in groups. A call of its own reads each group. So values are dropped
//! in few places, and each group has its own contract.
ghost use Rattle.std.specs.Prelude.{◌≡◌, IfOk, true};
ghost use Rattle.serde_json.specs.View.{view, members_view};
ghost use Rattle.pending_json.specs.Fault.{Gives};
ghost use Rattle.pending_json.specs.inner.Groups.{target_in, parts_in, numbers_in, attempt_in, set_end_in};
ghost use Rattle.pending_json.specs.Pending.{are_tags, are_sizes};

use crate::fault::RecordFault;
use crate::fields::{
    bucket_field, key_field, str_field, u32_field, version_field, whole_field, word_field,
};
use crate::pending::PendingUpload;
use crate::sizes::sizes_field;
use crate::table::{Table, no_others, pending_table};
use crate::tags::tags_field;
use s3_types::{Bucket, Key, SizeList, TagList, Text, let_go};
use serde_json::{Map, Value};
use std::alloc::Global;

/// The attempt of a pending upload, and the place of its file.
#[derive(Drop)]
pub struct Target {
    pub attempt: u32,
    pub bucket: Bucket,
    pub destination: Key,
}

/// The data that completes a pending upload: the file's length, the tags of its parts and their
/// lengths.
#[derive(Drop)]
pub struct Parts {
    pub length: u64,
    pub tags: TagList,
    pub sizes: Option<SizeList>,
}

/// The task and the id of a pending upload.
#[derive(Clone, Copy)]
pub struct Numbers {
    pub task: u32,
    pub upload: u64,
}

/// The pending upload with these groups.
pub fn joined(target: Target, parts: Parts, numbers: Numbers) -> PendingUpload
    requires tags { are_tags parts.tags ≡ true }
    requires sizes { are_sizes parts.sizes parts.tags parts.length ≡ true }
    ensures { result ≡ record {
      task = numbers.task;
      attempt = target.attempt;
      bucket = target.bucket;
      destination = target.destination;
      upload = numbers.upload;
      length = parts.length;
      tags = parts.tags;
      sizes = parts.sizes;
    } }
{
    PendingUpload::new(
        numbers.task,
        target.attempt,
        target.bucket,
        target.destination,
        numbers.upload,
        parts.length,
        parts.tags,
        parts.sizes,
    )
}

/// The attempt of a pending upload and the place of its file, or the first fault of these fields.
#[tactic(auto, unfolding(crate::specs::inner::Groups::target_in))]
pub fn target_of(alloc: Global, value: &Value) -> Result<Target, RecordFault>
    ensures { Gives result (target_in (view value.now)) }
{
    let attempt = u32_field(alloc, value, "attempt")?;
    let bucket = bucket_field(alloc, value, "bucket")?;
    match key_field(alloc, value, "destination") {
        Ok(destination) => Ok(Target {
            attempt,
            bucket,
            destination,
        }),
        Err(fault) => {
            let_go(bucket);
            Err(fault)
        }
    }
}

/// The length, the tags and, if `sized`, the sizes of the parts, or the first fault of these
/// fields.
#[tactic(auto, unfolding(crate::specs::inner::Groups::parts_in))]
pub fn parts_of(alloc: Global, value: &Value, sized: bool) -> Result<Parts, RecordFault>
    ensures read { Gives result (parts_in sized (view value.now)) }
    ensures tags { IfOk result (λ parts. are_tags parts.tags ≡ true) }
    ensures fit { IfOk result (λ parts. are_sizes parts.sizes parts.tags parts.length ≡ true) }
{
    let tags = tags_field(alloc, value, "etags")?;
    word_field(alloc, value, "kind", "pending")?;
    let length = whole_field(alloc, value, "length")?;
    let sizes = sizes_field(alloc, value, sized, &tags, length)?;
    Ok(Parts {
        length,
        tags,
        sizes,
    })
}

/// The task and the id of a pending upload. It must have no other fields.
#[tactic(auto, unfolding(crate::specs::inner::Groups::numbers_in))]
pub fn numbers_of(
    alloc: Global,
    value: &Value,
    sized: bool,
    members: &Map<String, Value>,
) -> Result<Numbers, RecordFault>
    ensures { Gives result (numbers_in sized (members_view members.now.entries) (view value.now)) }
{
    let task = u32_field(alloc, value, "task")?;
    let upload = whole_field(alloc, value, "upload")?;
    no_others(alloc, members, pending_table(sized))?;
    Ok(Numbers { task, upload })
}

/// The attempt of a set. Its version must be known.
#[tactic(auto, unfolding(crate::specs::inner::Groups::attempt_in))]
pub fn attempt_of(alloc: Global, value: &Value) -> Result<u32, RecordFault>
    ensures { Gives result (attempt_in (view value.now)) }
{
    version_field(alloc, value)?;
    u32_field(alloc, value, "attempt")
}

/// The job and the task of a set. It must have no other fields.
#[tactic(auto, unfolding(crate::specs::inner::Groups::set_end_in))]
pub fn set_end_of(
    alloc: Global,
    value: &Value,
    members: &Map<String, Value>,
) -> Result<(Text, u32), RecordFault>
    ensures { Gives result (set_end_in (members_view members.now.entries) (view value.now)) }
{
    let job = str_field(alloc, value, "job")?;
    word_field(alloc, value, "kind", "pendingset")?;
    let number = u32_field(alloc, value, "task")?;
    no_others(alloc, members, Table::Set)?;
    Ok((Text::copied(alloc, job)?, number))
}
