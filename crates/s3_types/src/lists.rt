ghost use Rattle.std.specs.Prelude.{◌≡◌, ◌≤◌, length, IfOk};
ghost use Rattle.s3_types.specs.declared.limits.TheConstants.{MOST_PARTS};
ghost use Rattle.s3_types.specs.Blocks.{named_from};

use crate::names::Key;
use crate::reply::{PageEntry, PartSize};
use crate::request::{NamedPart, UploadRef};
use crate::sequence::Sequence;
use crate::tag::Tag;
use crate::text::Text;
use std::alloc::{AllocError, Global};

/// A list of keys.
pub type KeyList = Sequence<Key>;

/// A list of texts.
pub type TextList = Sequence<Text>;

/// A list of tags.
pub type TagList = Sequence<Tag>;
/// Lengths in bytes.
pub type SizeList = Sequence<u64>;
/// The parts that a completion names.
pub type PartList = Sequence<NamedPart>;
/// The entries of a page.
pub type EntryList = Sequence<PageEntry>;
/// The uploads of a page.
pub type UploadList = Sequence<UploadRef>;
/// The parts that an upload has.
pub type PartSizes = Sequence<PartSize>;

/// Returns a copy of the keys that shares their texts.
pub fn copied_keys(alloc: Global, keys: &KeyList) -> Result<KeyList, AllocError>
    ensures { IfOk result (λ copy. copy ≡ keys.now) }
{
    let keys = keys.as_slice();
    let mut copy = Vec::with_capacity(alloc, keys.len())?;
    for key in keys {
        copy.push(key.clone()?)?;
    }
    Ok(Sequence::from_vec(copy))
}

/// Returns a copy of the parts.
pub fn copied_parts(alloc: Global, parts: &PartList) -> Result<PartList, AllocError>
    ensures { IfOk result (λ copy. copy ≡ parts.now) }
{
    Ok(Sequence::from_vec(Vec::from_slice(alloc, parts.as_slice())?))
}

/// Returns the parts as CompleteMultipartUpload names them, numbered from 1 on.
pub fn named_parts(alloc: Global, tags: &[Tag]) -> Result<PartList, AllocError>
    requires { length tags.now ≤ MOST_PARTS }
    ensures { IfOk result (λ parts. parts ≡ named_from 1 tags.now) }
{
    let mut parts = PartList::new(alloc);
    let mut number = 1;
    for tag in tags {
        parts.push(NamedPart { number, tag: *tag })?;
        number += 1;
    }
    Ok(parts)
}
