ghost use Rattle.std.specs.Prelude.{◌≡◌, IfOk, true};
ghost use Rattle.serde_json.specs.View.{view, items_view};
ghost use Rattle.pending_json.specs.Fault.{Gives};
ghost use Rattle.pending_json.specs.Fields.{field, all_of, as_tag, as_tags, tag_of, is_count};
ghost use Rattle.pending_json.specs.Pending.{are_tags};

use crate::fault::{RecordFault, wrong_kind};
use crate::fields::list_field;
use s3_types::{MOST_PARTS, Sequence, Tag, TagList, are_hex_digits};
use serde_json::Value;
use std::alloc::{AllocError, Global};

/// The tag of a part with this text, or none.
pub fn tag_of(bytes: &[u8]) -> Option<Tag>
    ensures { result ≡ tag_of bytes.now }
{
    let Ok(digits) = <[u8; 32]>::try_from(bytes) else {
        return None;
    };
    if are_hex_digits(bytes) {
        Some(Tag::new(digits, 0))
    } else {
        None
    }
}

fn tag(value: &Value) -> Option<Tag>
    ensures { result ≡ as_tag (view value.now) }
{
    match value.as_str() {
        Some(text) => tag_of(text.as_bytes()),
        None => None,
    }
}

fn tags(alloc: Global, list: &[Value]) -> Result<Option<TagList>, AllocError>
    ensures { IfOk result (λ found. found ≡ all_of as_tag (items_view list.now)) }
{
    let mut tags = Sequence::new(alloc);
    for value in list {
        match tag(value) {
            Some(found) => tags.push(found)?,
            None => return Ok(None),
        }
    }
    Ok(Some(tags))
}

/// True if there are 1 to 10,000 tags.
pub fn is_count(tags: &TagList) -> bool
    ensures { result ≡ is_count tags.now }
{
    1 <= tags.len() && tags.len() <= MOST_PARTS as usize
}

/// A field that is a list of the tags of 1 to 10,000 parts.
pub fn tags_field(alloc: Global, value: &Value, name: &str) -> Result<TagList, RecordFault>
    ensures read { Gives result (field as_tags name.now (view value.now)) }
    ensures tags { IfOk result (λ tags. are_tags tags ≡ true) }
{
    let list = list_field(alloc, value, name)?;
    let Some(tags) = tags(alloc, list)? else {
        return Err(wrong_kind(alloc, name));
    };
    if is_count(&tags) {
        Ok(tags)
    } else {
        Err(wrong_kind(alloc, name))
    }
}
