ghost use Rattle.std.specs.Prelude.{◌≡◌, ◌∷◌, [], IfOk, option_map};
ghost use Rattle.serde_json.specs.Find.{as_str};
ghost use Rattle.serde_json.specs.View.{view, items_view};
ghost use Rattle.pending_json.specs.Fields.{all_of, as_texts};
ghost use Rattle.trace_reader.specs.Faults.{Gives};
ghost use Rattle.trace_reader.specs.Reading.{member, as_part, as_parts};

use crate::fault::{Field, TraceFault};
use crate::fields::present;
use s3_types::{Sequence, Text, TextList, let_go};
use serde_json::Value;
use std::alloc::{AllocError, Global};

/// Returns a list of one text.
pub fn only_text(alloc: Global, text: &str) -> Result<TextList, AllocError>
    ensures { IfOk result (λ texts. texts ≡ text.now ∷ []) }
{
    let mut texts = Sequence::new(alloc);
    texts.push(Text::copied(alloc, text)?)?;
    Ok(texts)
}

/// Returns the texts of a list, if all its values are texts.
fn texts_in(alloc: Global, list: &[Value]) -> Result<Option<TextList>, AllocError>
    ensures { IfOk result (λ texts. texts ≡ all_of as_str (items_view list.now)) }
{
    let mut texts = Sequence::new(alloc);
    for value in list {
        match value.as_str() {
            Some(text) => texts.push(Text::copied(alloc, text)?)?,
            None => return Ok(None),
        }
    }
    Ok(Some(texts))
}

/// Returns a list of texts, in any order, if the value is one.
fn texts_of(alloc: Global, value: &Value) -> Result<Option<TextList>, AllocError>
    ensures { IfOk result (λ texts. texts ≡ as_texts (view value.now)) }
{
    match value.as_array() {
        Some(list) => texts_in(alloc, list.as_slice()),
        None => Ok(None),
    }
}

/// Returns a member that is a list of texts, in any order, or the fault MissingField or WrongKind.
pub fn texts_member(alloc: Global, value: &Value, field: Field) -> Result<TextList, TraceFault>
    ensures { Gives result (member as_texts field (view value.now)) }
{
    let found = present(value, field)?;
    match texts_of(alloc, found)? {
        Some(texts) => Ok(texts),
        None => Err(TraceFault::WrongKind(field)),
    }
}

/// Returns the tag of a part that a completion names, borrowed from the line.
fn part_tag(value: &Value) -> Option<&str>
    ensures { option_map (λ t. t.now) result ≡ as_part (view value.now) }
{
    match value.get(Field::Etag.name()) {
        Some(tag) => tag.as_str(),
        None => None,
    }
}

/// Returns the tags of a list of parts, if all its values are parts.
fn part_tags(alloc: Global, list: &[Value]) -> Result<Option<TextList>, AllocError>
    ensures { IfOk result (λ tags. tags ≡ all_of as_part (items_view list.now)) }
{
    let mut tags = Sequence::new(alloc);
    for value in list {
        match part_tag(value) {
            Some(tag) => tags.push(Text::copied(alloc, tag)?)?,
            None => return Ok(None),
        }
    }
    Ok(Some(tags))
}

/// Returns the tags of the parts that a completion names, if there is at least one.
fn parts_of(alloc: Global, value: &Value) -> Result<Option<TextList>, AllocError>
    ensures { IfOk result (λ tags. tags ≡ as_parts (view value.now)) }
{
    let Some(list) = value.as_array() else {
        return Ok(None);
    };
    let Some(tags) = part_tags(alloc, list.as_slice())? else {
        return Ok(None);
    };
    if 0 < tags.len() {
        return Ok(Some(tags));
    }
    let_go(tags);
    Ok(None)
}

/// Returns the tags of the parts that a completion names, or the fault MissingField or WrongKind.
/// There must be at least one part.
pub fn parts_member(alloc: Global, value: &Value, field: Field) -> Result<TextList, TraceFault>
    ensures { Gives result (member as_parts field (view value.now)) }
{
    let found = present(value, field)?;
    match parts_of(alloc, found)? {
        Some(tags) => Ok(tags),
        None => Err(TraceFault::WrongKind(field)),
    }
}
