ghost use Rattle.std.specs.Prelude.{◌≡◌, codes};
ghost use Rattle.serde_json.specs.View.{view, members_view, items_view};
ghost use Rattle.serde_json.specs.Find.{get, as_str, as_array};
ghost use Rattle.pending_json.specs.Fault.{Gives};
ghost use Rattle.pending_json.specs.inner.Fault.{GivesBy};
ghost use Rattle.pending_json.specs.Fields.{present, field, of_kind, of_kind_if, as_whole, as_u32, as_word, as_bucket, as_key, version_in, is_sized, members_in};

use crate::fault::{RecordFault, missing, wrong_kind};
use s3_types::{Bucket, Key, NameFault};
use serde_json::{Map, Value};
use std::alloc::Global;

/// The value as an object. The error is WrongKind with an empty name.
pub fn members_of<'v>(
    alloc: Global,
    value: &'v Value,
) -> Result<&'v Map<String, Value>, RecordFault>
    ensures { GivesBy (λ m. members_view m.now.entries) result (members_in (view value.now)) }
{
    match value.as_object() {
        Some(map) => Ok(map),
        None => Err(wrong_kind(alloc, "")),
    }
}

/// The value of a field. The error is MissingField.
pub fn present_field<'v>(
    alloc: Global,
    value: &'v Value,
    name: &str,
) -> Result<&'v Value, RecordFault>
    ensures { GivesBy (λ v. view v.now) result (present name.now (get name.now (view value.now))) }
{
    match value.get(name) {
        Some(found) => Ok(found),
        None => Err(missing(alloc, name)),
    }
}

/// A field that is an unsigned whole number below 2^64.
pub fn whole_field(alloc: Global, value: &Value, name: &str) -> Result<u64, RecordFault>
    ensures { Gives result (field as_whole name.now (view value.now)) }
{
    let found = present_field(alloc, value, name)?;
    match found.as_u64() {
        Some(n) => Ok(n),
        None => Err(wrong_kind(alloc, name)),
    }
}

/// A field that is an unsigned whole number below 2^32.
pub fn u32_field(alloc: Global, value: &Value, name: &str) -> Result<u32, RecordFault>
    ensures { Gives result (field as_u32 name.now (view value.now)) }
{
    let n = whole_field(alloc, value, name)?;
    if n < 0x1_0000_0000 {
        Ok(n as u32)
    } else {
        Err(wrong_kind(alloc, name))
    }
}

/// A field that is a text. The text is borrowed.
pub fn str_field<'v>(alloc: Global, value: &'v Value, name: &str) -> Result<&'v str, RecordFault>
    ensures { GivesBy (λ t. t.now) result (field as_str name.now (view value.now)) }
{
    let found = present_field(alloc, value, name)?;
    match found.as_str() {
        Some(text) => Ok(text),
        None => Err(wrong_kind(alloc, name)),
    }
}

/// Checks that a field is this text.
pub fn word_field(alloc: Global, value: &Value, name: &str, word: &str) -> Result<(), RecordFault>
    ensures { Gives result (field (as_word word.now) name.now (view value.now)) }
{
    let text = str_field(alloc, value, name)?;
    if text == word {
        Ok(())
    } else {
        Err(wrong_kind(alloc, name))
    }
}

/// A field that is a bucket's name.
pub fn bucket_field(alloc: Global, value: &Value, name: &str) -> Result<Bucket, RecordFault>
    ensures { Gives result (field as_bucket name.now (view value.now)) }
{
    let text = str_field(alloc, value, name)?;
    match Bucket::read(alloc, text.as_bytes()) {
        Ok(bucket) => Ok(bucket),
        Err(NameFault::BadName) => Err(wrong_kind(alloc, name)),
        Err(NameFault::NoMemory) => Err(RecordFault::NoMemory),
    }
}

/// A field that is an object's key.
pub fn key_field(alloc: Global, value: &Value, name: &str) -> Result<Key, RecordFault>
    ensures { Gives result (field as_key name.now (view value.now)) }
{
    let text = str_field(alloc, value, name)?;
    match Key::read(alloc, text.as_bytes()) {
        Ok(key) => Ok(key),
        Err(NameFault::BadName) => Err(wrong_kind(alloc, name)),
        Err(NameFault::NoMemory) => Err(RecordFault::NoMemory),
    }
}

/// The items of a field that is a list.
pub fn list_field<'v>(
    alloc: Global,
    value: &'v Value,
    name: &str,
) -> Result<&'v [Value], RecordFault>
    ensures { GivesBy (λ items. items_view items.now) result (field as_array name.now (view value.now)) }
{
    let found = present_field(alloc, value, name)?;
    match found.as_array() {
        Some(list) => Ok(list.as_slice()),
        None => Err(wrong_kind(alloc, name)),
    }
}

/// Checks that the version is 1. The error is WrongVersion.
#[tactic(auto, unfolding(crate::specs::Fields::version_in))]
pub fn version_field(alloc: Global, value: &Value) -> Result<(), RecordFault>
    ensures { Gives result (version_in (view value.now)) }
{
    let version = whole_field(alloc, value, "version")?;
    if version == 1 {
        Ok(())
    } else {
        Err(RecordFault::WrongVersion(version))
    }
}

/// True if a pending upload has the lengths of its parts: false for version 1, true for version 2.
/// The error for another version is WrongVersion.
#[tactic(auto, unfolding(crate::specs::Fields::is_sized))]
pub fn is_sized(alloc: Global, value: &Value) -> Result<bool, RecordFault>
    ensures { Gives result (is_sized (view value.now)) }
{
    let version = whole_field(alloc, value, "version")?;
    if version == 1 {
        return Ok(false);
    }
    if version == 2 {
        Ok(true)
    } else {
        Err(RecordFault::WrongVersion(version))
    }
}
