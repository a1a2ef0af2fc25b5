//! Reads the lines of requests that change objects.
ghost use Rattle.std.specs.Prelude.{Ok};
ghost use Rattle.serde_json.specs.View.{view};
ghost use Rattle.trace_reader.specs.declared.line.TraceLine.TheVariants as line;
ghost use Rattle.trace_reader.specs.Faults.{Gives};
ghost use Rattle.trace_reader.specs.Reading.{put_in, copy_in, delete_in, delete_all_in, complete_in};

use crate::fault::{Field, TraceFault};
use crate::fields::{bool_member, str_member};
use crate::line::TraceLine;
use crate::texts::{only_text, parts_member, texts_member};
use s3_types::{Text, TextList, both, let_go};
use serde_json::Value;
use std::alloc::Global;

/// Returns the line that puts an object with these tags at this key.
fn put(alloc: Global, bucket: &str, key: &str, etags: TextList) -> Result<TraceLine, TraceFault>
    ensures { Gives result (Ok (line.Put bucket.now key.now etags)) }
{
    match both(Text::copied(alloc, bucket), Text::copied(alloc, key)) {
        Ok((bucket, key)) => Ok(TraceLine::Put { bucket, key, etags }),
        Err(_) => {
            let_go(etags);
            Err(TraceFault::NoMemory)
        }
    }
}

/// Returns the line that copies the object at its source to this key.
fn copy(alloc: Global, bucket: &str, source: &str, key: &str) -> Result<TraceLine, TraceFault>
    ensures { Gives result (Ok (line.Copy bucket.now source.now key.now)) }
{
    let (source, key) = both(Text::copied(alloc, source), Text::copied(alloc, key))?;
    match Text::copied(alloc, bucket) {
        Ok(bucket) => Ok(TraceLine::Copy {
            bucket,
            source,
            key,
        }),
        Err(_) => {
            let_go((source, key));
            Err(TraceFault::NoMemory)
        }
    }
}

/// Returns the line that deletes the objects at these keys.
fn delete(alloc: Global, bucket: &str, keys: TextList) -> Result<TraceLine, TraceFault>
    ensures { Gives result (Ok (line.Delete bucket.now keys)) }
{
    match Text::copied(alloc, bucket) {
        Ok(bucket) => Ok(TraceLine::Delete { bucket, keys }),
        Err(_) => {
            let_go(keys);
            Err(TraceFault::NoMemory)
        }
    }
}

/// Reads a request to put an object, or returns its first fault.
#[tactic(auto, unfolding(crate::specs::Reading::put_in))]
pub fn put_in(alloc: Global, value: &Value) -> Result<TraceLine, TraceFault>
    ensures { Gives result (put_in (view value.now)) }
{
    let bucket = str_member(value, Field::Bucket)?;
    let effect = bool_member(value, Field::Effect)?;
    let key = str_member(value, Field::Key)?;
    let etag = str_member(value, Field::Etag)?;
    if !effect {
        return Ok(TraceLine::Still);
    }
    put(alloc, bucket, key, only_text(alloc, etag)?)
}

/// Reads a request to copy an object, or returns its first fault.
#[tactic(auto, unfolding(crate::specs::Reading::copy_in))]
pub fn copy_in(alloc: Global, value: &Value) -> Result<TraceLine, TraceFault>
    ensures { Gives result (copy_in (view value.now)) }
{
    let bucket = str_member(value, Field::Bucket)?;
    let effect = bool_member(value, Field::Effect)?;
    let source = str_member(value, Field::Source)?;
    let key = str_member(value, Field::Key)?;
    if !effect {
        return Ok(TraceLine::Still);
    }
    copy(alloc, bucket, source, key)
}

/// Reads a request to delete an object, or returns its first fault.
#[tactic(auto, unfolding(crate::specs::Reading::delete_in))]
pub fn delete_in(alloc: Global, value: &Value) -> Result<TraceLine, TraceFault>
    ensures { Gives result (delete_in (view value.now)) }
{
    let bucket = str_member(value, Field::Bucket)?;
    let effect = bool_member(value, Field::Effect)?;
    let key = str_member(value, Field::Key)?;
    if !effect {
        return Ok(TraceLine::Still);
    }
    delete(alloc, bucket, only_text(alloc, key)?)
}

/// Reads a request to delete objects, or returns its first fault.
#[tactic(auto, unfolding(crate::specs::Reading::delete_all_in))]
pub fn delete_all_in(alloc: Global, value: &Value) -> Result<TraceLine, TraceFault>
    ensures { Gives result (delete_all_in (view value.now)) }
{
    let bucket = str_member(value, Field::Bucket)?;
    let effect = bool_member(value, Field::Effect)?;
    let keys = texts_member(alloc, value, Field::Keys)?;
    if !effect {
        let_go(keys);
        return Ok(TraceLine::Still);
    }
    delete(alloc, bucket, keys)
}

/// Reads a request to complete an upload, or returns its first fault.
#[tactic(auto, unfolding(crate::specs::Reading::complete_in))]
pub fn complete_in(alloc: Global, value: &Value) -> Result<TraceLine, TraceFault>
    ensures { Gives result (complete_in (view value.now)) }
{
    let bucket = str_member(value, Field::Bucket)?;
    let effect = bool_member(value, Field::Effect)?;
    let key = str_member(value, Field::Key)?;
    let etags = parts_member(alloc, value, Field::Parts)?;
    if !effect {
        let_go(etags);
        return Ok(TraceLine::Still);
    }
    put(alloc, bucket, key, etags)
}
