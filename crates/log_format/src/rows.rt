ghost use Rattle.std.specs.Prelude.{◌≡◌, ◌<◌, List, length, Ok, Err, OnOk, OnErr, IfErr};
ghost use Rattle.s3_types.specs.declared.request.Request.{Request as RequestValue};
ghost use Rattle.log_format.specs.Fault.{Gives};
ghost use Rattle.log_format.specs.inner.Fault.{GivesBy};
ghost use Rattle.log_format.specs.Reading.{Read, alone, make_bucket_in, put_object_in, delete_object_in, delete_objects_in, copy_object_in, create_upload_in, upload_part_in, complete_upload_in, abort_upload_in, kind_in, change_in};

use crate::fault::LogFault;
use crate::fields::{
    bucket_of, byte_of, bytes_of, header_of, key_of, keys_of, pair_of, part_of, parts_of,
    target_of, text_of, upload_of,
};
use s3_types::{Request, let_go};
use std::alloc::Global;

/// Returns the value that was read, if nothing is left after it.
fn alone_of<T: Drop>(at: u64, read: Result<(T, &[u8]), LogFault>) -> Result<T, LogFault>
    ensures { (make : T → RequestValue) → (given : Read T) → GivesBy (λ x. (x.0, x.1.now)) read.entry given →
        GivesBy make result (alone make at given) }
{
    let (value, rest) = read?;
    if rest.is_empty() {
        Ok(value)
    } else {
        let_go(value);
        Err(LogFault::Bad(at))
    }
}

#[tactic(auto, unfolding(crate::specs::Reading::make_bucket_in, crate::specs::Reading::row_of))]
fn make_bucket_of(alloc: Global, at: u64, bytes: &[u8]) -> Result<Request, LogFault>
    ensures { Gives result (make_bucket_in at bytes.now) }
{
    match alone_of(at, text_of(alloc, at, bytes)) {
        Ok(name) => Ok(Request::MakeBucket { name }),
        Err(fault) => Err(fault),
    }
}

#[tactic(auto, unfolding(crate::specs::Reading::put_object_in, crate::specs::Reading::row_of, crate::specs::Reading::pair_at, crate::specs::Reading::upload_at))]
fn put_object_of(alloc: Global, at: u64, bytes: &[u8]) -> Result<Request, LogFault>
    ensures { Gives result (put_object_in at bytes.now) }
{
    let (target, rest) = upload_of(alloc, at, bytes)?;
    match alone_of(at, pair_of(target, bytes_of(alloc, at, rest))) {
        Ok((((bucket, key), number), bytes)) => {
            Ok(Request::PutObject {
                bucket,
                key,
                bytes,
                header: header_of(number),
            })
        }
        Err(fault) => Err(fault),
    }
}

#[tactic(auto, unfolding(crate::specs::Reading::delete_object_in, crate::specs::Reading::row_of))]
fn delete_object_of(alloc: Global, at: u64, bytes: &[u8]) -> Result<Request, LogFault>
    ensures { Gives result (delete_object_in at bytes.now) }
{
    match alone_of(at, target_of(alloc, at, bytes)) {
        Ok((bucket, key)) => Ok(Request::DeleteObject { bucket, key }),
        Err(fault) => Err(fault),
    }
}

#[tactic(auto, unfolding(crate::specs::Reading::delete_objects_in, crate::specs::Reading::row_of, crate::specs::Reading::pair_at))]
fn delete_objects_of(alloc: Global, at: u64, bytes: &[u8]) -> Result<Request, LogFault>
    ensures { Gives result (delete_objects_in at bytes.now) }
{
    let (bucket, rest) = bucket_of(alloc, at, bytes)?;
    match alone_of(at, pair_of(bucket, keys_of(alloc, at, rest))) {
        Ok((bucket, keys)) => Ok(Request::DeleteObjects { bucket, keys }),
        Err(fault) => Err(fault),
    }
}

#[tactic(auto, unfolding(crate::specs::Reading::copy_object_in, crate::specs::Reading::row_of, crate::specs::Reading::pair_at))]
fn copy_object_of(alloc: Global, at: u64, bytes: &[u8]) -> Result<Request, LogFault>
    ensures { Gives result (copy_object_in at bytes.now) }
{
    let (place, rest) = target_of(alloc, at, bytes)?;
    match alone_of(at, pair_of(place, key_of(alloc, at, rest))) {
        Ok(((bucket, source), target)) => {
            Ok(Request::CopyObject {
                bucket,
                source,
                target,
            })
        }
        Err(fault) => Err(fault),
    }
}

#[tactic(auto, unfolding(crate::specs::Reading::create_upload_in, crate::specs::Reading::row_of))]
fn create_upload_of(alloc: Global, at: u64, bytes: &[u8]) -> Result<Request, LogFault>
    ensures { Gives result (create_upload_in at bytes.now) }
{
    match alone_of(at, target_of(alloc, at, bytes)) {
        Ok((bucket, key)) => Ok(Request::CreateUpload { bucket, key }),
        Err(fault) => Err(fault),
    }
}

#[tactic(auto, unfolding(crate::specs::Reading::upload_part_in, crate::specs::Reading::row_of, crate::specs::Reading::pair_at))]
fn upload_part_of(alloc: Global, at: u64, bytes: &[u8]) -> Result<Request, LogFault>
    ensures { Gives result (upload_part_in at bytes.now) }
{
    let (part, rest) = part_of(alloc, at, bytes)?;
    match alone_of(at, pair_of(part, bytes_of(alloc, at, rest))) {
        Ok(((((bucket, key), upload), number), bytes)) => {
            Ok(Request::UploadPart {
                bucket,
                key,
                upload,
                number,
                bytes,
            })
        }
        Err(fault) => Err(fault),
    }
}

#[tactic(auto, unfolding(crate::specs::Reading::complete_upload_in, crate::specs::Reading::row_of, crate::specs::Reading::pair_at))]
fn complete_upload_of(alloc: Global, at: u64, bytes: &[u8]) -> Result<Request, LogFault>
    ensures { Gives result (complete_upload_in at bytes.now) }
{
    let (upload, rest) = upload_of(alloc, at, bytes)?;
    match alone_of(at, pair_of(upload, parts_of(alloc, at, rest))) {
        Ok((((bucket, key), upload), parts)) => {
            Ok(Request::CompleteUpload {
                bucket,
                key,
                upload,
                parts,
            })
        }
        Err(fault) => Err(fault),
    }
}

#[tactic(auto, unfolding(crate::specs::Reading::abort_upload_in, crate::specs::Reading::row_of))]
fn abort_upload_of(alloc: Global, at: u64, bytes: &[u8]) -> Result<Request, LogFault>
    ensures { Gives result (abort_upload_in at bytes.now) }
{
    match alone_of(at, upload_of(alloc, at, bytes)) {
        Ok(((bucket, key), upload)) => {
            Ok(Request::AbortUpload {
                bucket,
                key,
                upload,
            })
        }
        Err(fault) => Err(fault),
    }
}

/// Reads a change of this kind.
#[tactic(auto, unfolding(crate::specs::Reading::kind_in))]
fn kind_of(alloc: Global, at: u64, kind: u8, bytes: &[u8]) -> Result<Request, LogFault>
    ensures { Gives result (kind_in at kind bytes.now) }
{
    match kind {
        1 => make_bucket_of(alloc, at, bytes),
        2 => put_object_of(alloc, at, bytes),
        3 => delete_object_of(alloc, at, bytes),
        4 => delete_objects_of(alloc, at, bytes),
        5 => copy_object_of(alloc, at, bytes),
        6 => create_upload_of(alloc, at, bytes),
        7 => upload_part_of(alloc, at, bytes),
        8 => complete_upload_of(alloc, at, bytes),
        9 => abort_upload_of(alloc, at, bytes),
        _ => Err(LogFault::Bad(at)),
    }
}

/// Reads a change that all these bytes are. Every fault is reported at the place `at`.
#[tactic(auto, unfolding(crate::specs::Reading::change_in))]
pub fn change_of(alloc: Global, at: u64, bytes: &[u8]) -> Result<Request, LogFault>
    ensures { Gives result (change_in at bytes.now) }
{
    let (kind, rest) = byte_of(at, bytes)?;
    kind_of(alloc, at, kind, rest)
}
