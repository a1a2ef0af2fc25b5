ghost use Rattle.std.specs.Prelude.{◌≡◌, ◌<◌, ◌≤◌, ◌-◌, ◌^◌, ◌++◌, ◌∷◌, [], drop, length, nat_lt, true, OnOk};
ghost use Rattle.std.specs.Int.{w32, w64, to_be_bytes};
ghost use Rattle.std.specs.List.{flat_map, AllByRecursion};
ghost use Rattle.log_format.specs.Change as known;
ghost use Rattle.log_format.specs.Change.{named_in, header, IsText, IsBucket, IsKey, IsNamed, IsTarget, IsUpload, IsChange, AreFew};
ghost use Rattle.log_format.specs.Log.{short, long, block, counted, target, upload, named, body, record_of};
ghost use Rattle.log_format.specs.Log as spelled;

use s3_types::{Bucket, Bytes, Key, LengthHeader, NamedPart, Request, Text};
use std::alloc::AllocError;

/// Whether a request may change a store. Takes no memory.
pub fn is_changing(request: &Request) -> bool
    ensures { result ≡ known.is_changing request.now }
{
    match request {
        Request::MakeBucket { .. } => true,
        Request::PutObject { .. } => true,
        Request::DeleteObject { .. } => true,
        Request::DeleteObjects { .. } => true,
        Request::CopyObject { .. } => true,
        Request::CreateUpload { .. } => true,
        Request::UploadPart { .. } => true,
        Request::CompleteUpload { .. } => true,
        Request::AbortUpload { .. } => true,
        _ => false,
    }
}

/// Whether 4 bytes can count the keys or parts that a request names. Takes no memory.
pub fn can_write(request: &Request) -> bool
    ensures { result ≡ nat_lt (named_in request.now) (2 ^ 32) }
{
    let named = match request {
        Request::DeleteObjects { keys, .. } => keys.len(),
        Request::CompleteUpload { parts, .. } => parts.len(),
        _ => 0,
    };
    (named as u64) < 1 << 32
}

/// Returns the bytes before a base of this length.
pub fn head_of(length: u64) -> [u8; 16]
    ensures { result ≡ spelled.magic ++ long length }
{
    let n = length.to_be_bytes();
    [
        b'S', b'3', b'A', b'L', b'O', b'G', b'0', b'1', n[0], n[1], n[2], n[3], n[4], n[5], n[6],
        n[7],
    ]
}

fn put_u32(out: &mut Vec<u8>, number: u32) -> Result<(), AllocError>
    ensures { OnOk result (out.new.items ≡ out.old.items ++ short number) }
{
    out.extend_from_slice(&number.to_be_bytes())
}

fn put_u64(out: &mut Vec<u8>, number: u64) -> Result<(), AllocError>
    ensures { OnOk result (out.new.items ≡ out.old.items ++ long number) }
{
    out.extend_from_slice(&number.to_be_bytes())
}

fn put_block(out: &mut Vec<u8>, bytes: &[u8]) -> Result<(), AllocError>
    ensures { OnOk result (out.new.items ≡ out.old.items ++ block bytes.now) }
{
    put_u64(out, bytes.len() as u64)?;
    out.extend_from_slice(bytes)
}

/// Returns the bytes of a text, which are UTF-8.
fn utf8_of(text: &Text) -> &[u8]
    ensures same { result.now ≡ text.now }
    ensures utf8 { IsText text.now }
{
    text.as_str().as_bytes()
}

fn put_text(out: &mut Vec<u8>, text: &Text) -> Result<(), AllocError>
    ensures text { OnOk result (out.new.items ≡ out.old.items ++ block text.now) }
    ensures utf8 { IsText text.now }
{
    put_block(out, utf8_of(text))
}

fn put_bucket(out: &mut Vec<u8>, bucket: &Bucket) -> Result<(), AllocError>
    ensures text { OnOk result (out.new.items ≡ out.old.items ++ block bucket.now) }
    ensures legal { IsBucket bucket.now }
{
    put_block(out, bucket.as_bytes())
}

/// Returns the bytes of a key.
fn key_bytes(key: &Key) -> &[u8]
    ensures same { result.now ≡ key.now }
    ensures legal { IsKey key.now }
{
    utf8_of(key.as_text())
}

fn put_key(out: &mut Vec<u8>, key: &Key) -> Result<(), AllocError>
    ensures text { OnOk result (out.new.items ≡ out.old.items ++ block key.now) }
    ensures legal { IsKey key.now }
{
    put_block(out, key_bytes(key))
}

fn put_target(out: &mut Vec<u8>, bucket: &Bucket, key: &Key) -> Result<(), AllocError>
    ensures text { OnOk result (out.new.items ≡ out.old.items ++ target (bucket.now, key.now)) }
    ensures legal { OnOk result (IsTarget (bucket.now, key.now)) }
{
    put_bucket(out, bucket)?;
    put_key(out, key)
}

fn put_upload(out: &mut Vec<u8>, bucket: &Bucket, key: &Key, upload: u64) -> Result<(), AllocError>
    ensures text { OnOk result (out.new.items ≡ out.old.items ++ spelled.upload ((bucket.now, key.now), upload)) }
    ensures legal { OnOk result (IsUpload ((bucket.now, key.now), upload)) }
{
    put_target(out, bucket, key)?;
    put_u64(out, upload)
}

fn put_keys(out: &mut Vec<u8>, keys: &[Key]) -> Result<(), AllocError>
    requires { length keys.now < 2 ^ 32 }
    ensures text { OnOk result (out.new.items ≡ out.old.items ++ counted block keys.now) }
    ensures legal { OnOk result (AllByRecursion IsKey keys.now) }
{
    put_u32(out, keys.len() as u32)?;
    for key in keys {
        put_key(out, key)?;
    }
    Ok(())
}

fn put_named(out: &mut Vec<u8>, part: &NamedPart) -> Result<(), AllocError>
    ensures text { OnOk result (out.new.items ≡ out.old.items ++ named part.now) }
    ensures legal { OnOk result (IsNamed part.now) }
{
    put_u32(out, part.number)?;
    out.extend_from_slice(part.tag.digits())?;
    put_u32(out, part.tag.parts())
}

fn put_parts(out: &mut Vec<u8>, parts: &[NamedPart]) -> Result<(), AllocError>
    requires { length parts.now < 2 ^ 32 }
    ensures text { OnOk result (out.new.items ≡ out.old.items ++ counted named parts.now) }
    ensures legal { OnOk result (AllByRecursion IsNamed parts.now) }
{
    put_u32(out, parts.len() as u32)?;
    for part in parts {
        put_named(out, part)?;
    }
    Ok(())
}

fn header_number(given: Option<LengthHeader>) -> u64
    ensures number { result ≡ header given }
    ensures fits { header given < 2 ^ 64 }
{
    match given {
        Some(length) => length.get() + 1,
        None => 0,
    }
}

fn put_object(
    out: &mut Vec<u8>,
    bucket: &Bucket,
    key: &Key,
    bytes: &Bytes,
    given: Option<LengthHeader>,
) -> Result<(), AllocError>
    ensures text { OnOk result (out.new.items ≡ out.old.items ++
        ((target (bucket.now, key.now) ++ long (header given)) ++ block bytes.now)) }
    ensures legal { OnOk result (IsTarget (bucket.now, key.now) × (header given < 2 ^ 64)) }
{
    put_target(out, bucket, key)?;
    put_u64(out, header_number(given))?;
    put_block(out, bytes.as_slice())
}

fn put_part(
    out: &mut Vec<u8>,
    bucket: &Bucket,
    key: &Key,
    upload: u64,
    number: u32,
    bytes: &Bytes,
) -> Result<(), AllocError>
    ensures text { OnOk result (out.new.items ≡ out.old.items ++
        ((spelled.upload ((bucket.now, key.now), upload) ++ short number) ++ block bytes.now)) }
    ensures legal { OnOk result (IsUpload ((bucket.now, key.now), upload) × (number < 2 ^ 32)) }
{
    put_upload(out, bucket, key, upload)?;
    put_u32(out, number)?;
    put_block(out, bytes.as_slice())
}

/// Returns the byte of a change's kind.
fn kind_of(change: &Request) -> u8
    requires { known.is_changing change.now ≡ true }
    ensures { result ∷ drop 1 (body change.now) ≡ body change.now }
{
    match change {
        Request::MakeBucket { .. } => 1,
        Request::PutObject { .. } => 2,
        Request::DeleteObject { .. } => 3,
        Request::DeleteObjects { .. } => 4,
        Request::CopyObject { .. } => 5,
        Request::CreateUpload { .. } => 6,
        Request::UploadPart { .. } => 7,
        Request::CompleteUpload { .. } => 8,
        Request::AbortUpload { .. } => 9,
        _ => unreachable!(),
    }
}

/// Appends the fields of a change.
fn put_fields(out: &mut Vec<u8>, change: &Request) -> Result<(), AllocError>
    requires changing { known.is_changing change.now ≡ true }
    requires few { named_in change.now < 2 ^ 32 }
    ensures text { OnOk result (out.new.items ≡ out.old.items ++ drop 1 (body change.now)) }
    ensures legal { OnOk result (IsChange change.now) }
{
    match change {
        Request::MakeBucket { name } => put_text(out, name),
        Request::PutObject {
            bucket,
            key,
            bytes,
            header,
        } => put_object(out, bucket, key, bytes, *header),
        Request::DeleteObject { bucket, key } => put_target(out, bucket, key),
        Request::DeleteObjects { bucket, keys } => {
            put_bucket(out, bucket)?;
            put_keys(out, keys.as_slice())
        }
        Request::CopyObject {
            bucket,
            source,
            target,
        } => {
            put_target(out, bucket, source)?;
            put_key(out, target)
        }
        Request::CreateUpload { bucket, key } => put_target(out, bucket, key),
        Request::UploadPart {
            bucket,
            key,
            upload,
            number,
            bytes,
        } => put_part(out, bucket, key, *upload, *number, bytes),
        Request::CompleteUpload {
            bucket,
            key,
            upload,
            parts,
        } => {
            put_upload(out, bucket, key, *upload)?;
            put_parts(out, parts.as_slice())
        }
        Request::AbortUpload {
            bucket,
            key,
            upload,
        } => put_upload(out, bucket, key, *upload),
        _ => unreachable!(),
    }
}

/// Writes the length in bytes of everything after the first 8 bytes over these 8 bytes.
fn set_length(written: &mut [u8])
    requires { 8 ≤ length written.old }
    ensures { written.new ≡ long (length written.old - 8) ++ drop 8 written.old }
{
    let (place, text) = written.split_at_mut(8);
    place.copy_from_slice(&(text.len() as u64).to_be_bytes());
}

/// Replaces the buffer's content by a change, after its length, and a closed gate.
pub fn write_record(buffer: &mut Vec<u8>, change: &Request) -> Result<(), AllocError>
    requires changing { known.is_changing change.now ≡ true }
    requires few { named_in change.now < 2 ^ 32 }
    ensures text { OnOk result (buffer.new.items ≡ record_of change.now ++ 0 ∷ []) }
    ensures legal { OnOk result (IsChange change.now) }
{
    buffer.clear();
    put_u64(buffer, 0)?;
    buffer.push(kind_of(change))?;
    put_fields(buffer, change)?;
    set_length(buffer.as_mut_slice());
    buffer.push(0)?;
    Ok(())
}
