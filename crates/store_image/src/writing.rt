ghost use Rattle.std.specs.Prelude.{◌≡◌, ◌<◌, ◌^◌, ◌++◌, ◌+◌, length, OnOk, OnErr};
ghost use Rattle.std.specs.Int.{w16, w64, to_be_bytes};
ghost use Rattle.store_image.specs.Image.{name, block, counted, header, object, part, upload, bucket, image};

use multipart::{Parts, UploadView, Uploads};
use object_store::Objects;
use s3_service::{BucketView, Service};
use s3_types::{Bytes, Key, LengthHeader, Object};
use std::alloc::{AllocError, Global};

fn put_u64(out: &mut Vec<u8>, number: u64) -> Result<(), AllocError>
    ensures { OnOk result (out.new.items ≡ out.old.items ++ to_be_bytes w64 number) }
{
    out.extend_from_slice(&number.to_be_bytes())
}

fn put_u16(out: &mut Vec<u8>, number: u16) -> Result<(), AllocError>
    ensures { OnOk result (out.new.items ≡ out.old.items ++ to_be_bytes w16 number) }
{
    out.extend_from_slice(&number.to_be_bytes())
}

fn put_name(out: &mut Vec<u8>, text: &[u8]) -> Result<(), AllocError>
    requires { length text.now < 2 ^ 16 }
    ensures { OnOk result (out.new.items ≡ out.old.items ++ name text.now) }
{
    put_u16(out, text.len() as u16)?;
    out.extend_from_slice(text)
}

fn put_block(out: &mut Vec<u8>, bytes: &Bytes) -> Result<(), AllocError>
    ensures { OnOk result (out.new.items ≡ out.old.items ++ block bytes.now) }
{
    let bytes = bytes.as_slice();
    put_u64(out, bytes.len() as u64)?;
    out.extend_from_slice(bytes)
}

fn header_number(given: Option<LengthHeader>) -> u64
    ensures { result ≡ header given }
{
    match given {
        Some(length) => length.get() + 1,
        None => 0,
    }
}

fn put_object(out: &mut Vec<u8>, key: &Key, held: &Object) -> Result<(), AllocError>
    ensures { OnOk result (out.new.items ≡ out.old.items ++ object (key.now, held.now)) }
{
    put_name(out, key.as_bytes())?;
    put_u64(out, header_number(held.header))?;
    put_block(out, &held.bytes)
}

fn put_objects(out: &mut Vec<u8>, objects: &Objects) -> Result<(), AllocError>
    ensures { OnOk result (out.new.items ≡ out.old.items ++ counted w64 object objects.now) }
{
    put_u64(out, objects.count())?;
    for (key, object) in objects.iter() {
        put_object(out, key, object)?;
    }
    Ok(())
}

fn put_part(out: &mut Vec<u8>, number: u32, bytes: &Bytes) -> Result<(), AllocError>
    requires { number < 2 ^ 16 }
    ensures { OnOk result (out.new.items ≡ out.old.items ++ part (number, bytes.now)) }
{
    put_u16(out, number as u16)?;
    put_block(out, bytes)
}

fn put_parts(out: &mut Vec<u8>, parts: &Parts) -> Result<(), AllocError>
    ensures { OnOk result (out.new.items ≡ out.old.items ++ counted w16 part parts.now) }
{
    put_u16(out, parts.count() as u16)?;
    for (number, bytes) in parts.iter() {
        put_part(out, number, bytes)?;
    }
    Ok(())
}

fn put_upload(out: &mut Vec<u8>, live: UploadView<'_>) -> Result<(), AllocError>
    ensures { OnOk result (out.new.items ≡ out.old.items ++ upload
        (live.entry.upload, record { key = live.entry.key.now; parts = live.entry.parts.now })) }
{
    put_u64(out, live.upload)?;
    put_name(out, live.key.as_bytes())?;
    put_parts(out, live.parts)
}

fn put_uploads(out: &mut Vec<u8>, uploads: &Uploads) -> Result<(), AllocError>
    ensures { OnOk result (out.new.items ≡ out.old.items ++ counted w64 upload uploads.now) }
{
    put_u64(out, uploads.count())?;
    for live in uploads.iter() {
        put_upload(out, live)?;
    }
    Ok(())
}

fn put_bucket(out: &mut Vec<u8>, held: BucketView<'_>) -> Result<(), AllocError>
    ensures { OnOk result (out.new.items ≡ out.old.items ++ bucket
        (held.entry.name.now, record { objects = held.entry.objects.now; uploads = held.entry.uploads.now })) }
{
    put_name(out, held.name.as_bytes())?;
    put_objects(out, held.objects)?;
    put_uploads(out, held.uploads)
}

fn put_buckets(out: &mut Vec<u8>, service: &Service) -> Result<(), AllocError>
    ensures { OnOk result (out.new.items ≡ out.old.items ++ counted w64 bucket service.now.buckets) }
{
    put_u64(out, service.buckets())?;
    for held in service.iter() {
        put_bucket(out, held)?;
    }
    Ok(())
}

fn put_service(out: &mut Vec<u8>, service: &Service) -> Result<(), AllocError>
    ensures { OnOk result (out.new.items ≡ out.old.items ++ image service.now) }
{
    out.extend_from_slice(b"S3AIMG01")?;
    put_u64(out, service.minimum())?;
    put_u64(out, service.next_upload())?;
    put_buckets(out, service)
}

/// Appends the image of everything that the service holds, in time linear in its size. If `out` is
/// empty, the image is written once and not copied. If memory runs out, `out` is as before.
pub fn encode(alloc: Global, service: &Service, out: &mut Vec<u8>) -> Result<(), AllocError>
    ensures ok { OnOk result (out.new.items ≡ out.old.items ++ image service.now) }
    ensures err { OnErr result (out.new.items ≡ out.old.items) }
{
    let mut image = Vec::new(alloc);
    put_service(&mut image, service)?;
    if out.is_empty() {
        *out = image;
        return Ok(());
    }
    out.extend_from_slice(&image)
}
