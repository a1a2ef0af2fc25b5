ghost use Rattle.std.specs.Prelude.{◌≡◌, ◌<◌, ◌≤◌, ◌^◌, ℕ, List, length, Ok, Err, Some, None, IfOk, IfErr, OnOk, IsSome, true};
ghost use Rattle.std.specs.FinMap as fin;
ghost use Rattle.std.specs.Int.{w64};
ghost use Rattle.std.specs.Ordering.{nat_cmp};
ghost use Rattle.text_and_lists.specs.Reading.{made};
ghost use Rattle.s3_types.specs.Store.{Content};
ghost use Rattle.s3_types.specs.Names.{is_bucket, is_key};
ghost use Rattle.s3_types.specs.Multipart.{live, is_part_number};
ghost use Rattle.s3_types.specs.Answer.{part_put};
ghost use Rattle.s3_service.specs.Ids.{IsFresh};
ghost use Rattle.store_image.specs.Image.{image};
ghost use Rattle.store_image.specs.Content.{IsContent};
ghost use Rattle.store_image.specs.Fault.{Gives};
ghost use Rattle.store_image.specs.inner.Fault.{GivesBy};
ghost use Rattle.store_image.specs.Reading.{block_at, name_at, id_at, part_number_at, map_at, object_at, upload_at, bucket_at, store_at, content_in};

use crate::fault::ImageFault;
use crate::fields::{
    block_of, bucket_name_of, head_of, header_of, id_of, key_of, part_number_of, place_of, u16_of,
    u64_of,
};
use multipart::{UploadFault, Uploads};
use object_store::Objects;
use s3_service::Service;
use s3_types::{Bucket, Bytes, Key, Object};
use std::alloc::Global;

/// Reads an object, without its key.
#[tactic(auto, unfolding(crate::specs::Reading::object_at))]
fn object_of<'b>(
    alloc: Global,
    whole: u64,
    bytes: &'b [u8],
) -> Result<(Object, &'b [u8]), ImageFault>
    ensures { GivesBy (λ x. (x.0, x.1.now)) result (object_at whole bytes.now) }
{
    let (number, rest) = u64_of(whole, bytes)?;
    let header = header_of(number);
    let (bytes, rest) = block_of(alloc, whole, rest)?;
    Ok((Object { bytes, header }, rest))
}

/// Reads `count` objects, by rising keys.
#[tactic(auto, unfolding(crate::specs::Reading::rising_at))]
fn objects_of<'b>(
    alloc: Global,
    whole: u64,
    count: u64,
    bytes: &'b [u8],
) -> Result<(Objects, &'b [u8]), ImageFault>
    ensures { GivesBy (λ x. (x.0, x.1.now)) result (map_at (name_at is_key whole) (object_at whole) count bytes.now) }
{
    let mut objects = Objects::new(alloc);
    let mut last: Option<Key> = None;
    let mut rest = bytes;
    for _ in 0..count {
        let (key, after) = key_of(alloc, whole, &last, rest)?;
        let (object, after) = object_of(alloc, whole, after)?;
        let copy = key.clone()?;
        objects.put(key, object.bytes, object.header)?;
        last = Some(copy);
        rest = after;
    }
    Ok((objects, rest))
}

/// Puts a part into a live upload.
fn put_part(
    uploads: &mut Uploads,
    key: &Key,
    id: u64,
    number: u16,
    bytes: Bytes,
) -> Result<(), ImageFault>
    requires number { is_part_number number ≡ true }
    requires live { IsSome (live uploads.old key.now id) }
    ensures put { OnOk result (uploads.new ≡ part_put uploads.old id (live uploads.old key.now id) number bytes) }
    ensures memory { IfErr result (λ e. e ≡ ImageFault.NoMemory) }
{
    match uploads.part(key, id, u32::from(number), bytes) {
        Ok(_) => Ok(()),
        Err(UploadFault::NoMemory) => Err(ImageFault::NoMemory),
        Err(UploadFault::Refused(_)) => unreachable!(),
    }
}

/// Reads `count` parts, by rising numbers, and puts them into an upload that has none.
#[tactic(auto, unfolding(crate::specs::Reading::rising_at))]
fn parts_of<'b>(
    alloc: Global,
    whole: u64,
    uploads: &mut Uploads,
    key: &Key,
    id: u64,
    count: u16,
    bytes: &'b [u8],
) -> Result<&'b [u8], ImageFault>
    requires { fin.get uploads.old id ≡ Some (record { key = key.now; parts = fin.empty }) }
    ensures { GivesBy (λ rest. (uploads.new, rest.now)) result
        (made (λ ps. fin.insert uploads.old id (record {
          key = key.now;
          parts = ps;
        })) (map_at (part_number_at whole) (block_at w64 whole) count bytes.now)) }
{
    let mut last = None;
    let mut rest = bytes;
    for _ in 0..count {
        let (number, after) = part_number_of(whole, last, rest)?;
        let (block, after) = block_of(alloc, whole, after)?;
        put_part(uploads, key, id, number, block)?;
        last = Some(u64::from(number));
        rest = after;
    }
    Ok(rest)
}

/// Reads an upload, and adds it with this id.
#[tactic(auto, unfolding(crate::specs::Reading::upload_at, crate::specs::Reading::counted_at))]
fn upload_of<'b>(
    alloc: Global,
    whole: u64,
    uploads: &mut Uploads,
    id: u64,
    bytes: &'b [u8],
) -> Result<&'b [u8], ImageFault>
    requires { (i : ℕ) → id ≤ i → fin.get uploads.old i ≡ None }
    ensures { GivesBy (λ rest. (uploads.new, rest.now)) result
        (made (fin.insert uploads.old id) (upload_at whole bytes.now)) }
{
    let (key, rest) = key_of(alloc, whole, &None, bytes)?;
    uploads.create(id, key.clone()?)?;
    let (count, rest) = u16_of(whole, rest)?;
    parts_of(alloc, whole, uploads, &key, id, count, rest)
}

/// Reads `count` uploads, by rising ids.
#[tactic(auto, unfolding(crate::specs::Reading::rising_at))]
fn uploads_of<'b>(
    alloc: Global,
    next: u64,
    whole: u64,
    count: u64,
    bytes: &'b [u8],
) -> Result<(Uploads, &'b [u8]), ImageFault>
    ensures exact { GivesBy (λ x. (x.0, x.1.now)) result (map_at (id_at next whole) (upload_at whole) count bytes.now) }
    ensures below { IfOk result (λ x. IsFresh x.0 next) }
{
    let mut uploads = Uploads::new(alloc);
    let mut last = None;
    let mut rest = bytes;
    for _ in 0..count {
        let (id, after) = id_of(next, whole, last, rest)?;
        rest = upload_of(alloc, whole, &mut uploads, id, after)?;
        last = Some(id);
    }
    Ok((uploads, rest))
}

/// Reads the content of a bucket, without its name.
#[tactic(auto, unfolding(crate::specs::Reading::bucket_at, crate::specs::Reading::counted_at))]
fn contents_of<'b>(
    alloc: Global,
    next: u64,
    whole: u64,
    bytes: &'b [u8],
) -> Result<((Objects, Uploads), &'b [u8]), ImageFault>
    ensures exact { GivesBy (λ x. (record { objects = x.0.0; uploads = x.0.1 }, x.1.now)) result
        (bucket_at next whole bytes.now) }
    ensures below { IfOk result (λ x. IsFresh x.0.1 next) }
{
    let (count, rest) = u64_of(whole, bytes)?;
    let (objects, rest) = objects_of(alloc, whole, count, rest)?;
    let (count, rest) = u64_of(whole, rest)?;
    let (uploads, rest) = uploads_of(alloc, next, whole, count, rest)?;
    Ok(((objects, uploads), rest))
}

/// Reads `count` buckets, by rising names, and adds them to a store that has none.
#[tactic(auto, unfolding(crate::specs::Reading::rising_at))]
fn buckets_of<'b>(
    alloc: Global,
    whole: u64,
    service: &mut Service,
    count: u64,
    bytes: &'b [u8],
) -> Result<&'b [u8], ImageFault>
    requires { service.old.buckets ≡ fin.empty }
    ensures { GivesBy (λ rest. (service.new, rest.now)) result (made (λ bs. record {
      buckets = bs;
      next = service.old.next;
      minimum = service.old.minimum;
    }) (map_at (name_at is_bucket whole) (bucket_at service.old.next whole) count
        bytes.now)) }
{
    let mut last: Option<Bucket> = None;
    let mut rest = bytes;
    for _ in 0..count {
        let (name, after) = bucket_name_of(alloc, whole, &last, rest)?;
        let ((objects, uploads), after) = contents_of(alloc, service.next_upload(), whole, after)?;
        let copy = name.clone()?;
        service.add_bucket(name, objects, uploads)?;
        last = Some(copy);
        rest = after;
    }
    Ok(rest)
}

/// Reads a store, and returns the bytes after it.
#[tactic(auto, unfolding(crate::specs::Reading::store_at, crate::specs::Reading::counted_at))]
fn store_of(alloc: Global, whole: u64, bytes: &[u8]) -> Result<(Service, &[u8]), ImageFault>
    ensures { GivesBy (λ x. (x.0, x.1.now)) result (store_at whole bytes.now) }
{
    let ((minimum, counter), rest) = head_of(whole, bytes)?;
    let mut service = Service::restore(alloc, minimum, counter);
    let (count, rest) = u64_of(whole, rest)?;
    let rest = buckets_of(alloc, whole, &mut service, count, rest)?;
    Ok((service, rest))
}

/// Reads the store whose image the bytes are.
#[tactic(auto, unfolding(crate::specs::Reading::content_in))]
fn all_of(alloc: Global, whole: u64, bytes: &[u8]) -> Result<Service, ImageFault>
    requires { whole ≡ length bytes.now }
    ensures { Gives result (content_in bytes.now) }
{
    let (service, rest) = store_of(alloc, whole, bytes)?;
    if !rest.is_empty() {
        return Err(ImageFault::Trailing(place_of(whole, rest)));
    }
    Ok(service)
}

/// Reads an image in one pass. Each entry takes O(log n) to find its place, each byte is copied at
/// most once, and each part is hashed once. It reserves no memory just because a length or a count
/// says so. The fault is the first from left to right. Fields are read in their order. A name is
/// checked before its place in the order, and an id's place in the order before the counter.
pub fn decode(alloc: Global, bytes: &[u8]) -> Result<Service, ImageFault>
    // The content that is read can have an image, and the bytes are its image.
    ensures found { IfOk result (λ c. IsContent c × (bytes.now ≡ image c)) }
    // If the bytes are the image of a content, that content is read, unless memory runs out.
    ensures only { (c : Content) → IsContent c → bytes.now ≡ image c → Gives result (Ok c) }
    // Bytes are the image of at most one content.
    ensures one { (c d : Content) → IsContent c → IsContent d → bytes.now ≡ image c → bytes.now ≡ image d → c ≡ d }
    // It says which fault it is, and its place.
    ensures exact { Gives result (content_in bytes.now) }
{
    let whole = bytes.len() as u64;
    all_of(alloc, whole, bytes)
}
