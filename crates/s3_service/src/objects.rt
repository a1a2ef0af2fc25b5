ghost use Rattle.std.specs.Prelude.{◌≡◌, IfOk, OnOk, OnErr, length, nat_lt, cond};
ghost use Rattle.std.specs.FinMap as map;
ghost use Rattle.s3_types.specs.Tags.{plain_tag};
ghost use Rattle.s3_types.specs.Pages as pages;
ghost use Rattle.s3_types.specs.Answer.{found, head, copy_answer, copied, without};
ghost use Rattle.s3_types.specs.declared.limits.TheConstants.{MOST_ENTRIES};

use object_store::{CopyFault, Objects};
use s3_types::{Bytes, Key, KeyList, LengthHeader, PageLimit, Refusal, Reply, Text, part_tag};
use std::alloc::AllocError;

/// Stores an object. If memory runs out, the objects are as before.
pub fn store(
    objects: &mut Objects,
    key: &Key,
    bytes: &Bytes,
    header: Option<LengthHeader>,
) -> Result<(), AllocError>
    ensures ok { OnOk result (objects.new ≡ map.insert objects.old key.now (record {
      bytes = bytes.now;
      header = header;
    })) }
    ensures err { OnErr result (objects.new ≡ objects.old) }
{
    let key = key.clone()?;
    let bytes = bytes.clone()?;
    objects.put(key, bytes, header)
}

/// PutObject: stores the object, and answers the tag of its bytes. If memory runs out, the objects
/// are as before.
pub fn put(
    objects: &mut Objects,
    key: &Key,
    bytes: &Bytes,
    header: Option<LengthHeader>,
) -> Result<Reply, AllocError>
    ensures reply { IfOk result (λ r. r ≡ Reply.Stored (plain_tag bytes.now)) }
    ensures ok { OnOk result (objects.new ≡ map.insert objects.old key.now (record {
      bytes = bytes.now;
      header = header;
    })) }
    ensures err { OnErr result (objects.new ≡ objects.old) }
{
    store(objects, key, bytes, header)?;
    Ok(Reply::Stored(part_tag(bytes.as_slice())))
}

/// GetObject: answers the object's bytes and length header, or NoSuchKey.
pub fn get(objects: &Objects, key: &Key) -> Result<Reply, AllocError>
    ensures { IfOk result (λ r. r ≡ found (map.get objects.now key.now)) }
{
    let Some(object) = objects.get(key) else {
        return Ok(Reply::Refused(Refusal::NoSuchKey));
    };
    let bytes = object.bytes.clone()?;
    Ok(Reply::Object {
        bytes,
        header: object.header,
    })
}

/// HeadObject: answers the object's length in bytes and its header, or NoSuchKey.
pub fn head(objects: &Objects, key: &Key) -> Reply
    ensures { result ≡ head (map.get objects.now key.now) }
{
    match objects.get(key) {
        Some(object) => Reply::Head {
            length: object.bytes.as_slice().len() as u64,
            header: object.header,
        },
        None => Reply::Refused(Refusal::NoSuchKey),
    }
}

/// DeleteObjects: removes the keys, and ignores those that do not exist. More than 1,000 keys are
/// refused.
pub fn delete_many(objects: &mut Objects, keys: &KeyList) -> Reply
    ensures reply { result ≡ cond (nat_lt MOST_ENTRIES (length keys.now)) (Reply.Refused Refusal.TooManyKeys)
        Reply.Deleted }
    ensures left { objects.new ≡ cond (nat_lt MOST_ENTRIES (length keys.now)) objects.old
        (without objects.old keys.now) }
{
    match objects.delete_many(keys.as_slice()) {
        Ok(()) => Reply::Deleted,
        Err(refusal) => Reply::Refused(refusal),
    }
}

/// CopyObject: gives the target the source's object, or answers NoSuchKey. If memory runs out, the
/// objects are as before.
pub fn copy(objects: &mut Objects, source: &Key, target: &Key) -> Result<Reply, AllocError>
    ensures reply { IfOk result (λ r. r ≡ copy_answer (map.get objects.old source.now)) }
    ensures ok { OnOk result (objects.new ≡ copied objects.old target.now (map.get objects.old source.now)) }
    ensures err { OnErr result (objects.new ≡ objects.old) }
{
    match objects.copy(source, target) {
        Ok(()) => Ok(Reply::Copied),
        Err(CopyFault::NoSuchKey) => Ok(Reply::Refused(Refusal::NoSuchKey)),
        Err(CopyFault::NoMemory) => Err(AllocError),
    }
}

/// ListObjectsV2: answers the first `limit` entries after `after`, and whether more remain.
pub fn list_page(
    objects: &Objects,
    prefix: &Text,
    delimited: bool,
    after: &Text,
    limit: PageLimit,
) -> Result<Reply, AllocError>
    ensures { IfOk result (λ r. r ≡ pages.page limit (pages.listed prefix.now delimited after.now objects.now)) }
{
    let page = objects.list_page(prefix, delimited, after, limit)?;
    Ok(Reply::Page {
        entries: page.entries,
        more: page.more,
    })
}
