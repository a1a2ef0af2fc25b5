ghost use Rattle.std.specs.Prelude.{◌≡◌, ℕ, ◌≤◌, List, length, map, true, Some, Ok, Err, IfOk, IfErr, OnOk, IsTrue};
ghost use Rattle.std.specs.List.{list_all, flat_map};
ghost use Rattle.s3_types.specs.Tags.{joined_tag};
ghost use Rattle.s3_types.specs.Multipart.{live, rises, rises_from, is_sent, is_large, is_part_number, bytes_of, joined};
ghost use Rattle.multipart.specs.Faults.{IfRefused};
ghost use Rattle.s3_types.specs.declared.limits.TheConstants.{MOST_PARTS};

use crate::fault::UploadFault;
use crate::part::Parts;
use crate::tables::Live;
use crate::uploads::Uploads;
use s3_types::{Bytes, Key, NamedPart, PartList, Refusal, Tag, joined_tag};
use std::alloc::{AllocError, Global};

/// What a completion makes: the bytes of the object, and its tag.
#[derive(Drop)]
pub struct Joined {
    pub bytes: Bytes,
    pub tag: Tag,
}

fn rises_from(number: u32, parts: &[NamedPart]) -> bool
    ensures { result ≡ rises_from number parts.now }
{
    let mut last = number;
    for named in parts {
        if named.number <= last {
            return false;
        }
        last = named.number;
    }
    true
}

fn rises(parts: &[NamedPart]) -> bool
    ensures { result ≡ rises parts.now }
{
    match parts {
        [] => true,
        [first, rest @ ..] => rises_from(first.number, rest),
    }
}

fn is_sent(held: &Parts, named: &NamedPart) -> bool
    ensures sent { result ≡ is_sent held.now named.now }
    ensures number { IsTrue result → is_part_number named.now.number ≡ true }
{
    match held.get(named.number) {
        Some(part) => part.tag() == named.tag,
        None => false,
    }
}

fn all_sent(held: &Parts, parts: &[NamedPart]) -> bool
    ensures sent { result ≡ list_all (is_sent held.now) parts.now }
    ensures numbers { IsTrue result → list_all (λ n. is_part_number n.number) parts.now ≡ true }
{
    for named in parts {
        if !is_sent(held, named) {
            return false;
        }
    }
    true
}

fn is_large(held: &Parts, minimum: u64, named: &NamedPart) -> bool
    ensures { result ≡ is_large held.now minimum named.now }
{
    match held.get(named.number) {
        Some(part) => minimum <= part.bytes().as_slice().len() as u64,
        None => minimum == 0,
    }
}

fn all_large(held: &Parts, minimum: u64, parts: &[NamedPart]) -> bool
    ensures { result ≡ list_all (is_large held.now minimum) parts.now }
{
    for named in parts {
        if !is_large(held, minimum, named) {
            return false;
        }
    }
    true
}

/// Makes the checks of a completion in their order.
fn check(live: &Live, parts: &[NamedPart], minimum: u64) -> Result<(), Refusal>
    ensures ok { OnOk result (joined (Some live.now) parts.now minimum
        ≡ Ok (flat_map (bytes_of live.now.parts) parts.now)) }
    ensures refused { IfErr result (λ refusal. joined (Some live.now) parts.now minimum ≡ Err refusal) }
    ensures few { OnOk result (length parts.now ≤ MOST_PARTS) }
{
    if parts.is_empty() {
        return Err(Refusal::MalformedList);
    }
    if !rises(parts) {
        return Err(Refusal::InvalidPartOrder);
    }
    if !all_sent(live.parts(), parts) {
        return Err(Refusal::InvalidPart);
    }
    if !all_large(live.parts(), minimum, &parts[..parts.len() - 1]) {
        return Err(Refusal::EntityTooSmall);
    }
    Ok(())
}

fn copied_bytes(alloc: Global, held: &Parts, parts: &[NamedPart]) -> Result<Vec<u8>, AllocError>
    ensures { IfOk result (λ bytes. bytes.items ≡ flat_map (bytes_of held.now) parts.now) }
{
    let mut bytes = Vec::new(alloc);
    for named in parts {
        if let Some(part) = held.get(named.number) {
            bytes.extend_from_slice(part.bytes().as_slice())?;
        }
    }
    Ok(bytes)
}

/// Returns the bytes of the named parts, joined. A single part's bytes are shared and not copied.
fn joined_bytes(alloc: Global, held: &Parts, parts: &[NamedPart]) -> Result<Bytes, AllocError>
    ensures { IfOk result (λ bytes. bytes ≡ flat_map (bytes_of held.now) parts.now) }
{
    if let [only] = parts {
        if let Some(part) = held.get(only.number) {
            return part.bytes().clone();
        }
    }
    Bytes::new(alloc, copied_bytes(alloc, held, parts)?)
}

fn tags_of(alloc: Global, parts: &[NamedPart]) -> Result<Vec<Tag>, AllocError>
    ensures { IfOk result (λ tags. tags.items ≡ map (λ n. n.tag) parts.now) }
{
    parts.iter().map(|named| named.tag).collect(alloc)
}

impl Uploads {
    /// Returns the object that a completion of these parts makes: their bytes joined in the order
    /// of the list, and the tag of their joined digests. The upload stays as it is. It is refused,
    /// in this order:
    ///
    /// - with NoSuchUpload if the upload is not live with this key,
    /// - with MalformedList if no part is named,
    /// - with InvalidPartOrder if the numbers do not rise,
    /// - with InvalidPart if a part is missing or has another tag,
    /// - with EntityTooSmall if a part other than the last has fewer bytes than the minimum.
    ///
    /// (Amazon S3 API, CompleteMultipartUpload.)
    pub fn join(
        &self,
        key: &Key,
        upload: u64,
        parts: &PartList,
        minimum: u64,
    ) -> Result<Joined, UploadFault>
        ensures bytes { IfOk result (λ made. joined (live self.now key.now upload) parts.now minimum ≡ Ok made.bytes) }
        ensures tag { IfOk result (λ made. made.tag ≡ joined_tag (map (λ n. n.tag) parts.now)) }
        ensures refused { IfErr result (λ fault. IfRefused fault
            (λ refusal. joined (live self.now key.now upload) parts.now minimum ≡ Err refusal)) }
    {
        let Some(live) = self.live(key, upload) else {
            return Err(UploadFault::Refused(Refusal::NoSuchUpload));
        };
        let alloc = self.allocator();
        let parts = parts.as_slice();
        check(live, parts, minimum)?;
        let tags = tags_of(alloc, parts)?;
        match joined_bytes(alloc, live.parts(), parts) {
            Ok(bytes) => Ok(Joined {
                bytes,
                tag: joined_tag(&tags),
            }),
            Err(_) => Err(UploadFault::NoMemory),
        }
    }
}
