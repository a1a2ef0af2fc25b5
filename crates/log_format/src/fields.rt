ghost use Rattle.std.specs.Prelude.{◌≡◌, ◌<◌, ◌^◌, ◌-◌, List, length, Ok, Err, IfOk, IsErrOf, true};
ghost use Rattle.std.specs.Int.{w32, w64};
ghost use Rattle.std.specs.List.{list_all};
ghost use Rattle.std.specs.Str.{is_utf8};
ghost use Rattle.s3_types.specs.Names.{is_bucket, is_key};
ghost use Rattle.s3_types.specs.Tags.{is_hex};
ghost use Rattle.log_format.specs.Fault.{Gives};
ghost use Rattle.log_format.specs.inner.Fault.{GivesBy};
ghost use Rattle.log_format.specs.Reading.{Read, pair_at, place, bytes_at, byte_at, number_at, block_at, text_at, list_at, counted_at, digits_at, named_at, target_at, upload_at, header_in};
ghost use Rattle.log_format.specs.inner.Reading.{paired};

use crate::fault::LogFault;
use s3_types::{
    Bucket, Bytes, Key, KeyList, LengthHeader, NameFault, NamedPart, PartList, Sequence, Tag, Text,
    are_hex_digits, as_utf8, let_go,
};
use std::alloc::Global;

/// Returns the place where the rest of a whole begins, which has `whole` bytes.
pub fn place_of(whole: u64, rest: &[u8]) -> u64
    ensures { result ≡ place whole rest.now }
{
    whole.saturating_sub(rest.len() as u64)
}

/// Returns the next `count` bytes, and the bytes after them. Else fails with Bad and the place
/// `at`.
#[tactic(auto, unfolding(crate::specs::Reading::bytes_at))]
pub fn front<'b>(at: u64, count: u64, bytes: &'b [u8]) -> Result<(&'b [u8], &'b [u8]), LogFault>
    ensures exact { GivesBy (λ x. (x.0.now, x.1.now)) result (bytes_at at count bytes.now) }
    ensures len { IfOk result (λ x. length x.0.now ≡ count) }
    ensures sure { IsErrOf result LogFault.NoMemory → ⊥ }
{
    if (bytes.len() as u64) < count {
        return Err(LogFault::Bad(at));
    }
    Ok(bytes.split_at(count as usize))
}

/// Returns the next byte, and the bytes after it. Else fails with Bad and the place `at`.
#[tactic(auto, unfolding(crate::specs::Reading::bytes_at, crate::specs::Reading::byte_at))]
pub fn byte_of(at: u64, bytes: &[u8]) -> Result<(u8, &[u8]), LogFault>
    ensures { GivesBy (λ x. (x.0, x.1.now)) result (byte_at at bytes.now) }
{
    let (b, rest) = front(at, 1, bytes)?;
    Ok((b[0], rest))
}

/// Returns the next 4 bytes as a number, and the bytes after them. Else fails with Bad and the
/// place `at`.
#[tactic(auto, unfolding(crate::specs::Reading::bytes_at, crate::specs::Reading::number_at))]
pub fn u32_of(at: u64, bytes: &[u8]) -> Result<(u32, &[u8]), LogFault>
    ensures { GivesBy (λ x. (x.0, x.1.now)) result (number_at w32 at bytes.now) }
{
    let (n, rest) = front(at, 4, bytes)?;
    Ok((u32::from_be_bytes([n[0], n[1], n[2], n[3]]), rest))
}

/// Returns the next 8 bytes as a number, and the bytes after them. Else fails with Bad and the
/// place `at`.
#[tactic(auto, unfolding(crate::specs::Reading::bytes_at, crate::specs::Reading::number_at))]
pub fn u64_of(at: u64, bytes: &[u8]) -> Result<(u64, &[u8]), LogFault>
    ensures exact { GivesBy (λ x. (x.0, x.1.now)) result (number_at w64 at bytes.now) }
    ensures sure { IsErrOf result LogFault.NoMemory → ⊥ }
{
    let (n, rest) = front(at, 8, bytes)?;
    let number = u64::from_be_bytes([n[0], n[1], n[2], n[3], n[4], n[5], n[6], n[7]]);
    Ok((number, rest))
}

/// Reads bytes, after their length in 8 bytes.
#[tactic(auto, unfolding(crate::specs::Reading::block_at))]
pub fn block_of(at: u64, bytes: &[u8]) -> Result<(&[u8], &[u8]), LogFault>
    ensures exact { GivesBy (λ x. (x.0.now, x.1.now)) result (block_at at bytes.now) }
    ensures sure { IsErrOf result LogFault.NoMemory → ⊥ }
{
    let (count, rest) = u64_of(at, bytes)?;
    front(at, count, rest)
}

/// Reads bytes, after their length in 8 bytes, and copies them.
pub fn bytes_of<'b>(alloc: Global, at: u64, bytes: &'b [u8]) -> Result<(Bytes, &'b [u8]), LogFault>
    ensures { GivesBy (λ x. (x.0, x.1.now)) result (block_at at bytes.now) }
{
    let (block, rest) = block_of(at, bytes)?;
    Ok((Bytes::from_slice(alloc, block)?, rest))
}

/// Reads a text.
#[tactic(auto, unfolding(crate::specs::Reading::text_at))]
pub fn text_of<'b>(alloc: Global, at: u64, bytes: &'b [u8]) -> Result<(Text, &'b [u8]), LogFault>
    ensures { GivesBy (λ x. (x.0, x.1.now)) result (text_at is_utf8 at bytes.now) }
{
    let (block, rest) = block_of(at, bytes)?;
    let Some(text) = as_utf8(block) else {
        return Err(LogFault::Bad(at));
    };
    Ok((Text::copied(alloc, text)?, rest))
}

/// Reads a bucket's name.
#[tactic(auto, unfolding(crate::specs::Reading::text_at))]
pub fn bucket_of<'b>(
    alloc: Global,
    at: u64,
    bytes: &'b [u8],
) -> Result<(Bucket, &'b [u8]), LogFault>
    ensures { GivesBy (λ x. (x.0, x.1.now)) result (text_at is_bucket at bytes.now) }
{
    let (block, rest) = block_of(at, bytes)?;
    match Bucket::read(alloc, block) {
        Ok(bucket) => Ok((bucket, rest)),
        Err(NameFault::BadName) => Err(LogFault::Bad(at)),
        Err(NameFault::NoMemory) => Err(LogFault::NoMemory),
    }
}

/// Reads a key.
#[tactic(auto, unfolding(crate::specs::Reading::text_at))]
pub fn key_of<'b>(alloc: Global, at: u64, bytes: &'b [u8]) -> Result<(Key, &'b [u8]), LogFault>
    ensures { GivesBy (λ x. (x.0, x.1.now)) result (text_at is_key at bytes.now) }
{
    let (block, rest) = block_of(at, bytes)?;
    match Key::read(alloc, block) {
        Ok(key) => Ok((key, rest)),
        Err(NameFault::BadName) => Err(LogFault::Bad(at)),
        Err(NameFault::NoMemory) => Err(LogFault::NoMemory),
    }
}

/// Reads `count` keys.
#[tactic(auto, unfolding(crate::specs::Reading::list_at))]
fn keys_in<'b>(
    alloc: Global,
    at: u64,
    count: u32,
    bytes: &'b [u8],
) -> Result<(KeyList, &'b [u8]), LogFault>
    ensures { GivesBy (λ x. (x.0, x.1.now)) result (list_at (text_at is_key at) count bytes.now) }
{
    let mut keys = Vec::new(alloc);
    let mut rest = bytes;
    for _ in 0..count {
        match key_of(alloc, at, rest) {
            Ok((key, after)) => {
                keys.push(key)?;
                rest = after;
            }
            Err(fault) => return Err(fault),
        }
    }
    Ok((Sequence::from_vec(keys), rest))
}

/// Reads keys, after their count in 4 bytes.
#[tactic(auto, unfolding(crate::specs::Reading::counted_at))]
pub fn keys_of<'b>(alloc: Global, at: u64, bytes: &'b [u8]) -> Result<(KeyList, &'b [u8]), LogFault>
    ensures { GivesBy (λ x. (x.0, x.1.now)) result (counted_at (text_at is_key at) at bytes.now) }
{
    let (count, rest) = u32_of(at, bytes)?;
    keys_in(alloc, at, count, rest)
}

/// Reads the 32 digits of a tag.
#[tactic(auto, unfolding(crate::specs::Reading::bytes_at, crate::specs::Reading::digits_at))]
fn digits_of(at: u64, bytes: &[u8]) -> Result<([u8; 32], &[u8]), LogFault>
    ensures exact { GivesBy (λ x. (x.0, x.1.now)) result (digits_at at bytes.now) }
    ensures hex { IfOk result (λ x. list_all is_hex x.0 ≡ true) }
{
    let (text, rest) = front(at, 32, bytes)?;
    let Ok(digits) = <[u8; 32]>::try_from(text) else {
        return Err(LogFault::Bad(at));
    };
    if !are_hex_digits(text) {
        return Err(LogFault::Bad(at));
    }
    Ok((digits, rest))
}

/// Reads a named part: its number, the digits of its tag, and the tag's count of parts.
#[tactic(auto, unfolding(crate::specs::Reading::named_at, crate::specs::Reading::pair_at))]
fn named_of(at: u64, bytes: &[u8]) -> Result<(NamedPart, &[u8]), LogFault>
    ensures { GivesBy (λ x. (x.0, x.1.now)) result (named_at at bytes.now) }
{
    let (number, rest) = u32_of(at, bytes)?;
    let (digits, rest) = digits_of(at, rest)?;
    let (parts, rest) = u32_of(at, rest)?;
    let tag = Tag::new(digits, parts);
    Ok((NamedPart { number, tag }, rest))
}

/// Reads `count` named parts.
#[tactic(auto, unfolding(crate::specs::Reading::list_at))]
fn parts_in(alloc: Global, at: u64, count: u32, bytes: &[u8]) -> Result<(PartList, &[u8]), LogFault>
    ensures { GivesBy (λ x. (x.0, x.1.now)) result (list_at (named_at at) count bytes.now) }
{
    let mut parts = Vec::new(alloc);
    let mut rest = bytes;
    for _ in 0..count {
        match named_of(at, rest) {
            Ok((part, after)) => {
                parts.push(part)?;
                rest = after;
            }
            Err(fault) => return Err(fault),
        }
    }
    Ok((Sequence::from_vec(parts), rest))
}

/// Reads named parts, after their count in 4 bytes.
#[tactic(auto, unfolding(crate::specs::Reading::counted_at))]
pub fn parts_of<'b>(
    alloc: Global,
    at: u64,
    bytes: &'b [u8],
) -> Result<(PartList, &'b [u8]), LogFault>
    ensures { GivesBy (λ x. (x.0, x.1.now)) result (counted_at (named_at at) at bytes.now) }
{
    let (count, rest) = u32_of(at, bytes)?;
    parts_in(alloc, at, count, rest)
}

/// Returns the first value together with the one that was read after it.
pub fn pair_of<'b, A: Drop, B>(
    first: A,
    second: Result<(B, &'b [u8]), LogFault>,
) -> Result<((A, B), &'b [u8]), LogFault>
    ensures { (read : Read B) → GivesBy (λ b. (b.0, b.1.now)) second.entry read → GivesBy (λ x. (x.0, x.1.now)) result (paired first read) }
{
    match second {
        Ok((second, rest)) => Ok(((first, second), rest)),
        Err(fault) => {
            let_go(first);
            Err(fault)
        }
    }
}

/// Reads a bucket and a key.
#[tactic(auto, unfolding(crate::specs::Reading::target_at, crate::specs::Reading::pair_at))]
pub fn target_of<'b>(
    alloc: Global,
    at: u64,
    bytes: &'b [u8],
) -> Result<((Bucket, Key), &'b [u8]), LogFault>
    ensures { GivesBy (λ x. ((x.0.0, x.0.1), x.1.now)) result (target_at at bytes.now) }
{
    let (bucket, rest) = bucket_of(alloc, at, bytes)?;
    pair_of(bucket, key_of(alloc, at, rest))
}

/// Reads a bucket, a key and the id of an upload.
#[tactic(auto, unfolding(crate::specs::Reading::upload_at, crate::specs::Reading::pair_at))]
pub fn upload_of<'b>(
    alloc: Global,
    at: u64,
    bytes: &'b [u8],
) -> Result<(((Bucket, Key), u64), &'b [u8]), LogFault>
    ensures { GivesBy (λ x. (((x.0.0.0, x.0.0.1), x.0.1), x.1.now)) result (upload_at at bytes.now) }
{
    let (target, rest) = target_of(alloc, at, bytes)?;
    pair_of(target, u64_of(at, rest))
}

/// Reads a bucket, a key, the id of an upload and the number of a part.
#[tactic(auto, unfolding(crate::specs::Reading::pair_at))]
pub fn part_of<'b>(
    alloc: Global,
    at: u64,
    bytes: &'b [u8],
) -> Result<((((Bucket, Key), u64), u32), &'b [u8]), LogFault>
    ensures { GivesBy (λ x. ((((x.0.0.0.0, x.0.0.0.1), x.0.0.1), x.0.1), x.1.now)) result
        (pair_at (upload_at at) (number_at w32 at) bytes.now) }
{
    let (upload, rest) = upload_of(alloc, at, bytes)?;
    pair_of(upload, u32_of(at, rest))
}

/// Returns the header of a number: None for 0, else the number minus 1.
pub fn header_of(number: u64) -> Option<LengthHeader>
    ensures { result ≡ header_in number }
{
    if number == 0 {
        return None;
    }
    Some(LengthHeader::new(number - 1))
}
