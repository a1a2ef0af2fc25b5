ghost use Rattle.std.specs.Prelude.{◌≡◌, ◌<◌, ◌^◌, List, length, Ok, Err, OnOk, IfOk, true, bytes_eq};
ghost use Rattle.std.specs.Option.{option_copied};
ghost use Rattle.std.specs.Int.{w16, w64};
ghost use Rattle.std.specs.Ordering.{nat_cmp};
ghost use Rattle.text_and_lists.specs.Order.{text_cmp};
ghost use Rattle.s3_types.specs.Names.{is_bucket, is_key};
ghost use Rattle.s3_types.specs.Multipart.{is_part_number};
ghost use Rattle.store_image.specs.inner.Fault.{GivesBy};
ghost use Rattle.store_image.specs.Content.{is_minimum, is_counter, is_id};
ghost use Rattle.store_image.specs.Reading.{place, bytes_at, number_at, block_at, is_after, name_at, id_at, part_number_at, object_at, head_at, header_in};

use crate::fault::ImageFault;
use s3_types::{Bucket, Bytes, Key, LengthHeader, MOST_MINIMUM, MOST_PARTS, NameFault};
use std::alloc::Global;
use std::cmp::Ordering;

/// Returns the place where the rest of a whole begins, which has `whole` bytes.
pub fn place_of(whole: u64, rest: &[u8]) -> u64
    ensures { result ≡ place whole rest.now }
{
    whole.saturating_sub(rest.len() as u64)
}

/// Returns the next `count` bytes, which are one field, and the bytes after them.
#[tactic(auto, unfolding(crate::specs::Reading::bytes_at))]
fn front<'b>(whole: u64, count: u64, bytes: &'b [u8]) -> Result<(&'b [u8], &'b [u8]), ImageFault>
    ensures { GivesBy (λ x. (x.0.now, x.1.now)) result (bytes_at whole count bytes.now) }
{
    if (bytes.len() as u64) < count {
        return Err(ImageFault::Short(place_of(whole, bytes)));
    }
    Ok(bytes.split_at(count as usize))
}

/// Returns the next 2 bytes as a number, and the bytes after them. Else fails with Short at their
/// place.
#[tactic(auto, unfolding(crate::specs::Reading::bytes_at, crate::specs::Reading::number_at))]
pub fn u16_of(whole: u64, bytes: &[u8]) -> Result<(u16, &[u8]), ImageFault>
    ensures { GivesBy (λ x. (x.0, x.1.now)) result (number_at w16 whole bytes.now) }
{
    let (n, rest) = front(whole, 2, bytes)?;
    Ok((u16::from_be_bytes([n[0], n[1]]), rest))
}

/// Returns the next 8 bytes as a number, and the bytes after them. Else fails with Short at their
/// place.
#[tactic(auto, unfolding(crate::specs::Reading::bytes_at, crate::specs::Reading::number_at))]
pub fn u64_of(whole: u64, bytes: &[u8]) -> Result<(u64, &[u8]), ImageFault>
    ensures { GivesBy (λ x. (x.0, x.1.now)) result (number_at w64 whole bytes.now) }
{
    let (n, rest) = front(whole, 8, bytes)?;
    let number = u64::from_be_bytes([n[0], n[1], n[2], n[3], n[4], n[5], n[6], n[7]]);
    Ok((number, rest))
}

/// Reads a name, after its length in 2 bytes.
#[tactic(auto, unfolding(crate::specs::Reading::block_at))]
fn text_of(whole: u64, bytes: &[u8]) -> Result<(&[u8], &[u8]), ImageFault>
    ensures { GivesBy (λ x. (x.0.now, x.1.now)) result (block_at w16 whole bytes.now) }
{
    let (count, rest) = u16_of(whole, bytes)?;
    front(whole, count as u64, rest)
}

/// Reads bytes, after their length in 8 bytes, and copies them.
#[tactic(auto, unfolding(crate::specs::Reading::block_at))]
pub fn block_of<'b>(
    alloc: Global,
    whole: u64,
    bytes: &'b [u8],
) -> Result<(Bytes, &'b [u8]), ImageFault>
    ensures { GivesBy (λ x. (x.0, x.1.now)) result (block_at w64 whole bytes.now) }
{
    let (count, rest) = u64_of(whole, bytes)?;
    let (block, rest) = front(whole, count, rest)?;
    Ok((Bytes::from_slice(alloc, block)?, rest))
}

fn key_follows(last: &Option<Key>, key: &Key) -> bool
    ensures { result ≡ is_after text_cmp last.now key.now }
{
    match last {
        Some(before) => before.cmp(key) == Ordering::Less,
        None => true,
    }
}

fn bucket_follows(last: &Option<Bucket>, name: &Bucket) -> bool
    ensures { result ≡ is_after text_cmp last.now name.now }
{
    match last {
        Some(before) => before.cmp(name) == Ordering::Less,
        None => true,
    }
}

fn number_follows(last: Option<u64>, number: u64) -> bool
    ensures { result ≡ is_after nat_cmp last number }
{
    match last {
        Some(before) => before.cmp(&number) == Ordering::Less,
        None => true,
    }
}

/// Reads a key that is greater than the one before it, if there is one.
#[tactic(auto, unfolding(crate::specs::Reading::name_at))]
pub fn key_of<'b>(
    alloc: Global,
    whole: u64,
    last: &Option<Key>,
    bytes: &'b [u8],
) -> Result<(Key, &'b [u8]), ImageFault>
    ensures exact { GivesBy (λ x. (x.0, x.1.now)) result (name_at is_key whole last.now bytes.now) }
    ensures after { IfOk result (λ x. is_after text_cmp last.now x.0 ≡ true) }
{
    let (text, rest) = text_of(whole, bytes)?;
    let key = match Key::read(alloc, text) {
        Ok(key) => key,
        Err(NameFault::BadName) => return Err(ImageFault::BadName(place_of(whole, bytes))),
        Err(NameFault::NoMemory) => return Err(ImageFault::NoMemory),
    };
    if !key_follows(last, &key) {
        return Err(ImageFault::BadOrder(place_of(whole, bytes)));
    }
    Ok((key, rest))
}

/// Reads a bucket's name that is greater than the one before it, if there is one.
#[tactic(auto, unfolding(crate::specs::Reading::name_at))]
pub fn bucket_name_of<'b>(
    alloc: Global,
    whole: u64,
    last: &Option<Bucket>,
    bytes: &'b [u8],
) -> Result<(Bucket, &'b [u8]), ImageFault>
    ensures exact { GivesBy (λ x. (x.0, x.1.now)) result (name_at is_bucket whole last.now bytes.now) }
    ensures after { IfOk result (λ x. is_after text_cmp last.now x.0 ≡ true) }
{
    let (text, rest) = text_of(whole, bytes)?;
    let name = match Bucket::read(alloc, text) {
        Ok(name) => name,
        Err(NameFault::BadName) => return Err(ImageFault::BadName(place_of(whole, bytes))),
        Err(NameFault::NoMemory) => return Err(ImageFault::NoMemory),
    };
    if !bucket_follows(last, &name) {
        return Err(ImageFault::BadOrder(place_of(whole, bytes)));
    }
    Ok((name, rest))
}

/// Reads an upload's id that is greater than the one before it, if there is one, and below the
/// counter.
#[tactic(auto, unfolding(crate::specs::Reading::id_at))]
pub fn id_of(
    next: u64,
    whole: u64,
    last: Option<u64>,
    bytes: &[u8],
) -> Result<(u64, &[u8]), ImageFault>
    ensures exact { GivesBy (λ x. (x.0, x.1.now)) result (id_at next whole last bytes.now) }
    ensures after { IfOk result (λ x. is_after nat_cmp last x.0 ≡ true) }
    ensures below { IfOk result (λ x. x.0 < next) }
{
    let (id, rest) = u64_of(whole, bytes)?;
    if !number_follows(last, id) {
        return Err(ImageFault::BadOrder(place_of(whole, bytes)));
    }
    if !(1 <= id && id < next) {
        return Err(ImageFault::CounterTooHigh);
    }
    Ok((id, rest))
}

/// Reads a part's number, 1 to 10,000, that is greater than the one before it, if there is one.
#[tactic(auto, unfolding(crate::specs::Reading::part_number_at))]
pub fn part_number_of(
    whole: u64,
    last: Option<u64>,
    bytes: &[u8],
) -> Result<(u16, &[u8]), ImageFault>
    ensures exact { GivesBy (λ x. (x.0, x.1.now)) result (part_number_at whole last bytes.now) }
    ensures number { IfOk result (λ x. is_part_number x.0 ≡ true) }
{
    let (number, rest) = u16_of(whole, bytes)?;
    if !number_follows(last, u64::from(number)) {
        return Err(ImageFault::BadOrder(place_of(whole, bytes)));
    }
    if !(1 <= number && u32::from(number) <= MOST_PARTS) {
        return Err(ImageFault::BadOrder(place_of(whole, bytes)));
    }
    Ok((number, rest))
}

/// Returns the header of a number: None for 0, else the number minus 1.
pub fn header_of(number: u64) -> Option<LengthHeader>
    ensures { result ≡ header_in number }
{
    if number == 0 {
        return None;
    }
    Some(LengthHeader::new(number - 1))
}

/// Reads the first 8 bytes, which are always the same, and then the least part size and the
/// counter.
#[tactic(auto, unfolding(crate::specs::Reading::head_at))]
pub fn head_of(whole: u64, bytes: &[u8]) -> Result<((u64, u64), &[u8]), ImageFault>
    ensures exact { GivesBy (λ x. (x.0, x.1.now)) result (head_at whole bytes.now) }
    ensures minimum { IfOk result (λ x. is_minimum x.0.0 ≡ true) }
    ensures counter { IfOk result (λ x. is_counter x.0.1 ≡ true) }
{
    let (first, rest) = front(whole, 8, bytes)?;
    if first != b"S3AIMG01".as_slice() {
        return Err(ImageFault::BadHead);
    }
    let (minimum, rest) = u64_of(whole, rest)?;
    if !(1 <= minimum && minimum <= MOST_MINIMUM) {
        return Err(ImageFault::BadHead);
    }
    let (counter, rest) = u64_of(whole, rest)?;
    if !(1 <= counter && counter <= 1 << 62) {
        return Err(ImageFault::CounterTooHigh);
    }
    Ok(((minimum, counter), rest))
}
