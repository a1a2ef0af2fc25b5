//! The tags of parts and of completed uploads, which S3 makes of MD5 digests. (Amazon S3, common
//! response headers: ETag; checking object integrity: MD5 digests of multipart uploads.)
ghost use Rattle.std.specs.Prelude.{◌≡◌, ◌≤◌, [], length, true};
ghost use Rattle.std.specs.List.{list_all};
ghost use Rattle.std.specs.Result.{result_unwrap_or};
ghost use Rattle.hex.specs.Hex.{encode_lower, decode_of};
ghost use Rattle.md5.specs.Md5.{md5};
ghost use Rattle.s3_types.specs.Tags.{is_hex, digest_of, plain_tag, joined_tag};
ghost use Rattle.s3_types.specs.declared.limits.TheConstants.{MOST_PARTS};

use crate::tag::Tag;
use md5::{Digest, Md5};

/// Returns the digest as 32 lower-case hex digits.
fn digits_of(digest: &[u8; 16]) -> [u8; 32]
    ensures digits { result ≡ encode_lower digest.now }
    ensures hex { list_all is_hex result ≡ true }
{
    let mut digits = [0u8; 32];
    match hex::encode_to_slice(digest, &mut digits) {
        Ok(()) => digits,
        Err(_) => unreachable!(),
    }
}

/// Returns the digest that the hex digits spell.
fn digest_in(digits: &[u8; 32]) -> [u8; 16]
    requires { list_all is_hex digits.now ≡ true }
    ensures { result ≡ result_unwrap_or (decode_of digits.now) [] }
{
    let mut digest = [0u8; 16];
    match hex::decode_to_slice(digits, &mut digest) {
        Ok(()) => digest,
        Err(_) => unreachable!(),
    }
}

#[tactic(auto, unfolding(crate::specs::Tags::digest_of))]
fn digest_of(tag: &Tag) -> [u8; 16]
    ensures { result ≡ digest_of tag.now }
{
    digest_in(tag.digits())
}

/// Returns the MD5 digest of the bytes of a put or of a part. Its tag is made of it. Takes no
/// memory.
pub fn part_digest(bytes: &[u8]) -> [u8; 16]
    ensures { result ≡ md5 bytes.now }
{
    Md5::digest(bytes)
}

/// Returns the tag of a put or of a part whose bytes have this digest. Takes no memory.
pub fn tag_of(digest: &[u8; 16]) -> Tag
    ensures { result ≡ record { digits = encode_lower digest.now; parts = 0 } }
{
    Tag::new(digits_of(digest), 0)
}

/// Returns the tag of a put or of a part: the MD5 digest of its bytes, with no count of parts.
/// Takes no memory.
#[tactic(auto, unfolding(crate::specs::Tags::plain_tag))]
pub fn part_tag(bytes: &[u8]) -> Tag
    ensures { result ≡ plain_tag bytes.now }
{
    tag_of(&part_digest(bytes))
}

/// Returns the tag of a completed upload of at most 10,000 parts: the MD5 digest of their digests
/// joined, with the number of parts. Takes no memory.
#[tactic(auto, unfolding(crate::specs::Tags::joined_tag))]
pub fn joined_tag(tags: &[Tag]) -> Tag
    requires { length tags.now ≤ MOST_PARTS }
    ensures { result ≡ joined_tag tags.now }
{
    let mut hasher = Md5::new();
    for tag in tags {
        hasher.update(&digest_of(tag));
    }
    Tag::new(digits_of(&hasher.finalize()), tags.len() as u32)
}
