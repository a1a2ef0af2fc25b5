ghost use Rattle.std.specs.Prelude.{◌≡◌, true, length, nat_le, ◌==◌, IfOk, option_map};
ghost use Rattle.text_and_lists.specs.Parts.{parts_of, parts_after};
ghost use Rattle.s3_types.specs.Names.{is_bucket};
ghost use Rattle.path_keys.specs.Paths.{Gives, is_key, bucket_in, key_of, path_in};

use crate::elements::first_fault;
use crate::fault::PathFault;
use crate::split::{first_element, trimmed, without_scheme};
use s3_types::{Bucket, NameFault, Text};
use std::alloc::{AllocError, Global};
use std::marker::Model;

/// A path `s3a://BUCKET/KEY`: a bucket, and a key of at most 1,023 bytes without a `/` at its end.
/// The key is empty at the bucket's root. No element of a key is empty, `.` or `..`. (Hadoop
/// FileSystem specification, paths; Amazon S3, object key names.)
#[derive(Drop)]
pub struct S3Path {
    bucket: Bucket,
    key: Text,
}

impl Model for S3Path {
    ghost use Rattle.std.specs.Prelude.{◌≡◌, true};
    ghost use Rattle.path_keys.specs.Paths.{Path, is_key};

    ghost Value = { Path };

    ghost view = { λ p. record { bucket = p.bucket; key = p.key } };

    ghost invariant = { λ p. is_key p.key ≡ true };
}

fn bucket_in(alloc: Global, name: &str) -> Result<Bucket, PathFault>
    ensures { Gives result (bucket_in name.now) }
{
    match Bucket::read(alloc, name.as_bytes()) {
        Ok(bucket) => Ok(bucket),
        Err(NameFault::BadName) => Err(PathFault::BadBucket),
        Err(NameFault::NoMemory) => Err(PathFault::NoMemory),
    }
}

fn key_text(alloc: Global, key: &str) -> Result<Text, PathFault>
    ensures read { Gives result (key_of (parts_of 47 key.now)) }
    ensures key { IfOk result (λ k. is_key k ≡ true) }
{
    if let Some(fault) = first_fault(key.as_bytes()) {
        return Err(fault);
    }
    if key.len() > 1023 {
        return Err(PathFault::TooLong);
    }
    Ok(Text::copied(alloc, key)?)
}

fn key_in(alloc: Global, behind: Option<&str>) -> Result<Text, PathFault>
    ensures read { Gives result (key_of (parts_after 47 (option_map (λ r. r.now) behind.entry))) }
    ensures key { IfOk result (λ k. is_key k ≡ true) }
{
    match behind {
        Some(key) => key_text(alloc, key),
        None => Ok(Text::copied(alloc, "")?),
    }
}

impl S3Path {
    /// The path of a bucket and a key. Takes no memory.
    pub fn new(bucket: Bucket, key: Text) -> S3Path
        requires { is_key key ≡ true }
        ensures { result ≡ record { bucket = bucket; key = key } }
    {
        S3Path { bucket, key }
    }

    /// Reads `s3a://`, a bucket's name, and elements, each after a `/`. One `/` at the end is
    /// dropped. `path_in` says which fault a text gets.
    pub fn read(alloc: Global, text: &str) -> Result<S3Path, PathFault>
        ensures { Gives result (path_in text.now) }
    {
        let Some(rest) = without_scheme(text) else {
            return Err(PathFault::BadScheme);
        };
        let (name, behind) = first_element(trimmed(rest));
        let bucket = bucket_in(alloc, name)?;
        let key = key_in(alloc, behind)?;
        Ok(S3Path { bucket, key })
    }

    /// Returns the bucket of the path.
    pub fn bucket(&self) -> &Bucket
        ensures { result.now ≡ self.now.bucket }
    {
        &self.bucket
    }

    /// Returns the key, empty at the root.
    pub fn key(&self) -> &Text
        ensures text { result.now ≡ self.now.key }
        ensures key { is_key result.now ≡ true }
    {
        &self.key
    }

    /// Whether this is the root of a bucket.
    pub fn is_root(&self) -> bool
        ensures { result ≡ (length self.now.key == 0) }
    {
        self.key.as_bytes().is_empty()
    }
}

impl Clone for S3Path {
    ghost is_clone = { λ p copy. copy ≡ p };

    fn clone(&self) -> Result<S3Path, AllocError> {
        Ok(S3Path {
            bucket: self.bucket.clone()?,
            key: self.key.clone()?,
        })
    }
}
