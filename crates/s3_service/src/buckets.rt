ghost use Rattle.std.specs.Option.{option_copied};
ghost use Rattle.std.specs.Prelude.{◌≡◌, ℕ, ◌≤◌, List, None, Some, IfOk, OnOk, OnErr, length, option_map, slice_get};
ghost use Rattle.std.specs.FinMap as map;
ghost use Rattle.s3_types.specs.Store.{BucketContent, new_bucket};
ghost use Rattle.s3_types.specs.Answer.{answer_in, apply_in, with_objects};
ghost use Rattle.s3_service.specs.Ids.{IsFresh};
ghost use Rattle.s3_service.specs.inner.Changed.{with_bucket};

use crate::bucket::BucketStore;
use s3_types::{Bucket, Bytes, Key, LengthHeader, Reply, Request};
use std::alloc::{AllocError, Global};
use std::collections::BTreeMap;
use std::marker::Model;

/// Buckets by their names.
#[derive(Drop)]
pub struct Buckets {
    pub(crate) held: BTreeMap<Bucket, BucketStore>,
}

impl Model for Buckets {
    ghost use Rattle.std.specs.FinMap as map;
    ghost use Rattle.s3_types.specs.Store.{Buckets as TheBuckets};
    ghost use Rattle.s3_types.specs.Coded.{coded_buckets};

    ghost Value = { TheBuckets };

    ghost coded = { coded_buckets };

    ghost view = { λ b. map.from_entries b.held.entries };
}

impl Clone for Buckets {
    ghost is_clone = { λ b copy. copy ≡ b };

    fn clone(&self) -> Result<Buckets, AllocError> {
        Ok(Buckets {
            held: self.held.clone()?,
        })
    }
}

impl Buckets {
    /// No buckets.
    pub fn new(alloc: Global) -> Buckets
        ensures { result ≡ map.empty }
    {
        Buckets {
            held: BTreeMap::new(alloc),
        }
    }

    /// Returns the bucket with this name, if it exists.
    pub fn get(&self, name: &Bucket) -> Option<&BucketStore>
        ensures { option_copied result ≡ map.get self.now name.now }
    {
        self.held.get(name)
    }

    /// Returns the number of buckets.
    pub fn count(&self) -> u64
        ensures { result ≡ map.len self.now }
    {
        self.held.len() as u64
    }

    /// Adds a bucket, or replaces the one of that name.
    pub fn insert(&mut self, name: Bucket, bucket: BucketStore) -> Result<(), AllocError>
        ensures ok { OnOk result (self.new ≡ map.insert self.old name bucket) }
        ensures err { OnErr result (self.new ≡ self.old) }
    {
        self.held.insert(name, bucket)?;
        Ok(())
    }

    /// Does a request to a bucket, if the bucket exists.
    pub fn apply(
        &mut self,
        name: &Bucket,
        request: &Request,
        next: u64,
        minimum: u64,
    ) -> Result<Option<Reply>, AllocError>
        requires { (b : BucketContent) → map.get self.old name.now ≡ Some b → IsFresh b.uploads next }
        ensures reply { IfOk result (λ r. r ≡ option_map (λ b. answer_in b next minimum request.now)
            (map.get self.old name.now)) }
        ensures ok { OnOk result (self.new ≡ with_bucket self.old name.now (λ b. apply_in b next minimum request.now)) }
        ensures err { OnErr result (self.new ≡ self.old) }
    {
        let Some(bucket) = self.held.get_mut(name) else {
            return Ok(None);
        };
        match bucket.apply(request, next, minimum) {
            Ok(reply) => return Ok(Some(reply)),
            Err(error) => return Err(error),
        }
    }

    /// Puts an object into a bucket, if the bucket exists.
    pub fn put(
        &mut self,
        name: &Bucket,
        key: &Key,
        bytes: &Bytes,
        header: Option<LengthHeader>,
    ) -> Result<(), AllocError>
        ensures ok { OnOk result (self.new ≡ with_bucket self.old name.now (λ b. with_objects b
            (map.insert b.objects key.now (record { bytes = bytes.now; header = header })))) }
        ensures err { OnErr result (self.new ≡ self.old) }
    {
        let Some(bucket) = self.held.get_mut(name) else {
            return Ok(());
        };
        match bucket.put(key, bytes, header) {
            Ok(()) => return Ok(()),
            Err(error) => return Err(error),
        }
    }
}
