ghost use Rattle.std.specs.Prelude.{◌≡◌, drop, IfOk};
ghost use Rattle.bucket_ops.specs.Asks.{request_of};
ghost use Rattle.fs_rename.specs.Copies.{copy_of, copy_asks, has_more, copied_next};

use fs_ops::look_at_bucket;
use list_walk::keys_behind;
use s3_types::{Bucket, Key, KeyList, Request};
use std::alloc::{AllocError, Global};

/// Keys to copy one by one, in order, and their new keys. `from` is the number of those that are
/// copied.
#[derive(Drop)]
pub struct Copying {
    pub keys: KeyList,
    pub places: KeyList,
    pub from: usize,
}

/// The result of a copy: the next one to make, or all keys, if all are copied.
#[derive(Drop)]
pub enum CopyStep {
    Next(Copying),
    All(KeyList),
}

/// The request that copies the first of these keys. If there is none, it looks at the bucket.
fn first_copy(
    alloc: Global,
    bucket: &Bucket,
    keys: &[Key],
    places: &[Key],
) -> Result<Request, AllocError>
    ensures { IfOk result (λ request. request ≡ request_of bucket.now (copy_of keys.now places.now)) }
{
    if keys.is_empty() || places.is_empty() {
        return look_at_bucket(alloc, bucket);
    }
    Request::copy_object(bucket, &keys[0], &places[0])
}

impl Copying {
    /// These keys, none of which is copied yet. Takes no memory.
    pub fn new(keys: KeyList, places: KeyList) -> Copying
        ensures { result ≡ record { keys = keys; places = places; from = 0 } }
    {
        Copying {
            keys,
            places,
            from: 0,
        }
    }

    /// The request that copies the next key.
    pub fn request(&self, alloc: Global, bucket: &Bucket) -> Result<Request, AllocError>
        ensures { IfOk result (λ request. request ≡ request_of bucket.now (copy_asks self.now)) }
    {
        let keys = keys_behind(self.keys.as_slice(), self.from);
        let places = keys_behind(self.places.as_slice(), self.from);
        first_copy(alloc, bucket, keys, places)
    }

    /// The result after the reply to that request. Takes no memory.
    pub fn next(self) -> CopyStep
        ensures { result ≡ copied_next (has_more self) self }
    {
        let Copying { keys, places, from } = self;
        if from < keys.len() && 1 < keys.len() - from {
            CopyStep::Next(Copying {
                keys,
                places,
                from: from + 1,
            })
        } else {
            CopyStep::All(keys)
        }
    }
}
