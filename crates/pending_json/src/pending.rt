ghost use Rattle.std.specs.Prelude.{◌≡◌, true, option_map};
ghost use Rattle.pending_json.specs.Pending.{are_tags, are_sizes};

use s3_types::{Bucket, Key, SizeList, TagList};
use std::marker::Model;

/// A finished upload that its job's commit will complete: its task and attempt, the bucket and the
/// key of the file to be, the upload's id, the file's length in bytes, and the tags of the parts in
/// their order. There are 1 to 10,000 tags, each of one part. It may have the lengths of the parts
/// in bytes: as many as tags, with the file's length as their sum.
#[derive(Drop)]
pub struct PendingUpload {
    task: u32,
    attempt: u32,
    upload: u64,
    bucket: Bucket,
    destination: Key,
    length: u64,
    tags: TagList,
    sizes: Option<SizeList>,
}

impl Model for PendingUpload {
    ghost use Rattle.std.specs.Prelude.{◌≡◌, true};
    ghost use Rattle.pending_json.specs.Pending.{Pending, are_tags, are_sizes};

    ghost Value = { Pending };

    ghost view = { λ p. record {
      task = p.task;
      attempt = p.attempt;
      bucket = p.bucket;
      destination = p.destination;
      upload = p.upload;
      length = p.length;
      tags = p.tags;
      sizes = p.sizes;
    } };

    ghost invariant = { λ p. (are_tags p.tags ≡ true) × (are_sizes p.sizes p.tags p.length ≡ true) };
}

impl PendingUpload {
    /// A pending upload with these values. Takes no memory.
    pub fn new(
        task: u32,
        attempt: u32,
        bucket: Bucket,
        destination: Key,
        upload: u64,
        length: u64,
        tags: TagList,
        sizes: Option<SizeList>,
    ) -> PendingUpload
        requires tags { are_tags tags ≡ true }
        requires sizes { are_sizes sizes tags length ≡ true }
        ensures { result ≡ record {
          task = task;
          attempt = attempt;
          bucket = bucket;
          destination = destination;
          upload = upload;
          length = length;
          tags = tags;
          sizes = sizes;
        } }
    {
        PendingUpload {
            task,
            attempt,
            bucket,
            destination,
            upload,
            length,
            tags,
            sizes,
        }
    }

    /// The task's number.
    pub fn task(&self) -> u32
        ensures { result ≡ self.now.task }
    {
        self.task
    }

    /// The attempt's number.
    pub fn attempt(&self) -> u32
        ensures { result ≡ self.now.attempt }
    {
        self.attempt
    }

    /// The bucket of the file.
    pub fn bucket(&self) -> &Bucket
        ensures { result.now ≡ self.now.bucket }
    {
        &self.bucket
    }

    /// The key of the file to be.
    pub fn destination(&self) -> &Key
        ensures { result.now ≡ self.now.destination }
    {
        &self.destination
    }

    /// The upload's id.
    pub fn upload(&self) -> u64
        ensures { result ≡ self.now.upload }
    {
        self.upload
    }

    /// The file's length in bytes.
    pub fn length(&self) -> u64
        ensures { result ≡ self.now.length }
    {
        self.length
    }

    /// The tags of the parts, in their order.
    pub fn tags(&self) -> &TagList
        ensures value { result.now ≡ self.now.tags }
        ensures plain { are_tags result.now ≡ true }
    {
        &self.tags
    }

    /// The lengths of the parts in bytes, in their order, if the upload has them.
    pub fn sizes(&self) -> Option<&SizeList>
        ensures value { option_map (λ s. s.now) result ≡ self.now.sizes }
        ensures told { are_sizes self.now.sizes self.now.tags self.now.length ≡ true }
    {
        self.sizes.as_ref()
    }
}
