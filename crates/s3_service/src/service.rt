ghost use Rattle.std.specs.Prelude.{◌≡◌, ◌+◌, ◌<◌, ◌≤◌, ◌^◌, ℕ, None, false, cond, IfOk, OnOk, OnErr};
ghost use Rattle.std.specs.FinMap as map;
ghost use Rattle.s3_types.specs.Store.{new_content};
ghost use Rattle.s3_types.specs.Answer.{answer_store, apply_store, draws};
ghost use Rattle.s3_types.specs.Requests.{is_cluster};
ghost use Rattle.s3_service.specs.Ids.{IsFresh, AreBelow};
ghost use Rattle.s3_types.specs.declared.limits.TheConstants.{MOST_MINIMUM};

use crate::bucket::BucketStore;
use crate::buckets::Buckets;
use crate::named::{bucket_named, draws};
use multipart::Uploads;
use object_store::Objects;
use s3_types::{Bucket, NameFault, Refusal, Reply, Request, Text, let_go};
use std::alloc::{AllocError, Global};
use std::marker::Model;

/// The store: its buckets, the id that the next upload gets, and the least size in bytes of a part
/// other than the last.
#[derive(Drop)]
pub struct Service {
    pub(crate) buckets: Buckets,
    next: u64,
    minimum: u64,
    alloc: Global,
}

impl Model for Service {
    ghost use Rattle.s3_types.specs.Store.{Content};
    ghost use Rattle.s3_types.specs.Coded.{coded_content};
    ghost use Rattle.s3_service.specs.inner.Ids.{IsStore};

    ghost Value = { Content };

    ghost coded = { coded_content };

    ghost view = { λ s. record { buckets = s.buckets; next = s.next; minimum = s.minimum } };

    ghost invariant = { λ s. IsStore s.buckets s.next s.minimum };
}

/// Returns the next upload's id after a request that was done.
fn next_after(request: &Request, next: u64) -> u64
    requires { next < 2 ^ 63 }
    ensures { result ≡ cond (draws request.now) (next + 1) next }
{
    if draws(request) { next + 1 } else { next }
}

impl Service {
    /// A store with no bucket. Its first upload gets the id 1. The minimum is 1 to 5,242,880
    /// bytes. Takes no memory.
    pub fn new(alloc: Global, minimum: u64) -> Service
        requires some { 1 ≤ minimum }
        requires most { minimum ≤ MOST_MINIMUM }
        ensures { result ≡ new_content minimum }
    {
        Service {
            buckets: Buckets::new(alloc),
            next: 1,
            minimum,
            alloc,
        }
    }

    /// A store with no bucket. Its next upload gets the id `counter`. Takes no memory.
    pub fn restore(alloc: Global, minimum: u64, counter: u64) -> Service
        requires some { 1 ≤ minimum }
        requires most { minimum ≤ MOST_MINIMUM }
        requires counted { 1 ≤ counter }
        requires few { counter ≤ 2 ^ 62 }
        ensures { result ≡ record { buckets = map.empty; next = counter; minimum = minimum } }
    {
        Service {
            buckets: Buckets::new(alloc),
            next: counter,
            minimum,
            alloc,
        }
    }

    /// Returns the least size in bytes of a part other than the last: 1 to 5,242,880.
    pub fn minimum(&self) -> u64
        ensures minimum { result ≡ self.now.minimum }
        ensures some { 1 ≤ self.now.minimum }
        ensures most { self.now.minimum ≤ MOST_MINIMUM }
    {
        self.minimum
    }

    /// Returns the id that the next upload gets. All ids are below it.
    pub fn next_upload(&self) -> u64
        ensures next { result ≡ self.now.next }
        ensures below { AreBelow self.now.buckets self.now.next }
    {
        self.next
    }

    /// Returns the number of buckets.
    pub fn buckets(&self) -> u64
        ensures { result ≡ map.len self.now.buckets }
    {
        self.buckets.count()
    }

    /// Adds a bucket with these objects and uploads. If memory runs out, the store is as before.
    pub fn add_bucket(
        &mut self,
        name: Bucket,
        objects: Objects,
        uploads: Uploads,
    ) -> Result<(), AllocError>
        requires absent { map.get self.old.buckets name ≡ None }
        requires below { IsFresh uploads self.old.next }
        ensures ok { OnOk result (self.new ≡
            record {
              buckets = map.insert self.old.buckets name (record { objects = objects; uploads = uploads });
              next = self.old.next;
              minimum = self.old.minimum;
            }) }
        ensures err { OnErr result (self.new ≡ self.old) }
    {
        self.buckets
            .insert(name, BucketStore::new(objects, uploads))?;
        Ok(())
    }

    /// Returns a store with the same content, in O(n) for n keys, uploads and parts. The two share
    /// all bytes and the texts of the keys. A request to one does not change the other.
    pub fn copy(&self) -> Result<Service, AllocError>
        ensures { IfOk result (λ copy. copy ≡ self.now) }
    {
        Ok(Service {
            buckets: self.buckets.clone()?,
            next: self.next,
            minimum: self.minimum,
            alloc: self.alloc,
        })
    }

    fn make(&mut self, name: &Text) -> Result<Reply, AllocError>
        ensures reply { IfOk result (λ r. r ≡ answer_store self.old (Request.MakeBucket name.now)) }
        ensures ok { OnOk result (self.new ≡ apply_store self.old (Request.MakeBucket name.now)) }
        ensures err { OnErr result (self.new ≡ self.old) }
    {
        let name = match Bucket::read(self.alloc, name.as_bytes()) {
            Ok(name) => name,
            Err(NameFault::BadName) => return Ok(Reply::Refused(Refusal::BadName)),
            Err(NameFault::NoMemory) => return Err(AllocError),
        };
        if self.buckets.get(&name).is_some() {
            return Ok(Reply::Refused(Refusal::BucketExists));
        }
        self.buckets.insert(name, BucketStore::empty(self.alloc))?;
        Ok(Reply::Made)
    }

    /// Does a request to the store and returns the answer. If memory runs out, everything is as
    /// before.
    pub fn apply(&mut self, request: &Request) -> Result<Reply, AllocError>
        requires store { is_cluster request.now ≡ false }
        requires few { self.old.next < 2 ^ 63 }
        ensures reply { IfOk result (λ r. r ≡ answer_store self.old request.now) }
        ensures ok { OnOk result (self.new ≡ apply_store self.old request.now) }
        ensures err { OnErr result (self.new ≡ self.old) }
    {
        if let Request::MakeBucket { name } = request {
            return self.make(name);
        }
        let Some(name) = bucket_named(request) else {
            unreachable!();
        };
        match self.buckets.apply(name, request, self.next, self.minimum) {
            Ok(Some(reply)) => {
                self.next = next_after(request, self.next);
                Ok(reply)
            }
            Ok(None) => Ok(Reply::Refused(Refusal::NoSuchBucket)),
            Err(error) => Err(error),
        }
    }

    /// Does a request to the store as `apply` does, but makes no answer, so the digest of the
    /// bytes of a put is not computed. If memory runs out, everything is as before.
    pub fn follow(&mut self, request: &Request) -> Result<(), AllocError>
        requires store { is_cluster request.now ≡ false }
        requires few { self.old.next < 2 ^ 63 }
        ensures ok { OnOk result (self.new ≡ apply_store self.old request.now) }
        ensures err { OnErr result (self.new ≡ self.old) }
    {
        if let Request::PutObject {
            bucket,
            key,
            bytes,
            header,
        } = request
        {
            return self.buckets.put(bucket, key, bytes, *header);
        }
        match self.apply(request) {
            Ok(reply) => {
                let_go(reply);
                Ok(())
            }
            Err(error) => Err(error),
        }
    }
}
