ghost use Rattle.std.specs.Prelude.{◌≡◌, ◌+◌, ◌*◌, ◌<◌, ◌≤◌, List, ◌++◌, length, None, IfOk, IsErrOf};
ghost use Rattle.s3_types.specs.declared.journal.Entry.{Entry};
ghost use Rattle.operations.specs.Courses.{once, reached, unlost};
ghost use Rattle.operations.specs.Performed.{Performed, seen};
ghost use Rattle.bucket_ops.specs.Uploads.{uploads_from, IsStill, asks, refused, goes, Begins, IsListing, Gives, IsSame, IsPageOf, Pages, size, left};

use list_walk::UploadWalk;
use machine::DriveStop;
use operations::{Plan, Step, perform};
use s3_types::{Actor, Bucket, Journal, ObjectStore, Refusal, Reply, Request, Text, UploadList};
use std::alloc::{AllocError, Global};

/// A walk over the live uploads of a bucket whose keys begin with a prefix.
#[derive(Drop)]
pub struct UploadsBelow {
    pub bucket: Bucket,
    pub prefix: Text,
    pub walk: UploadWalk,
}

type Uploads = Option<UploadList>;

/// Returns where a refusal leads: the walk ends only if the bucket does not exist.
fn refused(below: UploadsBelow, refusal: &Refusal) -> Step<UploadsBelow, Uploads>
    ensures { result ≡ refused below refusal.now }
{
    match refusal {
        Refusal::NoSuchBucket => Step::End(None),
        _ => Step::Next(below),
    }
}

impl Plan for UploadsBelow {
    type Answer = Option<UploadList>;

    ghost starts = { Begins };

    ghost asks = { asks };

    ghost goes = { once goes };

    ghost holds = { reached asks IsListing };

    ghost gives = { Gives };

    ghost always = { IsSame };

    ghost sends = { Pages };

    ghost calm = { unlost (reached asks IsListing) };

    ghost leaves = { Gives };

    ghost left = { left };

    fn ask(&self) -> Result<Request, AllocError> {
        self.walk.request(&self.bucket, &self.prefix)
    }

    fn next(
        self,
        reply: &Reply,
        _repeated: bool,
    ) -> Result<Step<UploadsBelow, Uploads>, AllocError> {
        if let Reply::Refused(refusal) = reply {
            return Ok(refused(self, refusal));
        }
        let mut below = self;
        if below.walk.hear(reply)? {
            Ok(Step::Next(below))
        } else {
            Ok(Step::End(Some(below.walk.into_found())))
        }
    }

    fn laws() {}
}

/// Lists the live uploads of a bucket whose keys begin with a prefix, by key and then by id,
/// whatever the store loses and however many pages there are. Returns None if the bucket does not
/// exist. Each request is sent at most `retries + 1` times. Fails with StoreFault exactly if a
/// request exhausted its retries. (Amazon S3 API: ListMultipartUploads.)
pub fn list_uploads<S: ObjectStore>(
    alloc: Global,
    bucket: Bucket,
    prefix: Text,
    retries: u32,
    store: &mut S,
    actor: Actor,
    event: u32,
    journal: &mut Journal,
) -> Result<Option<UploadList>, DriveStop>
    requires counted { S.requests store.old ≤ length journal.old.entries }
    ensures found { IfOk result (λ found. found ≡ uploads_from (S.scene store.old) bucket prefix None) }
    ensures same { S.scene store.new ≡ S.scene store.old }
    ensures fault { IsErrOf result DriveStop.StoreFault → S.losses store.old < S.losses store.new }
    ensures performed { Performed actor event retries (IsStill (S.scene store.old)) (IsPageOf bucket prefix)
        (seen S.scene S.requests S.losses S.foretold store.old journal.old.entries)
        (seen S.scene S.requests S.losses S.foretold store.new journal.new.entries) result }
    ensures few { (part : List Entry) → journal.new.entries ≡ journal.old.entries ++ part → length part
        ≤ (size (uploads_from (S.scene store.old) bucket prefix None) + 1) * (retries + 1) }
{
    let below = UploadsBelow {
        bucket,
        prefix,
        walk: UploadWalk::new(alloc),
    };
    match perform(alloc, below, retries, store, actor, event, journal) {
        Ok(found) => Ok(found),
        Err(stop) => Err(stop),
    }
}
