ghost use Rattle.std.specs.Prelude.{◌≡◌, ◌≤◌, ℕ, None, IfOk, OnOk, OnErr};
ghost use Rattle.std.specs.FinMap as fin;
ghost use Rattle.s3_types.specs.Store.{BucketContent, new_bucket};
ghost use Rattle.s3_types.specs.Multipart.{live, joined};
ghost use Rattle.s3_types.specs.Answer.{answer_in, apply_in, complete_answer, completed, with_objects};
ghost use Rattle.s3_service.specs.Ids.{IsFresh};

use crate::{objects, uploads};
use multipart::{UploadFault, Uploads};
use object_store::Objects;
use s3_types::{Bytes, Key, LengthHeader, PartList, Refusal, Reply, Request};
use std::alloc::{AllocError, Global};
use std::marker::Model;

/// The content of a bucket: its objects and its live uploads.
#[derive(Drop)]
pub struct BucketStore {
    objects: Objects,
    uploads: Uploads,
}

impl Model for BucketStore {
    ghost use Rattle.s3_types.specs.Store.{BucketContent};
    ghost use Rattle.s3_types.specs.Coded.{coded_bucket};

    ghost Value = { BucketContent };

    ghost coded = { coded_bucket };

    ghost view = { λ b. record { objects = b.objects; uploads = b.uploads } };
}

impl Clone for BucketStore {
    ghost is_clone = { λ b copy. copy ≡ b };

    fn clone(&self) -> Result<BucketStore, AllocError> {
        Ok(BucketStore {
            objects: self.objects.clone()?,
            uploads: self.uploads.clone()?,
        })
    }
}

impl BucketStore {
    /// An empty bucket. Takes no memory.
    pub fn empty(alloc: Global) -> BucketStore
        ensures { result ≡ new_bucket }
    {
        BucketStore {
            objects: Objects::new(alloc),
            uploads: Uploads::new(alloc),
        }
    }

    /// A bucket with these objects and uploads. Takes no memory.
    pub fn new(objects: Objects, uploads: Uploads) -> BucketStore
        ensures { result ≡ record { objects = objects; uploads = uploads } }
    {
        BucketStore { objects, uploads }
    }

    /// Returns the bucket's objects.
    pub fn objects(&self) -> &Objects
        ensures { result.now ≡ self.now.objects }
    {
        &self.objects
    }

    /// Returns the bucket's live uploads.
    pub fn uploads(&self) -> &Uploads
        ensures { result.now ≡ self.now.uploads }
    {
        &self.uploads
    }

    /// Puts an object, and makes no answer. If memory runs out, everything is as before.
    pub fn put(
        &mut self,
        key: &Key,
        bytes: &Bytes,
        header: Option<LengthHeader>,
    ) -> Result<(), AllocError>
        ensures ok { OnOk result (self.new ≡ with_objects self.old (fin.insert self.old.objects key.now (record {
          bytes = bytes.now;
          header = header;
        }))) }
        ensures err { OnErr result (self.new ≡ self.old) }
    {
        objects::store(&mut self.objects, key, bytes, header)
    }

    fn complete(
        &mut self,
        key: &Key,
        upload: u64,
        parts: &PartList,
        minimum: u64,
    ) -> Result<Reply, AllocError>
        ensures reply { IfOk result (λ r. r ≡ complete_answer parts.now (joined (live self.old.uploads key.now upload)
            parts.now minimum)) }
        ensures ok { OnOk result (self.new ≡ completed self.old key.now upload
            (joined (live self.old.uploads key.now upload) parts.now minimum)) }
        ensures err { OnErr result (self.new ≡ self.old) }
    {
        let made = match self.uploads.join(key, upload, parts, minimum) {
            Ok(made) => made,
            Err(UploadFault::Refused(refusal)) => return Ok(Reply::Refused(refusal)),
            Err(UploadFault::NoMemory) => return Err(AllocError),
        };
        let target = key.clone()?;
        let tag = made.tag;
        self.objects.put(target, made.bytes, None)?;
        let _ = self.uploads.remove(key, upload);
        Ok(Reply::Completed(tag))
    }

    /// Does a request to this bucket. `next` is the id that the next upload gets, and `minimum`
    /// the least size of a part other than the last. If memory runs out, everything is as before.
    pub fn apply(&mut self, request: &Request, next: u64, minimum: u64) -> Result<Reply, AllocError>
        requires { IsFresh self.old.uploads next }
        ensures reply { IfOk result (λ r. r ≡ answer_in self.old next minimum request.now) }
        ensures ok { OnOk result (self.new ≡ apply_in self.old next minimum request.now) }
        ensures err { OnErr result (self.new ≡ self.old) }
    {
        match request {
            Request::PutObject {
                bucket: _,
                key,
                bytes,
                header,
            } => objects::put(&mut self.objects, key, bytes, *header),
            Request::GetObject { bucket: _, key } => objects::get(&self.objects, key),
            Request::HeadObject { bucket: _, key } => Ok(objects::head(&self.objects, key)),
            Request::DeleteObject { bucket: _, key } => {
                self.objects.delete(key);
                Ok(Reply::Deleted)
            }
            Request::DeleteObjects { bucket: _, keys } => {
                Ok(objects::delete_many(&mut self.objects, keys))
            }
            Request::CopyObject {
                bucket: _,
                source,
                target,
            } => objects::copy(&mut self.objects, source, target),
            Request::ListPage {
                bucket: _,
                prefix,
                delimited,
                after,
                limit,
            } => objects::list_page(&self.objects, prefix, *delimited, after, *limit),
            Request::CreateUpload { bucket: _, key } => {
                uploads::create(&mut self.uploads, key, next)
            }
            Request::UploadPart {
                bucket: _,
                key,
                upload,
                number,
                bytes,
            } => uploads::part(&mut self.uploads, key, *upload, *number, bytes),
            Request::CompleteUpload {
                bucket: _,
                key,
                upload,
                parts,
            } => self.complete(key, *upload, parts, minimum),
            Request::AbortUpload {
                bucket: _,
                key,
                upload,
            } => Ok(uploads::abort(&mut self.uploads, key, *upload)),
            Request::ListParts {
                bucket: _,
                key,
                upload,
            } => uploads::list_parts(&self.uploads, key, *upload),
            Request::ListUploads {
                bucket: _,
                prefix,
                after,
                limit,
            } => uploads::list(&self.uploads, prefix, after, *limit),
            Request::MakeBucket { .. } => Ok(Reply::Refused(Refusal::NoSuchBucket)),
            Request::ClusterPut { .. } => Ok(Reply::Refused(Refusal::NoSuchBucket)),
            Request::ClusterRename { .. } => Ok(Reply::Refused(Refusal::NoSuchBucket)),
            Request::ClusterGet { .. } => Ok(Reply::Refused(Refusal::NoSuchBucket)),
            Request::ClusterDelete { .. } => Ok(Reply::Refused(Refusal::NoSuchBucket)),
            Request::ClusterList { .. } => Ok(Reply::Refused(Refusal::NoSuchBucket)),
        }
    }
}
