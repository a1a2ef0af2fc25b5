ghost use Rattle.std.specs.Prelude.{◌≡◌, IfOk, Some};
ghost use Rattle.s3_types.specs.Spelling.{actor_text};

use crate::bytes::Bytes;
use crate::drops::both;
use crate::limits::{LengthHeader, PageLimit};
use crate::lists::{KeyList, PartList, copied_keys, copied_parts};
use crate::names::{Bucket, Key};
use crate::tag::Tag;
use crate::text::Text;
use std::alloc::{AllocError, Global};
use std::fmt;

/// Who sends a request.
#[derive(Clone, Copy, PartialEq, Eq, Hash)]
pub enum Actor {
    /// The job's driver.
    Driver,
    /// A task attempt, by the number of its task and its own number.
    Attempt { task: u32, attempt: u32 },
    /// A shell command.
    Shell,
}

impl fmt::Display for Actor {
    ghost output = { λ actor. Some (actor_text actor) };

    fn fmt<W: fmt::Write>(&self, f: &mut fmt::Formatter<W>) -> fmt::Result {
        match self {
            Actor::Driver => f.write_str("driver"),
            Actor::Attempt { task, attempt } => write!(f, "{task}.{attempt}"),
            Actor::Shell => f.write_str("shell"),
        }
    }
}

/// The committers that publish a job's output. (Hadoop, S3A committers.)
#[derive(Clone, Copy, PartialEq, Eq)]
pub enum Committer {
    Magic,
    Directory,
    Partitioned,
}

/// What a job's commit does about files that exist already. (Hadoop, S3A committers: conflict
/// modes.)
#[derive(Clone, Copy, PartialEq, Eq)]
pub enum Mode {
    Fail,
    Append,
    Replace,
}

/// A live upload, by its key and its id. They are ordered by key and then by id.
#[derive(Drop, PartialEq, Eq, PartialOrd, Ord)]
pub struct UploadRef {
    pub key: Key,
    pub upload: u64,
}

impl Clone for UploadRef {
    ghost is_clone = { λ r copy. copy ≡ r };

    fn clone(&self) -> Result<UploadRef, AllocError> {
        Ok(UploadRef {
            key: self.key.clone()?,
            upload: self.upload,
        })
    }
}

/// A part that a completion names, by its number and its tag.
#[derive(Clone, Copy, PartialEq, Eq)]
pub struct NamedPart {
    pub number: u32,
    pub tag: Tag,
}

/// A request to the store or, where its name begins with `Cluster`, to the cluster file system. (Amazon
/// S3 API: CreateBucket, PutObject, GetObject, HeadObject, DeleteObject, DeleteObjects, CopyObject,
/// ListObjectsV2, CreateMultipartUpload, UploadPart, CompleteMultipartUpload, AbortMultipartUpload,
/// ListParts, ListMultipartUploads.)
#[derive(Drop)]
pub enum Request {
    MakeBucket {
        name: Text,
    },
    PutObject {
        bucket: Bucket,
        key: Key,
        bytes: Bytes,
        header: Option<LengthHeader>,
    },
    GetObject {
        bucket: Bucket,
        key: Key,
    },
    HeadObject {
        bucket: Bucket,
        key: Key,
    },
    DeleteObject {
        bucket: Bucket,
        key: Key,
    },
    DeleteObjects {
        bucket: Bucket,
        keys: KeyList,
    },
    CopyObject {
        bucket: Bucket,
        source: Key,
        target: Key,
    },
    /// The entries below a prefix that are greater than `after`.
    ListPage {
        bucket: Bucket,
        prefix: Text,
        delimited: bool,
        after: Text,
        limit: PageLimit,
    },
    CreateUpload {
        bucket: Bucket,
        key: Key,
    },
    UploadPart {
        bucket: Bucket,
        key: Key,
        upload: u64,
        number: u32,
        bytes: Bytes,
    },
    CompleteUpload {
        bucket: Bucket,
        key: Key,
        upload: u64,
        parts: PartList,
    },
    AbortUpload {
        bucket: Bucket,
        key: Key,
        upload: u64,
    },
    ListParts {
        bucket: Bucket,
        key: Key,
        upload: u64,
    },
    /// The live uploads after `after` whose keys begin with a prefix.
    ListUploads {
        bucket: Bucket,
        prefix: Text,
        after: Option<UploadRef>,
        limit: PageLimit,
    },
    ClusterPut {
        path: Text,
        bytes: Bytes,
    },
    ClusterRename {
        source: Text,
        target: Text,
    },
    ClusterGet {
        path: Text,
    },
    ClusterDelete {
        path: Text,
    },
    /// The paths that begin with a prefix.
    ClusterList {
        prefix: Text,
    },
}

fn copied_ref(after: &Option<UploadRef>) -> Result<Option<UploadRef>, AllocError>
    ensures { IfOk result (λ copy. copy ≡ after.now) }
{
    match after {
        Some(last) => Ok(Some(last.clone()?)),
        None => Ok(None),
    }
}

/// Requests from borrowed parts. They share the bytes, texts and keys, and copy none.
impl Request {
    /// A CreateBucket.
    pub fn make_bucket(name: &Text) -> Result<Request, AllocError>
        ensures { IfOk result (λ request. request ≡ Request.MakeBucket name.now) }
    {
        Ok(Request::MakeBucket {
            name: name.clone()?,
        })
    }

    /// A PutObject with these bytes and, if one is given, a length header.
    pub fn put_object(
        bucket: &Bucket,
        key: &Key,
        bytes: &Bytes,
        header: Option<LengthHeader>,
    ) -> Result<Request, AllocError>
        ensures { IfOk result (λ request. request ≡ Request.PutObject bucket.now key.now bytes.now header) }
    {
        let ((bucket, key), bytes) = both(both(bucket.clone(), key.clone()), bytes.clone())?;
        Ok(Request::PutObject {
            bucket,
            key,
            bytes,
            header,
        })
    }

    /// A GetObject.
    pub fn get_object(bucket: &Bucket, key: &Key) -> Result<Request, AllocError>
        ensures { IfOk result (λ request. request ≡ Request.GetObject bucket.now key.now) }
    {
        let (bucket, key) = both(bucket.clone(), key.clone())?;
        Ok(Request::GetObject { bucket, key })
    }

    /// A HeadObject.
    pub fn head_object(bucket: &Bucket, key: &Key) -> Result<Request, AllocError>
        ensures { IfOk result (λ request. request ≡ Request.HeadObject bucket.now key.now) }
    {
        let (bucket, key) = both(bucket.clone(), key.clone())?;
        Ok(Request::HeadObject { bucket, key })
    }

    /// A DeleteObject.
    pub fn delete_object(bucket: &Bucket, key: &Key) -> Result<Request, AllocError>
        ensures { IfOk result (λ request. request ≡ Request.DeleteObject bucket.now key.now) }
    {
        let (bucket, key) = both(bucket.clone(), key.clone())?;
        Ok(Request::DeleteObject { bucket, key })
    }

    /// A CopyObject within a bucket.
    pub fn copy_object(bucket: &Bucket, source: &Key, target: &Key) -> Result<Request, AllocError>
        ensures { IfOk result (λ request. request ≡ Request.CopyObject bucket.now source.now target.now) }
    {
        let ((bucket, source), target) = both(
            both(bucket.clone(), source.clone()),
            target.clone(),
        )?;
        Ok(Request::CopyObject {
            bucket,
            source,
            target,
        })
    }

    /// A ListObjectsV2 of the keys that begin with a prefix, after `after`.
    pub fn list_page(
        bucket: &Bucket,
        prefix: &Text,
        delimited: bool,
        after: &Text,
        limit: PageLimit,
    ) -> Result<Request, AllocError>
        ensures { IfOk result (λ request. request ≡ Request.ListPage bucket.now prefix.now delimited after.now limit) }
    {
        let ((bucket, prefix), after) = both(both(bucket.clone(), prefix.clone()), after.clone())?;
        Ok(Request::ListPage {
            bucket,
            prefix,
            delimited,
            after,
            limit,
        })
    }

    /// A CreateMultipartUpload.
    pub fn create_upload(bucket: &Bucket, key: &Key) -> Result<Request, AllocError>
        ensures { IfOk result (λ request. request ≡ Request.CreateUpload bucket.now key.now) }
    {
        let (bucket, key) = both(bucket.clone(), key.clone())?;
        Ok(Request::CreateUpload { bucket, key })
    }

    /// An UploadPart with these bytes.
    pub fn upload_part(
        bucket: &Bucket,
        key: &Key,
        upload: u64,
        number: u32,
        bytes: &Bytes,
    ) -> Result<Request, AllocError>
        ensures { IfOk result (λ request. request ≡ Request.UploadPart bucket.now key.now upload number bytes.now) }
    {
        let ((bucket, key), bytes) = both(both(bucket.clone(), key.clone()), bytes.clone())?;
        Ok(Request::UploadPart {
            bucket,
            key,
            upload,
            number,
            bytes,
        })
    }

    /// An AbortMultipartUpload.
    pub fn abort_upload(bucket: &Bucket, key: &Key, upload: u64) -> Result<Request, AllocError>
        ensures { IfOk result (λ request. request ≡ Request.AbortUpload bucket.now key.now upload) }
    {
        let (bucket, key) = both(bucket.clone(), key.clone())?;
        Ok(Request::AbortUpload {
            bucket,
            key,
            upload,
        })
    }

    /// A ListParts.
    pub fn list_parts(bucket: &Bucket, key: &Key, upload: u64) -> Result<Request, AllocError>
        ensures { IfOk result (λ request. request ≡ Request.ListParts bucket.now key.now upload) }
    {
        let (bucket, key) = both(bucket.clone(), key.clone())?;
        Ok(Request::ListParts {
            bucket,
            key,
            upload,
        })
    }

    /// A write of a file in the cluster.
    pub fn cluster_put(path: &Text, bytes: &Bytes) -> Result<Request, AllocError>
        ensures { IfOk result (λ request. request ≡ Request.ClusterPut path.now bytes.now) }
    {
        let (path, bytes) = both(path.clone(), bytes.clone())?;
        Ok(Request::ClusterPut { path, bytes })
    }

    /// A rename of a file in the cluster.
    pub fn cluster_rename(source: &Text, target: &Text) -> Result<Request, AllocError>
        ensures { IfOk result (λ request. request ≡ Request.ClusterRename source.now target.now) }
    {
        let (source, target) = both(source.clone(), target.clone())?;
        Ok(Request::ClusterRename { source, target })
    }

    /// A read of a file in the cluster.
    pub fn cluster_get(path: &Text) -> Result<Request, AllocError>
        ensures { IfOk result (λ request. request ≡ Request.ClusterGet path.now) }
    {
        Ok(Request::ClusterGet {
            path: path.clone()?,
        })
    }

    /// A deletion of a file in the cluster.
    pub fn cluster_delete(path: &Text) -> Result<Request, AllocError>
        ensures { IfOk result (λ request. request ≡ Request.ClusterDelete path.now) }
    {
        Ok(Request::ClusterDelete {
            path: path.clone()?,
        })
    }

    /// A list of the cluster's files whose paths begin with a prefix.
    pub fn cluster_list(prefix: &Text) -> Result<Request, AllocError>
        ensures { IfOk result (λ request. request ≡ Request.ClusterList prefix.now) }
    {
        Ok(Request::ClusterList {
            prefix: prefix.clone()?,
        })
    }

    /// A DeleteObjects of these keys.
    pub fn delete_objects(
        alloc: Global,
        bucket: &Bucket,
        keys: &KeyList,
    ) -> Result<Request, AllocError>
        ensures { IfOk result (λ request. request ≡ Request.DeleteObjects bucket.now keys.now) }
    {
        let bucket = bucket.clone()?;
        let keys = copied_keys(alloc, keys)?;
        Ok(Request::DeleteObjects { bucket, keys })
    }

    /// A CompleteMultipartUpload that names these parts.
    pub fn complete_upload(
        alloc: Global,
        bucket: &Bucket,
        key: &Key,
        upload: u64,
        parts: &PartList,
    ) -> Result<Request, AllocError>
        ensures { IfOk result (λ request. request ≡ Request.CompleteUpload bucket.now key.now upload parts.now) }
    {
        let (bucket, key) = both(bucket.clone(), key.clone())?;
        let parts = copied_parts(alloc, parts)?;
        Ok(Request::CompleteUpload {
            bucket,
            key,
            upload,
            parts,
        })
    }

    /// A ListMultipartUploads of the uploads after `after` whose keys begin with a prefix.
    pub fn list_uploads(
        bucket: &Bucket,
        prefix: &Text,
        after: &Option<UploadRef>,
        limit: PageLimit,
    ) -> Result<Request, AllocError>
        ensures { IfOk result (λ request. request ≡ Request.ListUploads bucket.now prefix.now after.now limit) }
    {
        let (bucket, prefix) = both(bucket.clone(), prefix.clone())?;
        let after = copied_ref(after)?;
        Ok(Request::ListUploads {
            bucket,
            prefix,
            after,
            limit,
        })
    }

    /// Returns a copy of the request.
    pub fn copied(&self, alloc: Global) -> Result<Request, AllocError>
        ensures { IfOk result (λ copy. copy ≡ self.now) }
    {
        match self {
            Request::MakeBucket { name } => Request::make_bucket(name),
            Request::PutObject {
                bucket,
                key,
                bytes,
                header,
            } => Request::put_object(bucket, key, bytes, *header),
            Request::GetObject { bucket, key } => Request::get_object(bucket, key),
            Request::HeadObject { bucket, key } => Request::head_object(bucket, key),
            Request::DeleteObject { bucket, key } => Request::delete_object(bucket, key),
            Request::CopyObject {
                bucket,
                source,
                target,
            } => Request::copy_object(bucket, source, target),
            Request::ListPage {
                bucket,
                prefix,
                delimited,
                after,
                limit,
            } => Request::list_page(bucket, prefix, *delimited, after, *limit),
            Request::CreateUpload { bucket, key } => Request::create_upload(bucket, key),
            Request::UploadPart {
                bucket,
                key,
                upload,
                number,
                bytes,
            } => Request::upload_part(bucket, key, *upload, *number, bytes),
            Request::AbortUpload {
                bucket,
                key,
                upload,
            } => Request::abort_upload(bucket, key, *upload),
            Request::ListParts {
                bucket,
                key,
                upload,
            } => Request::list_parts(bucket, key, *upload),
            Request::ClusterPut { path, bytes } => Request::cluster_put(path, bytes),
            Request::ClusterRename { source, target } => Request::cluster_rename(source, target),
            Request::ClusterGet { path } => Request::cluster_get(path),
            Request::ClusterDelete { path } => Request::cluster_delete(path),
            Request::ClusterList { prefix } => Request::cluster_list(prefix),
            Request::DeleteObjects { bucket, keys } => Request::delete_objects(alloc, bucket, keys),
            Request::CompleteUpload {
                bucket,
                key,
                upload,
                parts,
            } => Request::complete_upload(alloc, bucket, key, *upload, parts),
            Request::ListUploads {
                bucket,
                prefix,
                after,
                limit,
            } => Request::list_uploads(bucket, prefix, after, *limit),
        }
    }
}
