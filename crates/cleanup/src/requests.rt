ghost use Rattle.std.specs.Prelude.{◌≡◌, ◌++◌, drop, codes, IfOk, Some};
ghost use Rattle.s3_types.specs.declared.request.Request.TheVariants.{ClusterList};
ghost use Rattle.magic_paths.specs.Layout as layout;
ghost use Rattle.list_walk.specs.Walks.{keys_on, page_after, uploads_after, sweep_asks};
ghost use Rattle.cleanup.specs.inner.Places.{abort_asks, remove_asks, get_asks, get_file_asks, delete_asks};

use list_walk::{KeyWalk, Sweep, UploadWalk, batch_request, keys_behind};
use magic_paths::{cluster_prefix, dest_prefix, magic_prefix};
use path_keys::S3Path;
use s3_types::{Bucket, Key, Request, Text, UploadRef, let_go};
use std::alloc::{AllocError, Global};

/// Returns the request for the next page of live uploads below a destination.
pub fn walk_request(
    alloc: Global,
    dest: &S3Path,
    uploads: &UploadWalk,
) -> Result<Option<Request>, AllocError>
    ensures { IfOk result (λ request. request ≡ Some (uploads_after dest.now.bucket (dest.now.key ++ codes "/")
        uploads.now)) }
{
    let prefix = dest_prefix(alloc, dest)?;
    let asked = uploads.request(dest.bucket(), &prefix);
    let_go(prefix);
    match asked {
        Ok(request) => Ok(Some(request)),
        Err(error) => Err(error),
    }
}

/// Returns the request that aborts the upload at place `at`, or None if there is none.
pub fn abort_request(
    bucket: &Bucket,
    uploads: &[UploadRef],
    at: usize,
) -> Result<Option<Request>, AllocError>
    ensures { IfOk result (λ request. request ≡ abort_asks bucket.now (drop at uploads.now)) }
{
    let Some(upload) = uploads.get(at) else {
        return Ok(None);
    };
    match Request::abort_upload(bucket, &upload.key, upload.upload) {
        Ok(request) => Ok(Some(request)),
        Err(error) => Err(error),
    }
}

/// Returns the request for the names of a staging job's files in the cluster.
pub fn names_request(alloc: Global, job: &Text) -> Result<Option<Request>, AllocError>
    ensures { IfOk result (λ request. request ≡ Some (ClusterList (layout.cluster_prefix job.now))) }
{
    let prefix = cluster_prefix(alloc, job)?;
    let asked = Request::cluster_list(&prefix);
    let_go(prefix);
    match asked {
        Ok(request) => Ok(Some(request)),
        Err(error) => Err(error),
    }
}

/// Returns the request that deletes the cluster file at place `at`, or None if there is none.
pub fn remove_request(paths: &[Text], at: usize) -> Result<Option<Request>, AllocError>
    ensures { IfOk result (λ request. request ≡ remove_asks (drop at paths.now)) }
{
    let Some(path) = paths.get(at) else {
        return Ok(None);
    };
    match Request::cluster_delete(path) {
        Ok(request) => Ok(Some(request)),
        Err(error) => Err(error),
    }
}

/// Returns the next request of the sweep of a job's magic directory.
pub fn sweep_request(
    alloc: Global,
    dest: &S3Path,
    job: &Text,
    sweep: &Sweep,
) -> Result<Option<Request>, AllocError>
    ensures { IfOk result (λ request. request ≡ Some (sweep_asks dest.now.bucket
        (layout.magic_prefix dest.now.key job.now) sweep.now)) }
{
    let prefix = magic_prefix(alloc, dest, job)?;
    let asked = sweep.ask(alloc, dest.bucket(), &prefix);
    let_go(prefix);
    asked
}

/// Returns the request for the next page of keys below a job's magic directory.
pub fn page_request(
    alloc: Global,
    dest: &S3Path,
    job: &Text,
    walk: &KeyWalk,
) -> Result<Option<Request>, AllocError>
    ensures { IfOk result (λ request. request ≡ Some (page_after dest.now.bucket
        (layout.magic_prefix dest.now.key job.now) (keys_on walk.now))) }
{
    let prefix = magic_prefix(alloc, dest, job)?;
    let asked = walk.request(dest.bucket(), &prefix);
    let_go(prefix);
    match asked {
        Ok(request) => Ok(Some(request)),
        Err(error) => Err(error),
    }
}

/// Returns the request that reads the object with the key at place `at`, or None if there is none.
pub fn get_request(bucket: &Bucket, keys: &[Key], at: usize) -> Result<Option<Request>, AllocError>
    ensures { IfOk result (λ request. request ≡ get_asks bucket.now (drop at keys.now)) }
{
    let Some(key) = keys.get(at) else {
        return Ok(None);
    };
    match Request::get_object(bucket, key) {
        Ok(request) => Ok(Some(request)),
        Err(error) => Err(error),
    }
}

/// Returns the request that reads the cluster file at place `at`, or None if there is none.
pub fn get_file_request(paths: &[Text], at: usize) -> Result<Option<Request>, AllocError>
    ensures { IfOk result (λ request. request ≡ get_file_asks (drop at paths.now)) }
{
    let Some(path) = paths.get(at) else {
        return Ok(None);
    };
    match Request::cluster_get(path) {
        Ok(request) => Ok(Some(request)),
        Err(error) => Err(error),
    }
}

/// Returns the request that deletes the keys from place `at` on, at most 1,000 of them, or None if
/// there are none.
pub fn delete_request(
    alloc: Global,
    bucket: &Bucket,
    keys: &[Key],
    at: usize,
) -> Result<Option<Request>, AllocError>
    ensures { IfOk result (λ request. request ≡ delete_asks bucket.now (drop at keys.now)) }
{
    let keys = keys_behind(keys, at);
    if keys.is_empty() {
        return Ok(None);
    }
    match batch_request(alloc, bucket, keys) {
        Ok(request) => Ok(Some(request)),
        Err(error) => Err(error),
    }
}
