ghost use Rattle.std.specs.Prelude.{◌≡◌, ◌≤◌, ◌++◌, length, codes, IfOk, Some};
ghost use Rattle.s3_types.specs.Names.{is_key_path};
ghost use Rattle.s3_types.specs.declared.request.Request.TheVariants.{HeadObject, DeleteObject};
ghost use Rattle.magic_paths.specs.Layout as layout;
ghost use Rattle.list_walk.specs.Walks.{keys_on, page_after, sweep_asks};

use list_walk::{KeyWalk, Sweep};
use magic_paths::{dest_prefix, magic_prefix, success_key};
use path_keys::S3Path;
use s3_types::{Key, Request, Text};
use std::alloc::{AllocError, Global};

/// Returns the request for the head of the object at a destination's own key, which has 1 to 400
/// bytes.
pub fn head_request(dest: &S3Path) -> Result<Option<Request>, AllocError>
    requires some { 1 ≤ length dest.now.key }
    requires most { length dest.now.key ≤ 400 }
    ensures { IfOk result (λ request. request ≡ Some (HeadObject dest.now.bucket dest.now.key)) }
{
    let key = Key::new(dest.key().clone()?);
    match Request::head_object(dest.bucket(), &key) {
        Ok(request) => Ok(Some(request)),
        Err(error) => Err(error),
    }
}

/// Returns the request for the next page of keys below a destination.
pub fn page_request(
    alloc: Global,
    dest: &S3Path,
    walk: &KeyWalk,
) -> Result<Option<Request>, AllocError>
    ensures { IfOk result (λ request. request ≡ Some (page_after dest.now.bucket (dest.now.key ++ codes "/")
        (keys_on walk.now))) }
{
    let prefix = dest_prefix(alloc, dest)?;
    match walk.request(dest.bucket(), &prefix) {
        Ok(request) => Ok(Some(request)),
        Err(error) => Err(error),
    }
}

/// Returns the request that deletes the marker of a committed job below a destination, whose key
/// has 1 to 400 bytes.
pub fn clear_request(alloc: Global, dest: &S3Path) -> Result<Option<Request>, AllocError>
    requires some { 1 ≤ length dest.now.key }
    requires most { length dest.now.key ≤ 400 }
    ensures { IfOk result (λ request. request ≡ Some (DeleteObject dest.now.bucket (layout.success_key dest.now.key))) }
{
    let key = success_key(alloc, dest)?;
    match Request::delete_object(dest.bucket(), &key) {
        Ok(request) => Ok(Some(request)),
        Err(error) => Err(error),
    }
}

/// Returns the next request of the sweep of a job's magic directory.
pub fn sweep_request(
    alloc: Global,
    dest: &S3Path,
    job: &Text,
    sweep: &Sweep,
) -> Result<Option<Request>, AllocError>
    ensures { IfOk result (λ request. request ≡ Some (sweep_asks dest.now.bucket
        (layout.magic_prefix dest.now.key job.now) sweep.now)) }
{
    let prefix = magic_prefix(alloc, dest, job)?;
    sweep.ask(alloc, dest.bucket(), &prefix)
}
