ghost use Rattle.std.specs.Prelude.{◌≡◌, IfOk};
ghost use Rattle.s3_types.specs.declared.request.Request.TheVariants.{GetObject, ClusterGet};
ghost use Rattle.magic_paths.specs.Layout as layout;
ghost use Rattle.job_protocol.specs.Lanes.{completion, abort, deletion};
ghost use Rattle.job_protocol.specs.JobCommits.{set_request};
ghost use Rattle.job_protocol.specs.AtWork.{job_script};

use job_model::JobPlan;
use magic_paths::{set_key, staged_set_path};
use pending_json::PendingUpload;
use s3_types::{Committer, Request, named_parts};
use std::alloc::{AllocError, Global};

/// Returns the read of a task's set from S3.
fn stored_set(alloc: Global, plan: &JobPlan, task: u32) -> Result<Request, AllocError>
    ensures { IfOk result (λ request. request ≡ GetObject plan.now.dest.bucket
        (layout.set_key plan.now.dest.key plan.now.job task)) }
{
    let key = set_key(alloc, &plan.dest, &plan.job, task)?;
    Request::get_object(plan.dest.bucket(), &key)
}

/// Returns the read of a task's set from the cluster's file system.
fn staged_set(alloc: Global, plan: &JobPlan, task: u32) -> Result<Request, AllocError>
    ensures { IfOk result (λ request. request ≡ ClusterGet (layout.staged_set_path plan.now.job task)) }
{
    let path = staged_set_path(alloc, &plan.job, task)?;
    Request::cluster_get(&path)
}

/// Returns the read of a task's set. The magic committer stores sets in S3, the staging committers
/// in the cluster's file system.
pub fn set_request(alloc: Global, plan: &JobPlan, task: u32) -> Result<Request, AllocError>
    ensures { IfOk result (λ request. request ≡ set_request plan.now.committer (job_script plan.now) task) }
{
    match plan.committer {
        Committer::Magic => stored_set(alloc, plan, task),
        _ => staged_set(alloc, plan, task),
    }
}

/// Returns the request that completes an upload.
pub fn completion(alloc: Global, upload: &PendingUpload) -> Result<Request, AllocError>
    ensures { IfOk result (λ request. request ≡ completion upload.now) }
{
    let parts = named_parts(alloc, upload.tags().as_slice())?;
    Ok(Request::CompleteUpload {
        bucket: upload.bucket().clone()?,
        key: upload.destination().clone()?,
        upload: upload.upload(),
        parts,
    })
}

/// Returns the request that aborts an upload.
pub fn abort(upload: &PendingUpload) -> Result<Request, AllocError>
    ensures { IfOk result (λ request. request ≡ abort upload.now) }
{
    Request::abort_upload(upload.bucket(), upload.destination(), upload.upload())
}

/// Returns the request that deletes an upload's key.
pub fn deletion(upload: &PendingUpload) -> Result<Request, AllocError>
    ensures { IfOk result (λ request. request ≡ deletion upload.now) }
{
    Request::delete_object(upload.bucket(), upload.destination())
}
