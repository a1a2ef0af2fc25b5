ghost use Rattle.std.specs.Prelude.{◌≡◌, ◌<◌, drop, get_or, length, [], IfOk, Some};
ghost use Rattle.s3_types.specs.declared.request.Request.TheVariants.{ClusterPut, ClusterRename};
ghost use Rattle.magic_paths.specs.Layout as layout;
ghost use Rattle.job_protocol.specs.AtWork.{task_script, who_of};
ghost use Rattle.job_protocol.specs.TaskCommits.{temporary_path};
ghost use Rattle.conflict.specs.Checks.{check_asks};
ghost use Rattle.task_requests.specs.Writing.{asks_behind, parts_in, IsBehind};
ghost use Rattle.task_requests.specs.declared.stage.WriteStage.TheVariants as write_stages;
ghost use Rattle.task_staging.specs.inner.Staging.{next_asks, text_of};

use conflict::CheckAbsent;
use job_model::TaskPlan;
use magic_paths::{staged_set_path, temporary_path};
use path_keys::S3Path;
use pending_json::PendingSet;
use s3_types::{Request, Text, both};
use std::alloc::{AllocError, Global};
use task_requests::{ask_next, ask_upload, file_at};

/// Returns the destination of the job. Takes no memory.
fn dest_of(plan: &TaskPlan) -> &S3Path
    ensures { result.now ≡ plan.now.job.dest }
{
    let job = &plan.job;
    &job.dest
}

/// Returns the request that looks for a key below the next partition, or None if none is left.
pub fn check_request(
    alloc: Global,
    plan: &TaskPlan,
    checks: &CheckAbsent,
) -> Result<Option<Request>, AllocError>
    ensures { IfOk result (λ request. request ≡ check_asks plan.now.job.dest checks.now) }
{
    checks.request(alloc, dest_of(plan))
}

/// Returns the path of the attempt's temporary file.
pub fn temporary(alloc: Global, plan: &TaskPlan) -> Result<Text, AllocError>
    ensures { IfOk result (λ path. path ≡ temporary_path (task_script plan.now) (who_of plan.now)) }
{
    temporary_path(alloc, &plan.job.job, plan.task, plan.attempt)
}

/// Returns the put of a set into the attempt's temporary file.
fn store_request(alloc: Global, plan: &TaskPlan, set: &PendingSet) -> Result<Request, AllocError>
    ensures { IfOk result (λ request. request ≡ ClusterPut (temporary_path (task_script plan.now) (who_of plan.now))
        (text_of set.now)) }
{
    let (path, bytes) = both(temporary(alloc, plan), set.print(alloc))?;
    Request::cluster_put(&path, &bytes)
}

/// Returns the path of the task's set.
fn published(alloc: Global, plan: &TaskPlan) -> Result<Text, AllocError>
    ensures { IfOk result (λ path. path ≡ layout.staged_set_path plan.now.job.job plan.now.task) }
{
    staged_set_path(alloc, &plan.job.job, plan.task)
}

/// Returns the rename of the temporary file to the task's set, which publishes the set.
pub fn rename_request(alloc: Global, plan: &TaskPlan) -> Result<Request, AllocError>
    ensures { IfOk result (λ request. request ≡ ClusterRename (temporary_path (task_script plan.now) (who_of plan.now))
        (layout.staged_set_path plan.now.job.job plan.now.task)) }
{
    let (source, target) = both(temporary(alloc, plan), published(alloc, plan))?;
    Request::cluster_rename(&source, &target)
}

/// Returns the request that creates the upload of the file at a place, or the put of the set if no
/// file is left.
pub fn next_request(
    alloc: Global,
    plan: &TaskPlan,
    set: &PendingSet,
    place: usize,
) -> Result<Request, AllocError>
    ensures { IfOk result (λ request. request ≡ next_asks plan.now set.now (drop place plan.now.files)) }
{
    match file_at(plan, place) {
        Some((path, _)) => ask_upload(alloc, plan, path),
        None => store_request(alloc, plan, set),
    }
}

/// Returns the request for the part that follows `sent` others of the file at a place.
pub fn part_request(
    alloc: Global,
    plan: &TaskPlan,
    place: usize,
    sent: u64,
) -> Result<Request, AllocError>
    requires within { place < length plan.now.files }
    requires behind { IsBehind (parts_in plan.now (get_or plan.now.files place ([], []))) plan.now.known.drawn
        (write_stages.Sending sent) }
    ensures { IfOk result (λ request. request ≡ asks_behind plan.now (get_or plan.now.files place ([], []))
        (write_stages.Sending sent)) }
{
    let Some((path, bytes)) = file_at(plan, place) else {
        unreachable!();
    };
    ask_next(alloc, plan, path, bytes, sent)
}
