ghost use Rattle.std.specs.Prelude.{◌≡◌, ◌++◌, IfOk, IfSome, codes, option_map, slice_get};
ghost use Rattle.path_keys.specs.Paths.{below};
ghost use Rattle.job_model.specs.Plans.{IsJob, IsTask};
ghost use Rattle.job_protocol.specs.AtWork.{task_script, who_of};
ghost use Rattle.job_protocol.specs.TaskCommits.{attempt_prefix};
ghost use Rattle.task_requests.specs.Writing.{dir_of, IsNamed, IsFile};

use job_model::{JobPlan, TaskPlan};
use magic_paths::{attempt_dir, dest_prefix, file_key};
use path_keys::S3Path;
use s3_types::{Bucket, Bytes, Key, Text, let_go};
use std::alloc::{AllocError, Global};

/// Returns the job of a plan, which keeps within its bounds. Takes no memory.
pub fn job_of(plan: &TaskPlan) -> &JobPlan
    ensures value { result.now ≡ plan.now.job }
    ensures job { IsJob plan.now.job }
    ensures task { IsTask plan.now }
{
    let job = &plan.job;
    let _tasks = &job.tasks;
    job
}

/// Returns the directory of an attempt.
pub fn directory(alloc: Global, plan: &TaskPlan) -> Result<S3Path, AllocError>
    ensures { IfOk result (λ dir. dir ≡ dir_of plan.now) }
{
    let job = &plan.job;
    attempt_dir(alloc, &job.dest, &job.job, plan.task, plan.attempt)
}

/// Returns the prefix of the keys below an attempt's directory.
pub fn prefix(alloc: Global, plan: &TaskPlan) -> Result<Text, AllocError>
    ensures { IfOk result (λ prefix. prefix ≡ attempt_prefix (task_script plan.now) (who_of plan.now)) }
{
    let dir = directory(alloc, plan)?;
    let prefix = dest_prefix(alloc, &dir);
    let_go(dir);
    prefix
}

/// Returns the file at a place, counted from 0 in the script's order. Takes no memory.
pub fn file_at(plan: &TaskPlan, place: usize) -> Option<(&Text, &Bytes)>
    ensures file { option_map (λ f. (f.0.now, f.1.now)) result ≡ slice_get plan.now.files place }
    ensures is { IfSome result (λ f. IsFile plan.now (f.0.now, f.1.now)) }
{
    let _job = job_of(plan);
    plan.files.held().get_index(place)
}

/// Returns the bucket of the destination. Takes no memory.
pub fn bucket_of(plan: &TaskPlan) -> &Bucket
    ensures { result.now ≡ plan.now.job.dest.bucket }
{
    let job = &plan.job;
    job.dest.bucket()
}

/// Returns the key under which a file appears once the job commits.
pub fn target(alloc: Global, plan: &TaskPlan, path: &Text) -> Result<Key, AllocError>
    requires { IsNamed plan.now path.now }
    ensures { IfOk result (λ key. key ≡ below plan.now.job.dest.key path.now) }
{
    let job = &plan.job;
    file_key(alloc, &job.dest, path)
}

/// Returns the key of a file's marker.
pub fn marker(alloc: Global, plan: &TaskPlan, dir: &S3Path, path: &Text) -> Result<Key, AllocError>
    requires dir { dir.now ≡ dir_of plan.now }
    requires named { IsNamed plan.now path.now }
    ensures { IfOk result (λ key. key ≡ below dir.now.key path.now) }
{
    let _ = plan;
    file_key(alloc, dir, path)
}

/// Returns the path of a file's record.
fn pending_path(alloc: Global, path: &Text) -> Result<Text, AllocError>
    ensures { IfOk result (λ name. name ≡ path.now ++ codes ".pending") }
{
    let path = path.as_str();
    Text::new(alloc, format!(in alloc; "{path}.pending")?)
}

/// Returns the key of a file's record.
pub fn record(alloc: Global, plan: &TaskPlan, dir: &S3Path, path: &Text) -> Result<Key, AllocError>
    requires dir { dir.now ≡ dir_of plan.now }
    requires named { IsNamed plan.now path.now }
    ensures { IfOk result (λ key. key ≡ below dir.now.key (path.now ++ codes ".pending")) }
{
    let _ = plan;
    let pending = pending_path(alloc, path)?;
    let key = file_key(alloc, dir, &pending);
    let_go(pending);
    key
}
