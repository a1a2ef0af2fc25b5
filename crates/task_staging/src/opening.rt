ghost use Rattle.std.specs.Prelude.{◌≡◌, ◌<◌, length, map, get_or, [], IfOk};
ghost use Rattle.job_protocol.specs.AtWork.{task_script, who_of};
ghost use Rattle.job_protocol.specs.Conflicts.{checks_partitions, partitions};
ghost use Rattle.job_protocol.specs.TaskCommits.{to_check};

use conflict::{checks_partitions, partitions};
use job_model::{JobPlan, TaskPlan};
use s3_types::{Sequence, Text, TextList};
use std::alloc::{AllocError, Global};
use task_requests::{file_at, job_of};

/// Returns whether the task commits of a job check the partitions that they write.
fn is_checked(job: &JobPlan) -> bool
    ensures { result ≡ checks_partitions job.now.committer job.now.mode }
{
    checks_partitions(job.committer, job.mode)
}

/// Returns the path of the file at a place, shared with the plan.
fn path_at(plan: &TaskPlan, place: usize) -> Result<Text, AllocError>
    requires { place < length plan.now.files }
    ensures { IfOk result (λ path. path ≡ (get_or plan.now.files place ([], [])).0) }
{
    let Some((path, _)) = file_at(plan, place) else {
        unreachable!();
    };
    let copy = path.clone()?;
    Ok(copy)
}

/// Returns the paths of an attempt's files, shared with the plan.
fn paths_of(alloc: Global, plan: &TaskPlan) -> Result<TextList, AllocError>
    ensures { IfOk result (λ paths. paths ≡ map (λ f. f.0) plan.now.files) }
{
    let mut paths = Sequence::new(alloc);
    for place in 0..plan.files.len() {
        let path = path_at(plan, place)?;
        paths.push(path)?;
    }
    Ok(paths)
}

/// Returns the partitions that an attempt writes, if its commit must check them; else an empty
/// list.
pub fn to_check(alloc: Global, plan: &TaskPlan) -> Result<TextList, AllocError>
    ensures { IfOk result (λ dirs. dirs ≡ to_check (task_script plan.now) (who_of plan.now)) }
{
    if !is_checked(job_of(plan)) {
        return Ok(Sequence::new(alloc));
    }
    let paths = paths_of(alloc, plan)?;
    partitions(alloc, paths.as_slice())
}
