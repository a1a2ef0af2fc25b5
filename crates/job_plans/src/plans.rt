ghost use Rattle.std.specs.Prelude.{◌≡◌, ◌<◌, ◌≤◌, length, slice_get, Some, IfOk};
ghost use Rattle.std.specs.Map.{lookup};
ghost use Rattle.s3_types.specs.declared.limits.TheConstants.{MOST_MINIMUM};
ghost use Rattle.job_model.specs.Attempts.{same_name};
ghost use Rattle.job_protocol.specs.AtWork.{job_of};
ghost use Rattle.job_plans.specs.AtPlace.{task_at};

use crate::files::placed;
use job_model::{AttemptName, Attempts, FileList, JobPlan, Knowledge, Script, TaskPlan};
use s3_types::{both, let_go};
use std::alloc::{AllocError, Global};

/// The plan of a script's driver. Its texts share the script's memory.
pub fn job_plan(script: &Script) -> Result<JobPlan, AllocError>
    ensures { IfOk result (λ plan. plan ≡ job_of script.now) }
{
    let (job, dest) = both(script.job.clone(), script.dest.clone())?;
    Ok(JobPlan {
        job,
        dest,
        committer: script.committer,
        mode: script.mode,
        tasks: script.tasks,
        retries: script.retries,
        lanes: script.lanes,
        stamp: script.stamp,
    })
}

/// The name and the files of the attempt at a place of the script, from 0 on.
pub fn attempt_at(attempts: &Attempts, place: usize) -> (&AttemptName, &FileList)
    requires { place < length attempts.now }
    ensures here { slice_get attempts.now place ≡ Some (result.0.now, result.1.now) }
    ensures found { lookup (same_name result.0.now) attempts.now ≡ Some result.1.now }
{
    match attempts.held().get_index(place) {
        Some(entry) => entry,
        None => unreachable!(),
    }
}

/// The plan of the attempt at a place of the script, from 0 on, before it has sent anything. Its
/// files are at their paths below the destination, made unique to the job if the script says so
/// (`unique_name`). Their contents share the script's memory. `minimum` is the store's minimum size
/// in bytes of a part other than the last.
pub fn task_plan(
    alloc: Global,
    script: &Script,
    place: usize,
    minimum: u64,
) -> Result<TaskPlan, AllocError>
    requires place { place < length script.now.attempts }
    requires some { 1 ≤ minimum }
    requires most { minimum ≤ MOST_MINIMUM }
    ensures { IfOk result (λ plan. task_at script.now minimum place ≡ Some plan) }
{
    let (name, files) = attempt_at(&script.attempts, place);
    let AttemptName { task, attempt } = *name;
    let job = job_plan(script)?;
    let Ok(files) = placed(alloc, script.unique, &script.job, files) else {
        let_go(job);
        return Err(AllocError);
    };
    Ok(TaskPlan {
        job,
        task,
        attempt,
        files,
        block: script.block,
        minimum,
        known: Knowledge::new(alloc),
    })
}
