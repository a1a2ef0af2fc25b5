ghost use Rattle.std.specs.Prelude.{◌≡◌, IfOk};

use job_model::JobPlan;
use std::alloc::AllocError;

/// Returns a copy of a job's plan, whose texts are shared. Fails with AllocError only if memory
/// runs out.
pub fn copied(plan: &JobPlan) -> Result<JobPlan, AllocError>
    ensures { IfOk result (λ copy. copy ≡ plan.now) }
{
    let job = plan.job.clone()?;
    let dest = plan.dest.clone()?;
    Ok(JobPlan {
        job,
        dest,
        committer: plan.committer,
        mode: plan.mode,
        tasks: plan.tasks,
        retries: plan.retries,
        lanes: plan.lanes,
        stamp: plan.stamp,
    })
}
