ghost use Rattle.std.specs.Prelude.{◌≡◌, IfOk, OnOk, Some};
ghost use Rattle.s3_types.specs.declared.request.Committer.TheVariants.{Magic};
ghost use Rattle.job_protocol.specs.AtWork.{task_script, who_of};
ghost use Rattle.list_walk.specs.Walks.{sweep_asks};
ghost use Rattle.job_protocol.specs.TaskCommits.{attempt_prefix};
ghost use Rattle.job_protocol.specs.TaskAborts.{task_abort_hears};
ghost use Rattle.task_operation.specs.Aborts.{FitsAbort};
ghost use Rattle.task_magic.specs.Undoing.{abort_of};
ghost use Rattle.task_magic.specs.inner.Undoing.{kept_if};

use job_model::{TaskEnd, TaskPlan};
use list_walk::{AllKeys, Sweep};
use machine::Asked;
use s3_types::{Reply, put};
use std::alloc::{AllocError, Global};
use task_operation::{TaskMachine, TaskState, TheAbort};
use task_requests::{abort_request, bucket_of, made, prefix};

/// An abort in progress: how many uploads it has aborted, the sweep of the attempt's directory, and
/// how it ended.
#[derive(Drop)]
pub struct Undoing {
    pub at: usize,
    pub sweep: Sweep,
    pub end: Option<TaskEnd>,
}

/// A magic attempt's abort of its task. An attempt that has sent its publishing request ends with
/// Kept and sends nothing. Any other aborts its uploads, oldest first, and then empties its own
/// directory. (Hadoop, S3A committer architecture: task abort.)
pub type AbortTask = TaskMachine<TheAbort, Undoing>;

/// Returns Kept if the attempt has sent its publishing request, else None.
fn kept_if(sent: bool) -> Option<TaskEnd>
    ensures { result ≡ kept_if sent }
{
    if sent { Some(TaskEnd::Kept) } else { None }
}

/// Returns the next request of the sweep of the attempt's directory.
fn sweep_request(alloc: Global, plan: &TaskPlan, sweep: &Sweep) -> Asked
    ensures { IfOk result (λ request. request ≡ Some (sweep_asks plan.now.job.dest.bucket
        (attempt_prefix (task_script plan.now) (who_of plan.now)) sweep.now)) }
{
    let prefix = prefix(alloc, plan)?;
    sweep.ask(alloc, bucket_of(plan), &prefix)
}

impl Undoing {
    /// Takes the reply to the current request and goes on from there.
    fn go_on(&mut self, alloc: Global, plan: &TaskPlan, reply: &Reply) -> Result<(), AllocError>
        requires magic { plan.now.job.committer ≡ Magic }
        requires fits { FitsAbort (abort_of plan.now self.old) reply.now }
        ensures { OnOk result (abort_of plan.now self.new ≡ task_abort_hears (task_script plan.now)
            (abort_of plan.now self.old) reply.now) }
    {
        let None = &self.end else {
            return Ok(());
        };
        if self.at < made(&plan.known).len() {
            self.at += 1;
            put(&mut self.sweep, Sweep::new(alloc));
            return Ok(());
        }
        if self.sweep.hear(alloc, &AllKeys, reply)? {
            return Ok(());
        }
        self.finish(TaskEnd::Done);
        Ok(())
    }
}

impl TaskState<TheAbort> for Undoing {
    ghost goes_by = { λ plan. plan.job.committer ≡ Magic };

    ghost keeps = { λ plan _. plan.job.committer ≡ Magic };

    ghost operation = { abort_of };

    fn begin(alloc: Global, plan: &TaskPlan) -> Result<Undoing, AllocError> {
        Ok(Undoing {
            at: 0,
            sweep: Sweep::new(alloc),
            end: kept_if(plan.known.publish_sent()),
        })
    }

    fn ask(&self, alloc: Global, plan: &TaskPlan) -> Asked {
        let None = &self.end else {
            return Ok(None);
        };
        match made(&plan.known).get(self.at) {
            Some(drawn) => abort_request(bucket_of(plan), drawn),
            None => sweep_request(alloc, plan, &self.sweep),
        }
    }

    fn hear(&mut self, alloc: Global, plan: &mut TaskPlan, reply: &Reply, repeated: bool) -> Asked {
        let _ = repeated;
        self.go_on(alloc, plan, reply)?;
        self.ask(alloc, plan)
    }

    fn wear(&mut self, plan: &mut TaskPlan) {
        let _ = plan;
        self.finish(TaskEnd::StoreFault);
    }

    fn finish(&mut self, end: TaskEnd)
        ensures end { self.new.end ≡ Some end }
    {
        put(&mut self.end, Some(end));
    }

    fn end(&self, plan: &TaskPlan) -> Option<&TaskEnd> {
        let _ = plan;
        self.end.as_ref()
    }
}
