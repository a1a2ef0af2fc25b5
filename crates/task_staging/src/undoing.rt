ghost use Rattle.std.specs.Prelude.{◌≡◌, IfOk, Some};
ghost use Rattle.s3_types.specs.declared.request.Request.TheVariants.{ClusterDelete};
ghost use Rattle.job_protocol.specs.AtWork.{task_script, who_of};
ghost use Rattle.job_protocol.specs.TaskCommits.{temporary_path};
ghost use Rattle.job_protocol.specs.TaskAborts.{task_abort_hears};
ghost use Rattle.s3_types.specs.declared.request.Committer.TheVariants.{Magic};
ghost use Rattle.task_staging.specs.Undoing.{abort_of};
ghost use Rattle.task_staging.specs.inner.Undoing.{done_at, end_at};

use crate::requests::temporary;
use job_model::{TaskEnd, TaskPlan};
use machine::Asked;
use s3_types::{Reply, Request, put};
use std::alloc::{AllocError, Global};
use task_operation::{TaskMachine, TaskState, TheAbort};
use task_requests::{abort_request, bucket_of, made};

/// An abort in progress: how many uploads it has aborted, and how it ended.
#[derive(Drop)]
pub struct Undoing {
    pub at: usize,
    pub end: Option<TaskEnd>,
}

/// A staging attempt's abort of its task. An attempt that has sent its publishing request ends with
/// Kept and sends nothing. Any other aborts its uploads, oldest first, and then deletes its
/// temporary file if it has sent the put of it. (Hadoop, S3A committer architecture: task abort.)
pub type AbortTask = TaskMachine<TheAbort, Undoing>;

/// Returns the deletion of the attempt's temporary file.
fn remove_request(alloc: Global, plan: &TaskPlan) -> Result<Option<Request>, AllocError>
    ensures { IfOk result (λ request. request ≡ Some (ClusterDelete (temporary_path (task_script plan.now)
        (who_of plan.now)))) }
{
    let path = temporary(alloc, plan)?;
    match Request::cluster_delete(&path) {
        Ok(request) => Ok(Some(request)),
        Err(error) => Err(error),
    }
}

/// Returns Done if nothing is left to do after `at` uploads are aborted, else None. Takes no
/// memory.
fn done_at(plan: &TaskPlan, at: usize) -> Option<TaskEnd>
    ensures { result ≡ done_at plan.now.known at }
{
    if at < made(&plan.known).len() || plan.known.put_sent() {
        None
    } else {
        Some(TaskEnd::Done)
    }
}

/// Returns how an abort ends that has nothing to do, or None if it has something to do. Takes no
/// memory.
fn end_at(plan: &TaskPlan) -> Option<TaskEnd>
    ensures { result ≡ end_at plan.now.known }
{
    if plan.known.publish_sent() {
        Some(TaskEnd::Kept)
    } else {
        done_at(plan, 0)
    }
}

impl Undoing {
    /// Takes the reply to the current request and goes on from there. Takes no memory.
    fn go_on(&mut self, plan: &TaskPlan, reply: &Reply)
        requires { plan.now.job.committer ≡ Magic → ⊥ }
        ensures { abort_of plan.now self.new ≡ task_abort_hears (task_script plan.now) (abort_of plan.now self.old)
            reply.now }
    {
        let _ = reply;
        let None = &self.end else {
            return;
        };
        if self.at < made(&plan.known).len() {
            self.at += 1;
            put(&mut self.end, done_at(plan, self.at));
        } else {
            self.finish(TaskEnd::Done);
        }
    }
}

impl TaskState<TheAbort> for Undoing {
    ghost goes_by = { λ plan. plan.job.committer ≡ Magic → ⊥ };

    ghost keeps = { λ plan _. plan.job.committer ≡ Magic → ⊥ };

    ghost operation = { abort_of };

    fn begin(alloc: Global, plan: &TaskPlan) -> Result<Undoing, AllocError> {
        let _ = alloc;
        Ok(Undoing {
            at: 0,
            end: end_at(plan),
        })
    }

    fn ask(&self, alloc: Global, plan: &TaskPlan) -> Asked {
        let None = &self.end else {
            return Ok(None);
        };
        match made(&plan.known).get(self.at) {
            Some(drawn) => abort_request(bucket_of(plan), drawn),
            None => remove_request(alloc, plan),
        }
    }

    fn hear(&mut self, alloc: Global, plan: &mut TaskPlan, reply: &Reply, repeated: bool) -> Asked {
        let _ = repeated;
        self.go_on(plan, reply);
        self.ask(alloc, plan)
    }

    fn wear(&mut self, plan: &mut TaskPlan) {
        let _ = plan;
        self.finish(TaskEnd::StoreFault);
    }

    fn finish(&mut self, end: TaskEnd)
        ensures { self.new ≡ record { at = self.old.at; end = Some end } }
    {
        put(&mut self.end, Some(end));
    }

    fn end(&self, plan: &TaskPlan) -> Option<&TaskEnd> {
        let _ = plan;
        self.end.as_ref()
    }
}
