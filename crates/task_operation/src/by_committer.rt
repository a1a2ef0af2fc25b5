ghost use Rattle.task_operation.specs.ByCommitter.{GoesBy, KeepsBy, operation_by};

use crate::operation::TaskOperation;
use crate::task_state::TaskState;
use job_model::{TaskEnd, TaskPlan};
use machine::Asked;
use s3_types::{Committer, Reply};
use std::alloc::{AllocError, Global};

/// An operation for the committer that the plan's job has.
#[derive(Drop)]
pub enum ByCommitter<M, S> {
    Magic(M),
    Staging(S),
}

impl<O: TaskOperation, M: TaskState<O>, S: TaskState<O>> TaskState<O> for ByCommitter<M, S> {
    ghost goes_by = { GoesBy M.goes_by S.goes_by };

    ghost keeps = { KeepsBy M.keeps S.keeps };

    ghost operation = { operation_by M.operation S.operation };

    fn begin(alloc: Global, plan: &TaskPlan) -> Result<ByCommitter<M, S>, AllocError> {
        match plan.job.committer {
            Committer::Magic => match M::begin(alloc, plan) {
                Ok(held) => Ok(ByCommitter::Magic(held)),
                Err(error) => Err(error),
            },
            _ => match S::begin(alloc, plan) {
                Ok(held) => Ok(ByCommitter::Staging(held)),
                Err(error) => Err(error),
            },
        }
    }

    fn ask(&self, alloc: Global, plan: &TaskPlan) -> Asked {
        match self {
            ByCommitter::Magic(held) => held.ask(alloc, plan),
            ByCommitter::Staging(held) => held.ask(alloc, plan),
        }
    }

    fn hear(&mut self, alloc: Global, plan: &mut TaskPlan, reply: &Reply, repeated: bool) -> Asked {
        match self {
            ByCommitter::Magic(held) => held.hear(alloc, plan, reply, repeated),
            ByCommitter::Staging(held) => held.hear(alloc, plan, reply, repeated),
        }
    }

    fn wear(&mut self, plan: &mut TaskPlan) {
        match self {
            ByCommitter::Magic(held) => held.wear(plan),
            ByCommitter::Staging(held) => held.wear(plan),
        }
    }

    fn finish(&mut self, end: TaskEnd) {
        match self {
            ByCommitter::Magic(held) => held.finish(end),
            ByCommitter::Staging(held) => held.finish(end),
        }
    }

    fn end(&self, plan: &TaskPlan) -> Option<&TaskEnd> {
        match self {
            ByCommitter::Magic(held) => held.end(plan),
            ByCommitter::Staging(held) => held.end(plan),
        }
    }
}
