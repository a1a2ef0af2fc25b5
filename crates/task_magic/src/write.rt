ghost use Rattle.std.specs.Prelude.{◌≡◌, Some};
ghost use Rattle.s3_types.specs.declared.request.Committer.TheVariants.{Magic};
ghost use Rattle.task_magic.specs.Writing.{Keeps, operation_of};
ghost use Rattle.task_magic.specs.inner.Writing.{done_if_none};

use crate::stepping::{Turned, advance};
use job_model::{TaskEnd, TaskPlan};
use machine::Asked;
use path_keys::S3Path;
use s3_types::{Reply, Request, put};
use std::alloc::{AllocError, Global};
use task_operation::{TaskMachine, TaskState, TheWrite};
use task_requests::{WriteStage, ask, directory};

/// A write in progress: the attempt's directory, how many files are complete, the stage of the next
/// one, and how the write ended.
#[derive(Drop)]
pub struct Writing {
    pub dir: S3Path,
    pub place: usize,
    pub stage: WriteStage,
    pub end: Option<TaskEnd>,
}

/// A magic attempt's write of its files, in the script's order. Each file becomes an upload that is
/// not completed, with a marker and a record below the attempt's directory. (Hadoop, S3A committer
/// architecture.)
pub type WriteFiles = TaskMachine<TheWrite, Writing>;

/// Returns Done if the plan has no files, else None. Takes no memory.
fn done_if_none(plan: &TaskPlan) -> Option<TaskEnd>
    ensures { result ≡ done_if_none plan.now.files }
{
    if plan.files.len() == 0 {
        Some(TaskEnd::Done)
    } else {
        None
    }
}

impl Writing {
    /// Moves to the state after a step, and returns the next request. Takes no memory.
    fn turn_to(&mut self, turned: Turned) -> Option<Request>
        ensures asked { result ≡ turned.asked }
        ensures goes { self.new ≡ record {
          dir = self.old.dir;
          place = turned.place;
          stage = turned.stage;
          end = turned.end;
        } }
    {
        let Turned {
            place,
            stage,
            end,
            asked,
        } = turned;
        self.place = place;
        self.stage = stage;
        put(&mut self.end, end);
        asked
    }
}

impl TaskState<TheWrite> for Writing {
    ghost goes_by = { λ plan. plan.job.committer ≡ Magic };

    ghost keeps = { Keeps };

    ghost operation = { operation_of };

    fn begin(alloc: Global, plan: &TaskPlan) -> Result<Writing, AllocError> {
        let dir = directory(alloc, plan)?;
        Ok(Writing {
            dir,
            place: 0,
            stage: WriteStage::Creating,
            end: done_if_none(plan),
        })
    }

    fn ask(&self, alloc: Global, plan: &TaskPlan) -> Asked {
        match &self.end {
            Some(_) => Ok(None),
            None => ask(alloc, plan, &self.dir, self.place, self.stage),
        }
    }

    fn hear(&mut self, alloc: Global, plan: &mut TaskPlan, reply: &Reply, repeated: bool) -> Asked {
        let _ = repeated;
        match advance(alloc, plan, &self.dir, self.place, self.stage, reply) {
            Ok(turned) => Ok(self.turn_to(turned)),
            Err(error) => Err(error),
        }
    }

    fn wear(&mut self, plan: &mut TaskPlan) {
        let _ = plan;
        self.finish(TaskEnd::StoreFault);
    }

    fn finish(&mut self, end: TaskEnd)
        ensures { self.new ≡ record {
          dir = self.old.dir;
          place = self.old.place;
          stage = self.old.stage;
          end = Some end;
        } }
    {
        put(&mut self.end, Some(end));
    }

    fn end(&self, plan: &TaskPlan) -> Option<&TaskEnd> {
        let _ = plan;
        self.end.as_ref()
    }
}
